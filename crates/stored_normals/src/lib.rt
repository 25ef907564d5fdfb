//! Floor 4, logic: normal forms of what a store of terms holds.
#![tactic(auto)]

mod kept;
mod lift;
mod normal;
mod places;
mod settings;

pub use kept::{Normals, no_normals, normal_kept};
pub use lift::lift_node;
pub use normal::normal_in;
pub use places::fits_over;
pub use settings::is_same_setting;
