//! Floor 4, logic: formulas put into a store of terms, and read from it.
#![tactic(auto)]

mod build;
mod laws;
mod made;
mod stored;

pub use laws::formulas_are_trees;
pub use made::Made;
pub use stored::{lift, lower, lower_node};
