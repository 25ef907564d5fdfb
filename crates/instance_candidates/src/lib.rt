//! Floor 6, prover: the formulas of a round of instances that hang on which offsets are same.
#![tactic(auto)]

mod classes;
mod formulas;
mod meetings;
mod offsets;

pub use classes::given_meetings;
pub use formulas::orders;
pub use meetings::{Meeting, offset_candidates};
pub use offsets::{given_orders, offset_formulas};
