//! Floor 5, goals: which functions of a program call each other.
#![tactic(auto)]

mod callees;
mod clusters;
mod laws;
mod rows;

pub use clusters::clusters_of;
pub use laws::reaching_is_by_calls;
