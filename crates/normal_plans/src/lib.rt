//! Floor 5, goals: what an expression as spelled becomes: its effect first, and then what is left of it.
#![tactic(auto)]

mod flow;
mod operands;
mod statements;
mod whole;

pub use flow::jumps;
pub use statements::{effect_of, started};
pub use whole::{planned_made, planned_test};
