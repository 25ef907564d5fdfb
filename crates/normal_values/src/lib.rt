//! Floor 5, goals: what an expression becomes whose effect is done.
#![tactic(auto)]

mod flow;
mod pure;

pub use flow::decides;
pub use pure::{pure_made, pure_test, pures};
