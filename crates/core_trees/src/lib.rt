//! Floor 5, goals: core programs in memory.
#![tactic(auto)]

mod claims;
mod statements;
mod variables;

pub use claims::{Claim, Loop, Measure};
pub use statements::{Core, Target};
pub use variables::FunctionVariable;
