//! Floor 5, goals: core programs with checks, in memory.
#![tactic(auto)]

mod files;
mod steps;

pub use files::{CheckedFunction, CheckedProgram};
pub use steps::{Goal, Step};
