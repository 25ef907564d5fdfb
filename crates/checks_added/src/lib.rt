//! Floor 5, goals: core programs in memory with their checks.
#![tactic(auto)]

mod laws;
mod programs;
mod statements;
mod steps;

pub use laws::checked_runs_as_spelled;
pub use programs::add_checks;
