//! Floor 5, goals: the core program of a program as spelled, in memory, which has the same outcome.
#![tactic(auto)]

mod laws;
mod programs;

pub use laws::core_runs_as_spelled;
pub use programs::normalise;
