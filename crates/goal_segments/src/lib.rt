//! Floor 5, goals: segments of runs, from an entry or a head to the next, and the law that runs go well where none does wrong.
//! Floor 5, goals: segment runs with loops and calls, and the law that runs are as good as these. Laws.
#![tactic(auto)]

mod laws;
mod run_laws;

pub use laws::{modular, modular_as_spelled};
pub use run_laws::{runs_are_segment_runs, segment_runs_are_runs};
