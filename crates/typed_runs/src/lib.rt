//! Floor 5, goals: what a run of a program whose statements keep to the kinds leaves alone. Laws.
#![tactic(auto)]

mod laws;

pub use laws::{levels_keep, runs_leave_well, small_program_fits};
