//! Floor 5, goals: what a run of a program over plain integers leaves alone. Laws.
#![tactic(auto)]

mod laws;

pub use laws::{levels_keep, runs_leave_well};
