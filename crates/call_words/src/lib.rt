//! Floor 5, goals: the word of a call, and that the segment runs of a call are the runs of its word. Laws.
#![tactic(auto)]

mod laws;

pub use laws::{calls_are_good, calls_run, examples_hold};
