//! Floor 5, goals: what a loop's turns or a call may have changed, as steps. Laws.
//! Floor 5, goals: the word of a loop with memory, and that the segment runs of loops are the runs of their words. Laws.
//! Floor 5, goals: the word of a call with memory, and that the segment runs of calls are the runs of their words. Laws.
#![tactic(auto)]

mod call_laws;
mod havoc_laws;
mod loop_laws;

pub use call_laws::{calls_are_good, calls_run};
pub use havoc_laws::{havoc_runs, runs_keep_sorts, sorted_places_hold_numbers, stays_mean};
pub use loop_laws::{loops_are_good, loops_run};
