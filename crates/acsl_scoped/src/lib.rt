//! Floor 3, program: the sets of loops name variables that are in scope. Laws.
#![tactic(auto)]

mod laws;

pub use laws::loops_are_scoped;
