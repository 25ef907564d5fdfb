//! Floor 5, goals: states of functions over plain integers as lists of slots. Laws.
#![tactic(auto)]

mod laws;

pub use laws::changes_are_puts;
