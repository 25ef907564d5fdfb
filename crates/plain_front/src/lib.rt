//! Floor 5, goals: what a text is read as, and the fault of one that isn't verified.
#![tactic(auto)]

mod laws;

pub use laws::texts_are_read;
