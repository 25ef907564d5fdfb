//! Floor 5, goals: programs over plain integers, whose core programs are so too. Laws.
#![tactic(auto)]

mod laws;

pub use laws::{plain_programs_are_typed, plain_programs_fit, typed_programs_fit};
