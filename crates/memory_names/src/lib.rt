//! Floor 5, goals: the base names of the slots of a function of a program with memory.
#![tactic(auto)]

mod bases;
mod laws;

pub use bases::{Named, slot_bases};
pub use laws::{bases_fit, names_are_shown, written_fit};
pub use slot_names::are_fit;
