//! Floor 5, goals: programs as they run, out of typed files and their typed annotations.
#![tactic(auto)]

mod laws;

pub use laws::{
    bodies_are_noted, bodies_are_placed, contracts_are_read, loops_are_read, notes_are_placed,
};
