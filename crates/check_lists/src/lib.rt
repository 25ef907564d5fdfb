//! Floor 5, goals: the checks of expressions, as lists in memory.
#![tactic(auto)]

mod checks;
mod lists;
mod objects;
mod operations;
mod pushes;
mod walk;

pub use checks::{Check, Undefined};
pub use lists::{all_checks, checks_of, given_checks, place_checks};
