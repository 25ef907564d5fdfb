//! Floor 5, goals: how a typed file spells its logic functions with their parameters, and its variables.
#![tactic(auto)]

mod names;

pub use names::file_names;
