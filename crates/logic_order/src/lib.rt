//! Floor 5, goals: when the logic functions of a file that call themselves are in order. Definitions and laws.
#![tactic(auto)]

mod laws;

pub use laws::{examples_hold, files_in_order, functions_take};
