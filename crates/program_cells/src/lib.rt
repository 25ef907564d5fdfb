//! Floor 5, goals: which cells a file has: those that its program speaks of.
#![tactic(auto)]

mod annotations;
mod cells;
mod declared;
mod laws;
mod programs;
mod steps;
mod trees;
mod types;
mod values;

pub use cells::Cells;
pub use laws::programs_know_their_cells;
