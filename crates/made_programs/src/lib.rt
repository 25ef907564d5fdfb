//! Floor 5, goals: the program that a typed file is, in memory.
#![tactic(auto)]

mod annotated;
mod definitions;
mod programs;
mod values;
mod variables;

pub use annotated::Text;
pub use programs::program_of;
