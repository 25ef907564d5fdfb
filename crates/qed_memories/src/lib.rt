//! Floor 4, logic: the rules of the normal form at memories and tables.
#![tactic(auto)]

mod addresses;
mod blocks;
mod laws;
mod layouts;
mod loads;
mod look;
mod steps;
mod tables;

pub use laws::{heads_keep_alike, memories_keep_meaning, passes_are_steps, settings_respect_alike};
pub use steps::{block_pass, memory_pass};
