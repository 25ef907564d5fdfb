//! Floor 5, goals: blocks along segment runs, and states that stay good. Laws.
#![tactic(auto)]

mod laws;

pub use laws::{ends_are_good, openings_are_good, standing_blocks};
