//! Floor 5, goals: the report of goals: what is said of each, and the lines that tell it.
#![tactic(auto)]

mod goals;
mod judges;
mod lines;
mod names;
mod pieces;

pub use goals::FunctionLines;
pub use judges::Judge;
pub use lines::{put_hypotheses, put_ignored, put_summary};
