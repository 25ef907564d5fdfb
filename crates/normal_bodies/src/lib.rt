//! Floor 5, goals: programs as spelled made core programs.
#![tactic(auto)]

mod bodies;
mod claims;
mod dispatch;
mod exits;
mod labels;
mod steps;

pub use bodies::normalise_body;
