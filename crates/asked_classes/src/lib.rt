//! Floor 6, prover: the classes by which a round of instances asks which terms are same.
#![tactic(auto)]

mod asked;
mod markers;

pub use asked::asked_classes;
pub use markers::{marker_place, marker_places};
