//! Floor 6, prover: the formulas of a round that are added to a branch.
#![tactic(auto)]

mod additions;

pub use additions::{added, is_true};
