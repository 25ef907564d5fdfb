//! Floor 6, prover: the rests of the equalities of a branch, as pairs of places.
#![tactic(auto)]

mod literals;
mod rests;

pub use literals::{branch_pairs, literal_pairs};
pub use rests::rest_pairs;
