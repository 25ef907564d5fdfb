//! Floor 6, prover: the change of a branch that puts a witness.
#![tactic(auto)]

mod exists;

pub use exists::witness_exists;
