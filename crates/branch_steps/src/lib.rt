//! Floor 6, prover: the first change of a branch that applies, made.
#![tactic(auto)]

mod changing;

pub use changing::change_branch;
