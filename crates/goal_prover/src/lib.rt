//! Floor 6, prover: whether a goal is valid, by the bounds of names or as far as its expansion tells.
#![tactic(auto)]

mod goals;

pub use goals::prove_goal;
