//! Floor 6, prover: a round of instances.
#![tactic(auto)]

mod formulas;
mod given;
mod rounds;
mod steps;

pub use rounds::round_of;
