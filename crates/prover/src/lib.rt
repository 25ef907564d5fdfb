//! Floor 6, prover: whether a goal is valid, as far as its expansion tells.
#![tactic(auto)]

mod late;
mod links;
mod proving;
mod rules;

pub use late::{LateProver, new_late};
pub use links::LinkTest;
pub use proving::{prove, prove_in};
pub use rules::{Prover, new_prover};
