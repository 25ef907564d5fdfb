//! Floor 6, prover: which terms of a branch are same, and which literals clash: definitions and laws.
#![tactic(auto)]

mod laws;

pub use laws::{clash_refutes, rows_agree, same_means, written_is_form};
