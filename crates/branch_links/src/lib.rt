//! Floor 6, prover: the links of a branch, chains and short sums of them: definitions and laws.
#![tactic(auto)]

mod laws;

pub use laws::{classes_refute, links_refute};
