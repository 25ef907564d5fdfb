//! Floor 6, prover: links over numbered classes, and the chains and short sums that refute them.
#![tactic(auto)]

mod checks;
mod find;
mod links;
mod search;
mod sums;

pub use find::refutation;
pub use links::{LinkForm, Part, Refutation};
