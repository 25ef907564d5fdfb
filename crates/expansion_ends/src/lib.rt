//! Floor 6, prover: how the expansion of a goal ends, and which verdicts may be given of it. Definitions and laws.
#![tactic(auto)]

mod laws;

pub use laws::{closed_is_valid, comes_to_one_end, ends_are_verdicts};
