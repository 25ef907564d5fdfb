//! Floor 5, goals: which sources are verified, with logic functions that call themselves.
#![tactic(auto)]

mod laws;
mod tests;

pub use laws::{verified_is_met, verified_is_regular};
pub use tests::bodies_fit;
