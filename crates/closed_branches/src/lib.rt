//! Floor 6, prover: whether a branch is closed by its literals.
#![tactic(auto)]

mod closing;
mod laws;
mod literals;
mod rules;

pub use closing::{is_closed, would_close};
pub use laws::closed_has_no_model;
pub use literals::is_literal;
pub use rules::LiteralTest;
