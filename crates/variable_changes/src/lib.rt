//! Floor 6, prover: the change of a branch that an equality makes which gives a variable.
#![tactic(auto)]

mod eliminate;
mod everywhere;
mod literals;
mod putting;

pub use eliminate::eliminate_variable;
pub use literals::{Elimination, first_elimination};
