//! Floor 3, program: the variables whose addresses a typed expression takes are those behind `&` in its text. Laws.
#![tactic(auto)]

mod laws;

pub use laws::addresses_are_named;
