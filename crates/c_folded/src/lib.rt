//! Floor 3, program: the constants that typing computes are those of the language, as a law over the definition of typing.
#![tactic(auto)]

mod laws;

pub use laws::{constants_are_folded, constants_in_scope_are_folded, only_constants_count};
