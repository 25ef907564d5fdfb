//! Floor 3, program: each node of a typed expression has the type that its parts give it.
#![tactic(auto)]

mod laws;

pub use laws::{typed_expressions_fit, values_are_scalars};
