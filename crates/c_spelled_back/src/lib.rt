//! Floor 3, program: a typed expression is of the expression that was typed, as a law over the definition of typing.
#![tactic(auto)]

mod laws;

pub use laws::typed_expressions_are_spelled;
