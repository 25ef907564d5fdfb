//! Floor 3, program: typed statements fit, and spell the statements that were typed, as a law over the definition of typing.
#![tactic(auto)]

mod laws;

pub use laws::typed_statements_are_in_order;
