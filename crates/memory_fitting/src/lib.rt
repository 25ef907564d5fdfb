//! Floor 5, goals: what the laws on words ask of functions with memory, out of their typing.
#![tactic(auto)]

mod laws;

pub use laws::{
    expressions_stay_typed, operands_stay_typed, typed_expressions_fit, typed_functions_fit,
    typed_statements_fit, typed_variables_fit,
};
