//! Floor 3, program: integer constant expressions: which expressions are such, of which kind, and their values.
#![tactic(auto)]

mod exprs;
mod laws;
mod literals;
mod rules;

pub use exprs::{constant_of, eval_const};
pub use laws::{constants_follow_the_rules, values_are_of_their_kind};
pub use literals::{char_constant, token_constant};
pub use rules::{
    Constant, binary_of, bytes, cast_to, chosen, operate, result_kind, shift, unary_of,
};
