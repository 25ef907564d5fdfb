//! Floor 3, program: the type of an expression, or the first fault in it.
#![tactic(auto)]

mod exprs;
mod frames;
mod leaves;
mod steps;

pub use exprs::typed_expr;
