//! Floor 5, goals: copies of typed expressions.
#![tactic(auto)]

mod operators;
mod values;

pub use operators::{copy_effect, copy_op, copy_path};
pub use values::{copy_value, copy_values, typed_as};
