//! Floor 3, program: typed expressions as operands, and what their context makes of them.
#![tactic(auto)]

mod conversions;
mod folding;
mod makers;
mod operands;

pub use conversions::{assignable, converted, kind_of_value};
pub use folding::{folded, is_null, number_of};
pub use makers::{applied_to_all, applied_to_one, applied_to_two, null, number};
pub use operands::{Operand, Place, Rvalue, followed, valued};
