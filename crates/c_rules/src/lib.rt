//! Floor 3, program: what the operators of C make of typed operands.
#![tactic(auto)]

mod choices;
mod integers;
mod operators;
mod pointers;

pub use choices::conditional;
pub use integers::{constant_in, node_of_one};
pub use operators::{binary, complement, minus, not_of, scalar, unary_plus};
pub use pointers::{element_cells, is_scalar, stride};
