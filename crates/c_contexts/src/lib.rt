//! Floor 3, program: full expressions as their contexts want them: conditions, initialisers, returned values, operands of `switch`, constants.
#![tactic(auto)]

mod constants;
mod contexts;

pub use constants::{case_number, constant_number};
pub use contexts::{condition, initialiser, returned, statement, switched};
