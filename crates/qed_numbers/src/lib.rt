//! Floor 4, logic: operators over numbers, and the rules of the normal form at them.
#![tactic(auto)]

mod bits;
mod laws;
mod passes;
mod terms;
mod values;

pub use laws::{long_keeps_meaning, numbers_answer, numbers_keep_meaning};
pub use passes::{long_step, number_step};
