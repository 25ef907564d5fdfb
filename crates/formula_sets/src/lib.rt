//! Floor 4, logic: sets of formulas by reference, in which looking one up takes as many comparisons as the set's size has digits.
#![tactic(auto)]

mod keys;
mod sets;

pub use sets::{first_ones, have_common};
