//! Floor 6, prover: classes of places, by given pairs and by rows of one label over parts that pair off.
#![tactic(auto)]

mod classes;
mod joins;
mod keys;
mod rows;

pub use classes::close;
pub use rows::{ClassRow, Part};
