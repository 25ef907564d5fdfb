//! Floor 6, prover: the rows that stand for the terms of a branch, by places.
#![tactic(auto)]

mod branch;
mod literals;
mod marks;
mod rows;

pub use branch::{BranchRows, branch_rows};
pub use literals::literal_places;
pub use marks::marks_under;
pub use rows::marked_rows;
