//! Floor 2, parsers: the clauses of contracts, behaviors and loops: by their sorts, and which may stand together.
#![tactic(auto)]

mod items;
mod sorted;

pub use items::{Item, Part};
pub use sorted::{Sorted, are_in, are_single, first_assigns, first_measure, sort};
