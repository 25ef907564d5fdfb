//! Floor 6, prover: what occurs in a branch, by the ids of a store.
#![tactic(auto)]

mod marks;
mod nodes;
mod repeats;

pub use marks::{is_marked, mark, marks_of};
pub use nodes::{all_nodes, push_nodes};
pub use repeats::{occurrences, without_repeats};
