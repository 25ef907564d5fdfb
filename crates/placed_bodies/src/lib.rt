//! Floor 5, goals: contracts and bodies as they run, in memory, out of typed ones.
#![tactic(auto)]

mod bodies;
mod clauses;
mod left;
mod notes;
mod put;

pub use bodies::body_placed;
pub use clauses::{contract_of, loop_with};
pub use left::Left;
