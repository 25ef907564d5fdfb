//! Floor 5, goals: whether the sets of loops name variables that are in scope.
#![tactic(auto)]

mod regions;
mod stmts;

pub use stmts::sets_stand;
