//! Floor 3, program: which variables have their address taken.
#![tactic(auto)]

mod clauses;
mod exprs;
mod files;
mod gather;
mod hidden;
mod laws;
mod marks;
mod preds;
mod stmts;
mod terms;

pub use files::{taken_locals, taken_names};
pub use laws::{flags_are_free_names, marks_stay_in_scope, outer_names_are_free};
