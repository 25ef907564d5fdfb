//! Floor 3, program: whether a typed file is over integers that no pointer leads to.
#![tactic(auto)]

mod files;
mod stmts;
mod values;

pub use files::is_plain;
