//! Floor 2, parsers: reads expressions: equal to a reader on token lists that is proved against the grammar in both directions.
#![tactic(auto)]

mod exact;
mod exprs;
mod operators;
mod read;
mod trees;

pub use exact::{cond_is_exact, expr_is_exact};
pub use read::{cond_at, expr_at};
