//! Floor 2, parsers: statements: the parser of C's statements and of the annotations between them, by the grammar.
#![tactic(auto)]

mod blocks;
mod exact;
mod stmts;

pub use blocks::{Body, block_at};
pub use exact::block_is_exact;
