//! Floor 2, parsers: the lines of the parts with `\from` of a text.
#![tactic(auto)]

mod contracts;
mod files;
mod stmts;

pub use files::from_lines;
