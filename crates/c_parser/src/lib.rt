//! Floor 2, parsers: reads files of C with annotations: from tokens to programs.
#![tactic(auto)]

mod limits;
mod parser;

pub use parser::{one_program, parse};
