//! Floor 2, parsers: the declarations with which the tokens of a file begin, as far as they are spelled.
#![tactic(auto)]

mod decls;
mod file;
mod forms;
mod found;
mod function;
mod lines;

pub use file::{Front, file_front};
pub use found::Lines;
