//! Floor 1, text: from the bytes of a C file with annotations to its tokens.
#![tactic(auto)]

mod bytes;
mod chars;
mod lexemes;
mod lexer;
mod numbers;
mod piece;
mod pieces;
mod place;
mod rows;
mod tables;

pub use lexer::{MOST_BYTES, MOST_TOKENS, lex};
