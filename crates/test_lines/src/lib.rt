//! Floor 8, tests: what the programs share that print what comes of cases: the text that a line of a file of cases stands for, and the page on
//! which answers are written.
#![tactic(auto)]

mod lines;
mod page;
mod program;

pub use lines::put_text;
pub use page::Page;
pub use program::{given_text, print_page};
