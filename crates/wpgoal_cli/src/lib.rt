//! Floor 7, command: the answer to a file of formulas, a line each.
#![tactic(auto)]

mod formulas;
mod lines;
mod top;
mod words;

pub use top::wpgoal_main;
