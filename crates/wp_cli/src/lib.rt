//! Floor 7, command: the top call of the program: from the words of the command to the report.
#![tactic(auto)]

mod answer;
mod pieces;
mod refusals;
mod top;

pub use top::wp_main;
