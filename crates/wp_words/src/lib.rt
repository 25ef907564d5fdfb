//! Floor 7, command: the words of the command.
#![tactic(auto)]

mod numbers;
mod words;

pub use words::{Command, Wanted, command_of};
