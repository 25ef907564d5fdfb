//! Floor 7, command: the words of the command `wpview`.
#![tactic(auto)]

mod commands;
mod words;

pub use commands::{Command, Form};
pub use words::command_of;
