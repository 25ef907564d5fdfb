//! Floor 3, program: the typed form of a file, or its first fault among declarations and code.
#![tactic(auto)]

mod facts;
mod typing;

pub use typing::type_program;
