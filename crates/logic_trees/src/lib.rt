//! Floor 5, goals: what bodies of logic functions that call themselves read, and whether they are in form (ACSL 2.6.3).
#![tactic(auto)]

mod heads;
mod questions;
mod recursion;
mod simple;
mod walks;

pub use questions::Asked;
pub use recursion::is_recursion;
pub use walks::{is_simple, reads};
