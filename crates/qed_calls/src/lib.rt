//! Floor 4, logic: calls of recursive logic functions up to the cut.
#![tactic(auto)]

mod arguments;
mod calls;
mod laws;

pub use calls::call_base;
pub use laws::{calls_are_fixed, calls_keep_meaning};
