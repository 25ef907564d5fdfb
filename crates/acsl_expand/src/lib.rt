//! Floor 3, program: definitions of predicates and logic functions expanded in place in typed annotations.
#![tactic(auto)]

mod expansion;
mod parts;

pub use expansion::{Meant, expanded, expanded_body};
