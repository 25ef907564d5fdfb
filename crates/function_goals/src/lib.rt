//! Floor 5, goals: the goals of whole functions, passed on one at a time.
#![tactic(auto)]

mod bodies;
mod functions;

pub use functions::walk_function;
