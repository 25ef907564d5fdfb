//! Floor 5, goals: the walk of a call: what is asked before it, and what is known behind it.
#![tactic(auto)]

mod arguments;
mod asked;
mod behind;
mod calls;
mod changes;
mod claims;
mod measures;
mod readings;
mod results;
mod sets;
mod stays;

pub use calls::walk_call;
