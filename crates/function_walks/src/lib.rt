//! Floor 5, goals: where functions are entered and where they return, in the walk over them.
#![tactic(auto)]

mod entry;
mod known;
mod origins;
mod promises;
mod ranges;
mod together;

pub use entry::enter;
pub use promises::{ask_promises, end_body};
pub use together::ask_together;
