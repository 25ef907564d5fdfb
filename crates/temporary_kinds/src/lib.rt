//! Floor 5, goals: how many temporaries a function has, and of which kinds.
#![tactic(auto)]

mod found;
mod functions;
mod laws;
mod steps;
mod values;

pub use functions::temporary_kinds;
pub use laws::{live_are_mentioned, mentioned_are_counted, mentioned_kinds_are_theirs};
