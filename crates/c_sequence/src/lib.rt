//! Floor 3, program: whether a full expression has one result in every order that C allows.
#![tactic(auto)]

mod found;
mod frames;
mod full;
mod summaries;

pub use found::{Embedded, Found, effects};
pub use full::is_sequenced;
pub use summaries::Summary;
