//! Floor 7, command: reports of texts, and the law that what they claim of their programs is so.
#![tactic(auto)]

mod laws;

pub use laws::reports_claim;
