//! Floor 5, goals: what typing declares has layouts. Laws.
#![tactic(auto)]

mod laws;

pub use laws::{bodies_stay_laid, statements_stay_laid};
