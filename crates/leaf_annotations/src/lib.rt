//! Floor 5, goals: formulas of annotations over leaves of slots are closed, and mean the annotations. Laws.
#![tactic(auto)]

mod laws;

pub use laws::{formulas_are_closed, sorted_formulas_mean, terms_mean};
