//! Floor 5, goals: typed annotations stay in order where their definitions are expanded. Laws.
#![tactic(auto)]

mod laws;

pub use laws::expansion_keeps_types;
