//! Floor 6, prover: the changes of a branch, in their order. Definitions and laws.
#![tactic(auto)]

mod laws;
mod rules;

pub use laws::{changes_keep_models, changes_lead_to_one, replacing_memories_keeps_meaning};
pub use rules::{ChangeRules, IdGiven};
