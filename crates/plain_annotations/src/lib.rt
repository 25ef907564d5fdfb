//! Floor 5, goals: annotations over plain integers are what the words of functions ask for. Laws.
#![tactic(auto)]

mod laws;

pub use laws::{
    annotations_fit, callees_fit, claims_fit, contracts_fit, loops_fit, operands_are_open,
    plain_settings_fit, promises_fit, settings_fit,
};
