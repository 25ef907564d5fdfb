//! Floor 5, goals: typed annotations of functions with memory are what the words of functions ask for. Laws.
#![tactic(auto)]

mod laws;

pub use laws::{
    annotations_fit, callees_fit, callees_read, contracts_fit, forces_fit, functions_read,
    loops_fit, regions_fit,
};
