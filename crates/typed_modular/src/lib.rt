//! Floor 5, goals: the modular law for programs with blocks and pointers. Laws.
#![tactic(auto)]

mod laws;

pub use laws::{
    modular, modular_as_spelled, others_lie_in_gaps, regions_are_solid, small_sets_fit,
};
