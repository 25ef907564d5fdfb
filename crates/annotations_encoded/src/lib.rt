//! Floor 5, goals: annotations that typing lets pass have formulas. Laws.
#![tactic(auto)]

mod laws;

pub use laws::{
    annotations_are_encoded, bodies_are_encoded, examples_hold, regions_are_nodes,
    trees_are_encoded,
};
