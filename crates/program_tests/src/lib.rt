//! Floor 5, goals: tests of core programs and of their annotations, and what programs are that pass them.
#![tactic(auto)]

mod laws;

pub use laws::{
    examples_pass, passing_annotations_are, passing_bodies_are_annotated,
    passing_functions_are_ready, passing_sets_fit, programs_know_cells, tested_programs_fit,
};
