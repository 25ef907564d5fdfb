//! Floor 3, program: the annotations of a typed file with their definitions expanded in place.
#![tactic(auto)]

mod clauses;
mod files;

pub use files::{expand_annotations, type_annotated};
