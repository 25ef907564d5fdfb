//! Floor 3, program: what typing makes of annotations is well typed.
#![tactic(auto)]

mod laws;

pub use laws::{
    arguments_are_well_typed, clauses_are_well_typed, definitions_are_well_typed,
    files_are_well_typed, places_are_well_typed, preds_are_well_typed, ranges_are_well_typed,
    ranges_of_files_are_well_typed, terms_are_well_typed, tests_grow,
};
