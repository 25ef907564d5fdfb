//! Floor 5, goals: each annotation of a typed file that is expanded means what it means with its calls.
#![tactic(auto)]

mod laws;

pub use laws::{
    definitions_are_well_formed, files_are_well_formed, files_mean_the_same, operators_keep,
    preds_are_well_formed, programs_are_spelled, programs_mean_the_same, terms_are_well_formed,
    typed_files_are_spelled,
};
