//! Floor 5, goals: terms of typed expressions, formulas of their checks, and what they mean. Laws.
#![tactic(auto)]

mod laws;

pub use laws::{
    all_is_well_formed, formulas_mean_checks, operands_are_meant, operands_are_well_formed,
    terms_mean_values, texts, values_are_of_kind, ways_are_meant, words_have_the_checks,
    worlds_have_readings,
};
