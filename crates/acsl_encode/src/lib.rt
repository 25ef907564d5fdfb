//! Floor 5, goals: formulas of annotations, and that they mean the annotations.
#![tactic(auto)]

mod laws;

pub use laws::{
    binders_differ, examples_hold, formulas_fit, formulas_mean, reads_are_given, setting_stands,
};
