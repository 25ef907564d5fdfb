//! Floor 5, goals: whether the annotations of a program are over plain integers.
#![tactic(auto)]

mod claims;
mod contracts;
mod laws;
mod nodes;
mod programs;
mod regions;
mod roles;
mod settings;
mod steps;
mod trees;

pub use laws::{each_is_annotated, nothing_is_called, settings_are_plain};
pub use programs::{are_annotated, calls_nothing, is_annotated};
pub use settings::setting_of;
