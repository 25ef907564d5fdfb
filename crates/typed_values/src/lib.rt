//! Floor 5, goals: expressions of every typed text, typed by the kinds of their cells. Laws.
#![tactic(auto)]

mod laws;

pub use laws::{
    changed_are_typed, core_values_are_typed, files_know_their_cells, operands_are_typed,
    operators_are_typed, programs_meet_their_files, well_typed_are_typed,
};
