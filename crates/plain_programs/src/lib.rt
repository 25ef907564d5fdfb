//! Floor 5, goals: the programs of typed files over plain integers. Laws.
#![tactic(auto)]

mod laws;

pub use laws::{
    globals_are_integers, plain_files_are_plain, plain_files_fit, sequenced_are_single,
    typed_statements_are_plain, variables_are_integers, well_typed_are_plain,
};
