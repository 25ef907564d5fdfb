//! Floor 5, goals: the programs of typed files with blocks and pointers. Laws.
#![tactic(auto)]

mod laws;

pub use laws::{
    kinded_files_are_kinded, kinded_files_fit, typed_statements_are_kinded, well_typed_are_kinded,
};
