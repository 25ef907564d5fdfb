//! Floor 3, program: each quantifier of a program that is spelled binds a name, and so does each one of its typed form.
#![tactic(auto)]

mod laws;

pub use laws::{
    spelled_assertions_bind, spelled_contracts_bind, spelled_definitions_bind, spelled_loops_bind,
    spelled_preds_bind, spelled_programs_are_well_typed, spelled_programs_bind,
    spelled_statements_bind, typed_programs_bind, typed_statements_bind,
};
