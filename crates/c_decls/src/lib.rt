//! Floor 3, program: declarations of the file scope but functions: structs, enumerated types, typedef names, variables.
#![tactic(auto)]

mod constants;
mod enums;
mod globals;
mod laws;
mod structs;

pub use constants::is_constant;
pub use enums::{enum_declared, typedef_declared};
pub use globals::globals_declared;
pub use laws::{
    constants_read_nothing, names_are_declared_once, numbers_count_up, structs_are_laid_out,
    variables_have_places,
};
pub use structs::struct_declared;
