//! Floor 3, program: what the names in scope stand for, and what types mean as spelled.
#![tactic(auto)]

mod extents;
mod file;
mod laws;
mod local;
mod meanings;
mod scope;
mod symbols;

pub use extents::{MOST_OBJECT_CELLS, cells_with, extent};
pub use file::File;
pub use laws::{
    extents_are_within, files_declare, parameters_point, pointers_are_spelled, scopes_nest,
    structs_are_within, type_names_mean, voids_stand_alone,
};
pub use local::Local;
pub use meanings::{
    array_meaning, is_void_pointer, meaning, named, parameter_of, sized_parameter, type_of,
};
pub use scope::Scope;
pub use symbols::{Field, Object, Resolved, Signature, Structure, Symbol, Tag, field_number};
