//! Floor 3, program: the annotations of a typed file, typed, or the first fault among them.
#![tactic(auto)]

mod annotations;
mod files;
mod functions;
mod sites;

pub use annotations::{Annotation, Annotations};
pub use files::type_annots;
