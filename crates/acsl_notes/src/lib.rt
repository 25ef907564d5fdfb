//! Floor 3, program: the annotations in the bodies of functions, typed in the order of the text.
#![tactic(auto)]

mod locals;
mod notes;
mod walk;

pub use locals::params_scope;
pub use notes::{Enclosing, Note};
pub use walk::body_noted;
