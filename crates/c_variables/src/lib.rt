//! Floor 3, program: what declarators declare: the types of variables, fields, typedef names and parameters.
#![tactic(auto)]

mod context;
mod variables;

pub use context::Context;
pub use variables::{named_here, object_of, parameter, variable};
