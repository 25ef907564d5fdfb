//! Floor 3, program: typed programs: types, and expressions whose names are numbers, with the type of each node.
#![tactic(auto)]

mod laws;
mod operators;
mod tree;
mod types;

pub use laws::types_are_compared;
pub use operators::{
    Arithmetic, Change, Comparison, Connective, Effect, Op, Path, Root, Step, UpdateForm, Variable,
};
pub use tree::{Value, ValueNode};
pub use types::{Base, CoreType};
