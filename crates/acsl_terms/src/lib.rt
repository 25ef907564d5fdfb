//! Floor 3, program: the typed form of a term of an annotation, or the first fault in it.
#![tactic(auto)]

mod calls;
mod leaves;
mod names;
mod steps;
mod terms;

pub use calls::{Called, called_at};
pub use leaves::{closed, closed_tree, misshapen, sort_of};
pub use steps::local_of;
pub use terms::{predicate_call, typed_term};
