//! Floor 3, program: the typed form of a predicate of an annotation, or the first fault in it.
#![tactic(auto)]

mod binders;
mod chains;
mod lets;
mod preds;
mod ranges;

pub use binders::{Over, bind, enter, leave};
pub use preds::typed_pred;
