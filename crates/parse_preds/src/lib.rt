//! Floor 2, parsers: reads predicates of annotations, and the types and names that annotations declare.
#![tactic(auto)]

mod atoms;
mod binders;
mod chains;
mod exact;
mod next;
mod openings;
mod parts;
mod preds;
mod trees;

pub use binders::{logic_type_at, typed_at};
pub use exact::{logic_type_is_exact, pred_is_exact, typed_is_exact};
pub use next::ends_pred;
pub use preds::pred_at;
