// Nodes of the trees by what they hold, so that a walk has an arm for each number of parts and not for each variant.

mod exprs;
mod preds;
mod terms;
mod types;

pub use exprs::{ExprLeaf, ExprOne, ExprShape, ExprTwo};
pub use preds::{PredLeaf, PredOne, PredShape, PredTwo};
pub use terms::{TermLeaf, TermOne, TermShape, TermTwo};
pub use types::{TypeLeaf, TypeShape};
