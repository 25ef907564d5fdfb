//! Floor 5, goals: nodes of annotations over what their kids come to.
#![tactic(auto)]

mod arithmetic;
mod chains;
mod conversions;
mod operands;
mod pairs;
mod pointers;
mod ranges;
mod regions;
mod terms;

pub use arithmetic::{Joint, calculated, changed, compared, joined, negated};
pub use chains::{chain, separated};
pub use conversions::{chosen, converted, holds_all};
pub use pairs::first_kid;
pub use pointers::{difference, field, moved, pointers_compared, reached};
pub use ranges::{Ends, ends_between, kind_ends, quantified};
pub use regions::region_of;
pub use terms::{Pointer, Shape, Terms, copy_cells, shape_of};
