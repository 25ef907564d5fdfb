//! Floor 6, prover: formulas drawn over the ids of a store of terms, and looks at what it holds.
#![tactic(auto)]

mod instances;
mod kids;
mod nodes;

pub use instances::{Instances, instances_of, no_instances, one_id, three_ids, two_ids};
pub use kids::{four_kids, one_kid, three_kids, two_kids};
pub use nodes::{Seen, look};
