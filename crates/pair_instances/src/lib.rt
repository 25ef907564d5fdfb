//! Floor 6, prover: the rows of a round of instances at two nodes, drawn over the ids of a store of terms.
#![tactic(auto)]

mod frames;
mod layouts;
mod pairs;
mod ranges;
mod regions;

pub use frames::frame_of_load;
pub use layouts::answer_of_layout;
pub use pairs::{PairRow, at_pairs, instances_at};
pub use ranges::range_of_load;
