//! Floor 3, program: what names are in annotations, which labels may stand there, and how the nodes of an annotation are counted.
#![tactic(auto)]

mod counting;
mod labels;
mod names;
mod sites;
mod weights;

pub use counting::{Count, Limit, MOST_NODES, Weight, ended, limited};
pub use labels::{label_at, old_at};
pub use names::{Around, Bound, Definition, Definitions, Meaning, Reading, Site};
pub use sites::{Before, Within};
