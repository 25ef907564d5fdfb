//! Floor 6, prover: trees by places, of which no two are one tree.
#![tactic(auto)]

mod heads;
mod numbered;
mod table;

pub use heads::{Heads, number_of};
pub use numbered::place_of;
pub use table::{TreeNode, TreeTable, empty, put};
