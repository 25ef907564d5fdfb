//! Floor 6, prover: whether two ids of a store of terms stand for one tree.
#![tactic(auto)]

mod same;

pub use same::is_same;
