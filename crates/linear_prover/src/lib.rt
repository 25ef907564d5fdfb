//! Floor 6, prover: whether the links of a branch are a negative chain or a short sum.
#![tactic(auto)]

mod links;
mod literals;
mod prove;

pub use prove::negative_chain;
