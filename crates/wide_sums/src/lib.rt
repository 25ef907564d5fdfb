//! Floor 6, prover: sums of any size of numbers of 128 bits, and of products of two.
#![tactic(auto)]

mod products;
mod wide;

pub use products::product;
pub use wide::Wide;
