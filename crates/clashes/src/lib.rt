//! Floor 6, prover: whether literals clash.
#![tactic(auto)]

mod clash;
mod differences;
mod literals;
mod numbers;
mod seen;
mod sums;
mod totals;

pub use clash::has_clash;
