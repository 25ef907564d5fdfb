//! Floor 6, prover: the bounds that known formulas set to names, and the claims that these settle.
#![tactic(auto)]

mod bounds;
mod formulas;
mod ranges;
mod relations;
mod terms;

pub use bounds::Bound;
pub use formulas::is_told_by;
pub use ranges::Range;
