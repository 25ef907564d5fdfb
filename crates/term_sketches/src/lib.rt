//! Floor 6, prover: terms and formulas drawn with slots for what a store holds, and put into it.
#![tactic(auto)]

mod draw;
mod make;
mod sketch;

pub use draw::{
    all_of, and_of, at_most, equal, equivalent, less, not_of, number, operation, or_of, over,
    over_all, relation, slot,
};
pub use make::{make_all, make_sketch};
pub use sketch::{Draft, Sketch};
