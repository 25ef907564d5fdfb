//! Floor 6, prover: the rows of a round of instances at one node.
#![tactic(auto)]

mod conditions;
mod conversions;
mod each;
mod memories;
mod operators;
mod quotients;
mod ranges;
mod tables;

pub use conditions::{arm_of_ite, order_of_unequal};
pub use conversions::cases_of_wrap;
pub use each::{NodeRow, at_each, instances_at};
pub use memories::{load, load_of_store};
pub use operators::{between, bounds_of_operator};
pub use quotients::cases_of_quotient;
pub use ranges::{Range, range_of};
pub use tables::{place_of_read, read_of_write};
