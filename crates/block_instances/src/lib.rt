//! Floor 6, prover: what is asked of a block of a table, its answer by a layout, and the row at a table with one more block.
#![tactic(auto)]

mod layouts;
mod questions;
mod tables;

pub use layouts::layout_answer;
pub use questions::{Asked, Query, answers, asked_at, question};
pub use tables::{answer_of_alloc, count};
