//! Floor 6, prover: forms and links over the classes of places, with numbers put in.
#![tactic(auto)]

mod forms;
mod limits;
mod numbers;

pub use forms::{link_of, opposite};
pub use numbers::class_numbers;
