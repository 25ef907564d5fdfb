//! Floor 6, prover: which terms of a branch are same, by the classes of their places.
#![tactic(auto)]

mod classes;
mod laws;

pub use classes::{TermClasses, same, term_classes};
pub use laws::classes_stay;
