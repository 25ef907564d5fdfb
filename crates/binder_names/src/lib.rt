//! Floor 5, goals: the names of the binders of a file's annotations, as they are spelled. Definitions and a law.
#![tactic(auto)]

mod laws;

pub use laws::names_fit;
