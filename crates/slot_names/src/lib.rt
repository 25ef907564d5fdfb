//! Floor 5, goals: the base names of the slots of a function.
#![tactic(auto)]

mod bases;
mod laws;
mod tests;

pub use bases::slot_bases;
pub use laws::bases_fit;
pub use tests::are_fit;
