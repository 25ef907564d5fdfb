//! Floor 5, goals: typed expressions over plain integers. Laws.
#![tactic(auto)]

mod laws;

pub use laws::{example_fits, typed_give, typed_give_all, typed_store};
