//! Floor 5, goals: what is read of a text, and names of a function's own variables.
#![tactic(auto)]

mod names;
mod temporaries;

pub use names::{first_names, names_of};
pub use temporaries::temporaries_in;
