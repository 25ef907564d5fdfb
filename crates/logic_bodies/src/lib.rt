//! Floor 5, goals: terms of the bodies of logic functions that call themselves (ACSL 2.6.3).
#![tactic(auto)]

mod bodies;
mod calls;
mod heads;
mod laws;
mod readings;
mod variables;

pub use bodies::body_term;
pub use laws::bodies_are_encoded;
pub use readings::BodyReading;
pub use variables::name_term;
