//! Floor 6, prover: the row of a round of instances at a call of a recursive logic function.
#![tactic(auto)]

mod bodies;
mod cases;
mod each;
mod heads;
mod takers;

pub use bodies::placed_body;
pub use cases::cases_of_call;
pub use each::calls_at_each;
pub use takers::function_for;
