//! Floor 6, prover: the instances of the `forall`s of a branch by the triggers in their bodies.
#![tactic(auto)]

mod accesses;
mod asked;
mod by_calls;
mod calls;
mod foralls;
mod nodes;

pub use asked::{asked_terms, put_trigger_blocks};
pub use calls::{IdCall, call_at, calls_in};
pub use foralls::{forall_formulas, given_instances};
