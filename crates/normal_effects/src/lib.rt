//! Floor 5, goals: what an effect in an expression becomes, once what comes first in its operands is done.
#![tactic(auto)]

mod assigned;
mod builds;
mod calls;
mod effects;
mod postfix;

pub use assigned::push_store;
pub use builds::{in_front, updated};
pub use calls::{called_from, put_sent};
pub use effects::{effect_made_from, effect_sent_from};
