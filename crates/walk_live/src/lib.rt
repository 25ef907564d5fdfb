//! Floor 5, goals: which temporaries of a function are still used, told backwards, once for each list of statements.
#![tactic(auto)]

mod behind;
mod live;
mod sets;
mod singles;
mod uses;

pub use behind::{ArmSets, Behind, behind_all, in_arms, next_behind};
pub use live::{around, no_temporaries};
pub use sets::mark;
