//! Floor 6, prover: the expansion of a formula into branches.
#![tactic(auto)]

mod disjuncts;
mod kinds;
mod laws;
mod rules;
mod sizes;
mod tasks;
mod turns;
mod walk;

pub use kinds::{Kind, first_of, has_kind};
pub use laws::{expansion_has_one_end, expansion_is_sound};
pub use rules::BranchRules;
pub use sizes::is_large;
pub use tasks::{IdTask, in_place, with_kids};
pub use turns::{Course, Turned, turn};
pub use walk::{Expanded, SplitEnd, expand, run, split_by};
