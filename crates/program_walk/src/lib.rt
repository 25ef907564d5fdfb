//! Floor 5, goals: the walk over core programs with checks: the goals of their functions, passed on one at a time.
#![tactic(auto)]

mod branches;
mod scopes;
mod statements;
mod stores;
mod walks;

pub use branches::{FirstArm, Tested};
pub use walks::walk_steps;
