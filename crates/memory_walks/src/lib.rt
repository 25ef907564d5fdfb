//! Floor 5, goals: walks over steps with memories and a table of blocks as calls in a row: what each step does to a world in memory, with its goals passed on
//! as they are met.
#![tactic(auto)]

mod arms;
mod asks;
mod blocks;
mod sinks;
mod states;

pub use arms::{Arm, Fork, begin_arms, meet, turn_back};
pub use asks::ask;
pub use blocks::{begin_block, begin_scope, end_block, end_scope};
pub use sinks::{Claimed, Collector, GoalSink, Place};
pub use states::{State, change, end, forget, grow, know, leave, make, remember, set};
