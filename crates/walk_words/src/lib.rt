//! Floor 5, goals: the words of the walk over steps in code: worlds, fresh names, joins, changes and ends of blocks and scopes.
#![tactic(auto)]

mod ends;
mod joins;
mod names;
mod renewals;
mod worlds;

pub use ends::{Exit, gather, put_back, put_back_all, sort_exits};
pub use joins::join;
pub use names::{named, new_name};
pub use renewals::{Change, renew};
pub use worlds::{World, copy_known, copy_slots, know, set};
