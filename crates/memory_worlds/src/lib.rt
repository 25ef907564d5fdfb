//! Floor 5, goals: the words of the walk over steps with memories and a table of blocks, in code: worlds, fresh names, joins, changes, blocks that are made and
//! end, and ends of blocks and scopes of a program.
#![tactic(auto)]

mod ends;
mod joins;
mod names;
mod renewals;
mod tables;
mod terms;
mod values;
mod worlds;

pub use ends::{Exit, gather, put_back, put_back_all, saved, sort_exits};
pub use joins::join;
pub use names::{Base, Names, new_name};
pub use renewals::{Change, Fact, renew};
pub use tables::{end_blocks, grow, make_block, pass};
pub use terms::{alloc_of, count_of, grow_of};
pub use values::{named, set};
pub use worlds::{Mark, Slots, World, copy_known, copy_slots, know};
