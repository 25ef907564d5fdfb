//! Floor 5, goals: the walk of a loop: what is asked and known up to the head of a turn, and what is asked where a pass ends.
#![tactic(auto)]

mod changes;
mod ends;
mod heads;
mod inside;
mod loops;
mod marks;
mod points;
mod sets;

pub use loops::{enter_loop, leave_loop};
pub use points::inner_point;
