//! Floor 5, goals: single statements of what an expression becomes, behind those that are there.
#![tactic(auto)]

mod choices;
mod pushes;
mod puts;
mod saves;
mod tests;

pub use choices::{branched, first_way, joined, put_first};
pub use pushes::{after, push, push_set};
pub use puts::{Put, push_put};
pub use saves::{no_value, save, save_if, temporary_like};
pub use tests::{push_flag, push_jump};
