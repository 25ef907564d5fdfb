//! Floor 5, goals: the setting of a file with logic functions that call themselves (ACSL 2.6.3).
#![tactic(auto)]

mod definitions;
mod forms;
mod functions;
mod orders;
mod parts;
mod takes;

pub use orders::{Order, order_of};
