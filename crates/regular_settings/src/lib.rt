//! Floor 4, logic: whether a setting's functions are as a regular one asks (ACSL 2.6.3).
#![tactic(auto)]

mod bodies;
mod laws;
mod params;
mod settings;
mod uses;

pub use laws::shaped_is_regular;
pub use params::{all_differ, is_param};
pub use settings::are_shaped;
