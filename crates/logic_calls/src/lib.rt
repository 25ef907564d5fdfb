//! Floor 5, goals: how logic functions that call themselves are called (ACSL 2.6.3).
#![tactic(auto)]

mod calls;
mod copies;
mod fits;
mod globals;
mod names;
mod params;
mod reading;

pub use calls::told;
pub use copies::copy_called;
pub use fits::{called_fits, takes_integers};
pub use globals::file_globals;
pub use names::{FileNames, Spelling, are_apart};
pub use params::params_in;
