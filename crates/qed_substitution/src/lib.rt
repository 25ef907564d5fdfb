//! Floor 4, logic: a term put in the free places of a name.
#![tactic(auto)]

mod build;
mod clear;
mod free;
mod laws;
mod replace;

pub use build::quantify;
pub use clear::may_replace;
pub use free::is_free;
pub use laws::replacing_keeps_meaning;
pub use replace::replace_in_formula;
