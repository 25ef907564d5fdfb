//! Floor 5, goals: what a walk asks of the text of a file with logic functions that call themselves.
#![tactic(auto)]

mod laws;
mod texts;

pub use laws::texts_are_of_files;
pub use texts::LogicTexts;
