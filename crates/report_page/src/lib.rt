//! Floor 7, command: the source and the goals of a report as one page of HTML.
#![tactic(auto)]

mod details;
mod laws;
mod lines;
mod markup;
mod table;
mod tags;
mod whole;

pub use laws::{page_is_read_back, source_is_whole, text_is_harmless};
pub use whole::page;
