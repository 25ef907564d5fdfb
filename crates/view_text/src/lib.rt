//! Floor 7, command: the view of a report as text.
#![tactic(auto)]

mod formula;
mod goals;
mod laws;
mod pieces;
mod refused;
mod table;
mod view;

pub use laws::source_is_whole;
pub use refused::refusal_view;
pub use view::text_view;
