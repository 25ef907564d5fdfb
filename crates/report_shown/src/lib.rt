//! Floor 7, command: which goals of a report are shown, and where they stand in the source.
#![tactic(auto)]

mod cuts;
mod laws;
mod names;
mod pieces;
mod source;
mod wanted;

pub use cuts::runs;
pub use laws::lines_are_the_text;
pub use names::{checks_of, functions_of, is_among};
pub use pieces::{put, put_number};
pub use source::{by_line, elsewhere, lines};
pub use wanted::{Only, Wanted, all_proved, shown};
