//! Floor 3, program: the chains of comparisons that give binders their ranges, and definitions that call themselves, as spelled.
#![tactic(auto)]

mod chains;
mod gather;
mod laws;
mod names;
mod preds;
mod ranges;
mod recursion;
mod splits;
mod terms;

pub use laws::{all_in_ranges, guards_are_first, ranges_say_chains, some_in_ranges};
pub use preds::calls_in_pred;
pub use ranges::{Guard, guards, is_integer, is_range};
pub use recursion::{calls_itself, is_recursive_form, steps_down};
pub use terms::calls_in_term;
