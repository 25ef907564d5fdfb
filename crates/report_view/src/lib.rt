//! Floor 7, command: the answer to a source and its report, and the top call of `wpview`.
#![tactic(auto)]

mod answers;
mod names;
mod top;

pub use answers::{Answer, answer_to};
pub use top::{Ended, view_main};
