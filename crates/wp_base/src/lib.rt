//! Floor 0, ground: base types of the verifier: texts, lists, boxes, want of memory, and the answers of the program.
#![tactic(auto)]

mod answers;
mod boxed;
mod kinds;
mod list;
mod memory;
mod text;

pub use answers::{Line, Refusal, Rule, Status, Stop};
pub use boxed::{Boxed, box_both, box_three};
pub use kinds::{CellKind, Kind, Layout};
pub use list::List;
pub use memory::NoMemory;
pub use text::Str;
