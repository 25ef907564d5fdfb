//! Floor 4, logic: the text of goals, written and read back.
#![tactic(auto)]

mod answer;
mod around;
mod fronts;
mod kids;
mod laws;
mod layout;
mod leaves;
mod made;
mod read;
mod terms;
mod words;
mod write;

pub use answer::GoalText;
pub use laws::{text_determines_goal, through_text};
pub use read::read_goal;
pub use write::write_goal;
