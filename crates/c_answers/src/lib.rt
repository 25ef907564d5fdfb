//! Floor 3, program: what typing answers: a typed form, or the first fault in the order of the text.
#![tactic(auto)]

mod answers;
mod laws;

pub use answers::refused;
pub use laws::faults_come_in_order;
