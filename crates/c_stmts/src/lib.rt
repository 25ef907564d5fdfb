//! Floor 3, program: statements with the types of their expressions, or the first fault in them.
#![tactic(auto)]

mod cases;
mod joined;
mod locals;
mod makers;
mod stmts;
mod values;

pub use locals::declare;
pub use stmts::body;
