//! Floor 3, program: typed programs, above expressions: statements, and files with all that they declare.
#![tactic(auto)]

mod stmt;
mod unit;

pub use stmt::{Declared, Stmt, StmtNode, Turns};
pub use unit::{Annotated, Body, Part, Typed};
