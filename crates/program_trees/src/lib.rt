//! Floor 5, goals: programs as spelled, and core programs, in memory.
#![tactic(auto)]

mod contracts;
mod files;
mod stmts;

pub use contracts::{Behavior, Contract, Together};
pub use files::{CoreFunction, CoreProgram, Facts, Function, Program};
pub use stmts::{Stmt, Turns};
