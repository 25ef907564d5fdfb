// Functions and files of core programs with checks.
use crate::steps::Step;
use core_trees::FunctionVariable;
use program_trees::{Contract, Facts};
use wp_base::{CellKind, Line, List};

/// A function. What its body doesn't change is that of the core program.
#[derive(Drop)]
pub struct CheckedFunction<'a> {
    pub params: u32,
    pub variables: &'a List<FunctionVariable>,
    /// The kind of what it gives; a function without result has none.
    pub result: Option<CellKind>,
    pub contract: &'a Contract,
    pub body: List<Step<'a>>,
    pub end: Line,
}

/// A program, by the numbers of its functions.
#[derive(Drop)]
pub struct CheckedProgram<'a> {
    pub facts: &'a Facts,
    pub functions: List<Option<CheckedFunction<'a>>>,
}
