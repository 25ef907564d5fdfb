// Functions and files (C11 6.9), as spelled and as core programs.
use crate::contracts::Contract;
use crate::stmts::Stmt;
use acsl_expand::Meant;
use c_kinds::Machdep;
use core_trees::{Core, FunctionVariable};
use wp_base::{CellKind, Line, List};

/// A function with its body. Its first variables are its parameters.
#[derive(Drop)]
pub struct Function<'a> {
    pub params: u32,
    pub variables: List<FunctionVariable>,
    /// The kind of what it gives; a function without result has none.
    pub result: Option<CellKind>,
    pub contract: Contract,
    pub body: List<Stmt<'a>>,
    /// The line of its closing brace.
    pub end: Line,
}

/// What a file says beside its bodies.
#[derive(Drop)]
pub struct Facts {
    pub model: Machdep,
    /// The variables of the file.
    pub globals: List<FunctionVariable>,
    /// The cells of each struct.
    pub structs: List<List<CellKind>>,
    /// What logic definitions stand for.
    pub definitions: List<Meant>,
    /// By the numbers of functions: the cluster of functions that call each other in which it is, if it calls itself by some way.
    pub clusters: List<Option<u32>>,
}

/// A program as spelled: its functions by their numbers, of which some have no body.
#[derive(Drop)]
pub struct Program<'a> {
    pub facts: Facts,
    pub functions: List<Option<Function<'a>>>,
}

/// A function of a core program. What its body doesn't change is that of the spelled function.
#[derive(Drop)]
pub struct CoreFunction<'a> {
    pub params: u32,
    pub variables: &'a List<FunctionVariable>,
    /// The kind of what it gives; a function without result has none.
    pub result: Option<CellKind>,
    pub contract: &'a Contract,
    pub body: List<Core>,
    pub end: Line,
}

/// A core program, by the numbers of its functions.
#[derive(Drop)]
pub struct CoreProgram<'a> {
    pub facts: &'a Facts,
    pub functions: List<Option<CoreFunction<'a>>>,
}
