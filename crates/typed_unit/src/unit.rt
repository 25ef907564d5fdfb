// Typed files (C11 6.9).

use crate::stmt::Stmt;
use c_kinds::Machdep;
use c_scopes::{File, Object};
use c_syntax::{Contract, LogicDecl};
use typed_prog::Value;
use wp_base::{Line, List};

/// The body of a function.
#[derive(Drop)]
pub struct Body<'a> {
    /// The function's number in the file.
    pub function: u32,
    /// Its parameters, and then its locals in the order of their declarations.
    pub locals: List<Object>,
    /// Which of these are plain: no array, no struct, and their address is never taken.
    pub plain: List<bool>,
    pub stmt: Stmt<'a>,
    /// The line of its name, and that of its last token.
    pub line: Line,
    pub end: Line,
}

/// A declaration that may hold annotations, which are those of the program as spelled.
#[derive(Drop)]
pub enum Annotated<'a> {
    /// A declaration of the function with this number: its own parameters, its contract, and whether its body stands here.
    Function(u32, List<Object>, &'a Contract, bool),
    /// The definition of a predicate or of a logic function.
    Logic(&'a LogicDecl),
}

/// A declaration with annotations at its place: how many ordinary names and how many tags the file has declared before it.
#[derive(Drop)]
pub struct Part<'a> {
    pub names: u32,
    pub tags: u32,
    pub decl: Annotated<'a>,
}

/// A file whose names are numbers, with the type of each expression.
#[derive(Drop)]
pub struct Typed<'a> {
    pub model: Machdep,
    /// What the file declares.
    pub file: File,
    /// Which variables of the file are plain, by their numbers.
    pub plain: List<bool>,
    /// The initialisers of the variables of the file, by their numbers.
    pub inits: List<Option<Value>>,
    /// The bodies of functions, in the order of the text.
    pub bodies: List<Body<'a>>,
    /// The declarations with annotations, in the order of the text.
    pub parts: List<Part<'a>>,
}
