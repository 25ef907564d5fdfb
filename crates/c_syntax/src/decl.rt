// Declarations (C11 6.7, 6.9; ACSL 2.6).

use crate::annot::{Contract, Pred, Term};
use crate::expr::{CType, Expr};
use crate::stmt::Stmt;
use wp_base::{Line, List, Str};

/// A declared name: a variable, parameter, field, enumerator, typedef name or binder.
#[derive(Drop)]
pub struct VarDecl {
    pub name: Str,
    pub ty: CType,
    pub init: Option<Expr>,
    pub line: Line,
}

#[derive(Drop)]
pub struct StructDecl {
    pub name: Str,
    pub fields: List<VarDecl>,
    pub line: Line,
}

#[derive(Drop)]
pub struct EnumDecl {
    pub name: Option<Str>,
    pub items: List<VarDecl>,
    pub line: Line,
}

/// A function, with its contract; one without body is a prototype. `end` is the line of its last token.
#[derive(Drop)]
pub struct Function {
    pub name: Str,
    pub result: CType,
    pub params: List<VarDecl>,
    pub contract: Contract,
    pub body: Option<Stmt>,
    pub line: Line,
    pub end: Line,
}

/// A definition of a predicate, which has no result, or of a logic function (ACSL 2.6.1).
#[derive(Drop)]
pub struct LogicDecl {
    pub name: Str,
    pub result: Option<CType>,
    pub params: List<VarDecl>,
    pub body: LogicBody,
    pub line: Line,
}

#[derive(Drop)]
pub enum LogicBody {
    Term(Term),
    Pred(Pred),
}

#[derive(Drop)]
pub enum Decl {
    Struct(StructDecl),
    Enum(EnumDecl),
    Typedef(VarDecl),
    Globals(List<VarDecl>),
    Function(Function),
    Logic(LogicDecl),
}

/// The declarations of a text, in order.
#[derive(Drop)]
pub struct Program {
    pub decls: List<Decl>,
}
