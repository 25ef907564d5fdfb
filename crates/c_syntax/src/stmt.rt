// Statements (C11 6.8).

use crate::annot::{LoopAnnot, Pred};
use crate::decl::VarDecl;
use crate::expr::Expr;
use wp_base::{Boxed, Line, List};

/// A statement, with the line of its keyword.
#[derive(Drop)]
#[cycle(stmt)]
pub struct Stmt {
    pub node: StmtNode,
    pub line: Line,
}

#[derive(Drop)]
#[cycle(stmt)]
pub enum StmtNode {
    Empty,
    Expr(Expr),
    Block(List<Stmt>),
    /// Variables that are declared in a block.
    Locals(List<VarDecl>),
    If(Expr, Boxed<Stmt>, Option<Boxed<Stmt>>),
    While(LoopAnnot, Expr, Boxed<Stmt>),
    Do(LoopAnnot, Boxed<Stmt>, Expr),
    /// What is done first is a statement: `Empty`, `Expr` or `Locals`.
    For(LoopAnnot, Boxed<Stmt>, Option<Expr>, Option<Expr>, Boxed<Stmt>),
    Switch(Expr, List<Stmt>),
    Case(Expr),
    Default,
    Break,
    Continue,
    Return(Option<Expr>),
    Assert(Pred),
}
