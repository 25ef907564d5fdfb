//! Floor 1, text: syntax as spelled: tokens, and the trees of declarations, expressions, statements and annotations.
#![tactic(auto)]

mod annot;
mod copies;
mod decl;
mod expr;
mod shapes;
mod stmt;
mod token;

pub use annot::{
    AssignsClause, Behavior, Clause, Contract, LoopAnnot, Measure, Names, Pred, PredNode, Term,
    TermNode,
};
pub use decl::{Decl, EnumDecl, Function, LogicBody, LogicDecl, Program, StructDecl, VarDecl};
pub use expr::{BinOp, CType, Expr, ExprNode, UnOp};
pub use shapes::{
    ExprLeaf, ExprOne, ExprShape, ExprTwo, PredLeaf, PredOne, PredShape, PredTwo, TermLeaf,
    TermOne, TermShape, TermTwo, TypeLeaf, TypeShape,
};
pub use stmt::{Stmt, StmtNode};
pub use token::{Base, Punct, Suffix, Token, TokenKind, Tokens, Word};
