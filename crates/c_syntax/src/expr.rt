// Expressions and types (C11 6.5, 6.7.2, 6.7.6, 6.7.7).

use crate::token::Token;
use wp_base::{Boxed, Kind, Line, List, Str};

/// The operators of one operand (C11 6.5.3.2, 6.5.3.3).
#[derive(Clone, Copy, PartialEq, Eq)]
pub enum UnOp {
    /// `&`
    AddressOf,
    /// `*`
    Deref,
    Plus,
    Minus,
    /// `~`
    BitNot,
    /// `!`
    Not,
}

/// The operators of two operands (C11 6.5.5 to 6.5.14).
#[derive(Clone, Copy, PartialEq, Eq)]
pub enum BinOp {
    Mul,
    Div,
    Rem,
    Add,
    Sub,
    Shl,
    Shr,
    Less,
    AtMost,
    Greater,
    AtLeast,
    Equal,
    NotEqual,
    BitAnd,
    BitXor,
    BitOr,
    And,
    Or,
}

/// A type as spelled.
#[cycle(expr)]
pub enum CType {
    Void,
    Kind(Kind),
    /// `integer`, in annotations alone (ACSL 2.2).
    Integer,
    Struct(Str),
    Enum(Str),
    /// A typedef name.
    Named(Str),
    Pointer(Boxed<CType>),
    /// So many elements of a type.
    Array(Boxed<CType>, Boxed<Expr>),
    Const(Boxed<CType>),
}

/// An expression, with the line of its token or operator.
#[cycle(expr)]
pub struct Expr {
    pub node: ExprNode,
    pub line: Line,
}

// Goes down the stars of a type by a loop, since these may be as many as there are tokens.
impl Drop for CType {
    #[cycle(expr_drop)]
    fn drop(mut self) {
        loop {
            match self {
                CType::Pointer(of) => self = of.into_inner(),
                CType::Array(of, _) => self = of.into_inner(),
                CType::Const(of) => self = of.into_inner(),
                CType::Struct(_) => return,
                CType::Enum(_) => return,
                CType::Named(_) => return,
                CType::Void => return,
                CType::Kind(_) => return,
                CType::Integer => return,
            }
        }
    }
}

// Goes down the operands on the left, and the values of assignments, by a loop, since these may be as many as there are tokens.
impl Drop for Expr {
    #[cycle(expr_drop)]
    fn drop(mut self) {
        loop {
            let Expr { node, line: _ } = self;
            match node {
                ExprNode::Binary(_, left, right) => {
                    drop(right);
                    self = left.into_inner();
                }
                ExprNode::Assign(_, to, value) => {
                    drop(to);
                    self = value.into_inner();
                }
                ExprNode::Index(of, at) => {
                    drop(at);
                    self = of.into_inner();
                }
                ExprNode::Field { of, name, arrow: _ } => {
                    drop(name);
                    self = of.into_inner();
                }
                ExprNode::Step {
                    up: _,
                    prefix: _,
                    of,
                } => self = of.into_inner(),
                ExprNode::Unary(_, of) => self = of.into_inner(),
                ExprNode::Cast(ty, of) => {
                    drop(ty);
                    self = of.into_inner();
                }
                ExprNode::Cond(test, first, second) => {
                    drop(test);
                    drop(first);
                    self = second.into_inner();
                }
                ExprNode::Number(token) => return drop(token),
                ExprNode::Char(_) => return,
                ExprNode::Name(name) => return drop(name),
                ExprNode::Call(name, args) => {
                    drop(name);
                    return drop(args);
                }
                ExprNode::SizeOf(ty) => return drop(ty),
            }
        }
    }
}

#[derive(Drop)]
#[cycle(expr)]
pub enum ExprNode {
    Number(Token),
    Char(i128),
    Name(Str),
    Unary(UnOp, Boxed<Expr>),
    Binary(BinOp, Boxed<Expr>, Boxed<Expr>),
    Cond(Boxed<Expr>, Boxed<Expr>, Boxed<Expr>),
    /// `=`, or with an operator that of a compound assignment.
    Assign(Option<BinOp>, Boxed<Expr>, Boxed<Expr>),
    /// `++` or `--`, before or behind its operand.
    Step {
        up: bool,
        prefix: bool,
        of: Boxed<Expr>,
    },
    Call(Str, List<Expr>),
    Index(Boxed<Expr>, Boxed<Expr>),
    /// `.` or `->`.
    Field {
        of: Boxed<Expr>,
        name: Str,
        arrow: bool,
    },
    Cast(CType, Boxed<Expr>),
    SizeOf(CType),
}
