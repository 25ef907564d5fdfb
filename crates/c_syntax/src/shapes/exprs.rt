// Expressions by what they hold (C11 6.5).
ghost use Rattle.std.specs.Prelude.{◌≡◌, List};
ghost use Rattle.c_syntax.specs.Copies.{IsCopy};
ghost use Rattle.c_syntax.specs.declared.expr.CType.{CType as ctype};
ghost use Rattle.c_syntax.specs.declared.expr.Expr.{Expr as expr};
ghost use Rattle.c_syntax.specs.declared.expr.ExprNode.{ExprNode as node};
ghost use Rattle.c_syntax.specs.ExprShapes.{expr_leaf, expr_one, expr_two, expr_whole};
ghost use Rattle.c_syntax.specs.declared.expr.ExprNode.TheVariants as variant;

use crate::copies::parts::{both, both_boxed, boxed};
use crate::expr::{BinOp, CType, Expr, ExprNode, UnOp};
use crate::token::Token;
use std::alloc::Global;
use wp_base::{Boxed, List, NoMemory, Str};

/// An expression in which there is no other one.
#[derive(Clone, Copy)]
pub enum ExprLeaf<'a> {
    Number(&'a Token),
    Char(i128),
    Name(&'a Str),
}

/// What is made of one expression.
#[derive(Clone, Copy)]
pub enum ExprOne<'a> {
    Unary(UnOp),
    /// `++` or `--`, before or behind its operand.
    Step { up: bool, prefix: bool },
    /// `.` or `->`.
    Field { name: &'a Str, arrow: bool },
}

/// What is made of two expressions.
#[derive(Clone, Copy)]
pub enum ExprTwo {
    Binary(BinOp),
    /// `=`, or with an operator that of a compound assignment.
    Assign(Option<BinOp>),
    Index,
}

/// An expression by what it holds.
pub enum ExprShape<'a> {
    Leaf(ExprLeaf<'a>),
    One(ExprOne<'a>, &'a Boxed<Expr>),
    Two(ExprTwo, &'a Boxed<Expr>, &'a Boxed<Expr>),
    Cond(&'a Boxed<Expr>, &'a Boxed<Expr>, &'a Boxed<Expr>),
    Call(&'a Str, &'a List<Expr>),
    Cast(&'a CType, &'a Boxed<Expr>),
    SizeOf(&'a CType),
}

impl ExprNode {
    /// What this expression holds.
    pub fn look(&self) -> ExprShape<'_>
        ensures { self.now ≡ expr_whole result }
    {
        match self {
            ExprNode::Number(token) => ExprShape::Leaf(ExprLeaf::Number(token)),
            ExprNode::Char(value) => ExprShape::Leaf(ExprLeaf::Char(*value)),
            ExprNode::Name(name) => ExprShape::Leaf(ExprLeaf::Name(name)),
            ExprNode::Unary(op, of) => ExprShape::One(ExprOne::Unary(*op), of),
            ExprNode::Binary(op, left, right) => ExprShape::Two(ExprTwo::Binary(*op), left, right),
            ExprNode::Cond(test, left, right) => ExprShape::Cond(test, left, right),
            ExprNode::Assign(op, place, value) => ExprShape::Two(
                ExprTwo::Assign(*op),
                place,
                value,
            ),
            ExprNode::Step { up, prefix, of } => ExprShape::One(
                ExprOne::Step {
                    up: *up,
                    prefix: *prefix,
                },
                of,
            ),
            ExprNode::Call(name, args) => ExprShape::Call(name, args),
            ExprNode::Index(of, at) => ExprShape::Two(ExprTwo::Index, of, at),
            ExprNode::Field { of, name, arrow } => ExprShape::One(
                ExprOne::Field {
                    name,
                    arrow: *arrow,
                },
                of,
            ),
            ExprNode::Cast(ty, of) => ExprShape::Cast(ty, of),
            ExprNode::SizeOf(ty) => ExprShape::SizeOf(ty),
        }
    }

    // The expression that this is, with copies of what it holds.
    pub(crate) fn leaf(alloc: Global, leaf: ExprLeaf<'_>) -> Result<ExprNode, NoMemory>
        ensures { IsCopy result (expr_leaf leaf.entry) }
    {
        match leaf {
            ExprLeaf::Number(token) => Ok(ExprNode::Number(token.copy(alloc)?)),
            ExprLeaf::Char(value) => Ok(ExprNode::Char(value)),
            ExprLeaf::Name(name) => Ok(ExprNode::Name(name.copy(alloc)?)),
        }
    }

    pub(crate) fn one(
        alloc: Global,
        head: ExprOne<'_>,
        of: Result<Expr, NoMemory>,
    ) -> Result<ExprNode, NoMemory>
        ensures { (a : expr) (whole : node) → whole ≡ expr_one head.entry a → IsCopy of a → IsCopy result whole }
    {
        let of = boxed(alloc, of);
        match head {
            ExprOne::Unary(op) => Ok(ExprNode::Unary(op, of?)),
            ExprOne::Step { up, prefix } => Ok(ExprNode::Step {
                up,
                prefix,
                of: of?,
            }),
            ExprOne::Field { name, arrow } => {
                let (of, name) = both(of, name.copy(alloc))?;
                Ok(ExprNode::Field { of, name, arrow })
            }
        }
    }

    pub(crate) fn two(
        alloc: Global,
        head: ExprTwo,
        left: Result<Expr, NoMemory>,
        right: Result<Expr, NoMemory>,
    ) -> Result<ExprNode, NoMemory>
        ensures { (a b : expr) (whole : node) → whole ≡ expr_two head a b → IsCopy left a → IsCopy right b → IsCopy result whole }
    {
        let (left, right) = both_boxed(alloc, left, right)?;
        Ok(match head {
            ExprTwo::Binary(op) => ExprNode::Binary(op, left, right),
            ExprTwo::Assign(op) => ExprNode::Assign(op, left, right),
            ExprTwo::Index => ExprNode::Index(left, right),
        })
    }

    pub(crate) fn cond(
        alloc: Global,
        test: Result<Expr, NoMemory>,
        left: Result<Expr, NoMemory>,
        right: Result<Expr, NoMemory>,
    ) -> Result<ExprNode, NoMemory>
        ensures { (a b c : expr) (whole : node) → whole ≡ variant.Cond a b c → IsCopy test a → IsCopy left b → IsCopy right c → IsCopy result whole }
    {
        let (test, (left, right)) = both(boxed(alloc, test), both_boxed(alloc, left, right))?;
        Ok(ExprNode::Cond(test, left, right))
    }

    pub(crate) fn call(
        alloc: Global,
        name: &Str,
        args: Result<List<Expr>, NoMemory>,
    ) -> Result<ExprNode, NoMemory>
        ensures { (bs : List expr) (whole : node) → whole ≡ variant.Call name.now bs → IsCopy args bs → IsCopy result whole }
    {
        let (name, args) = both(name.copy(alloc), args)?;
        Ok(ExprNode::Call(name, args))
    }

    pub(crate) fn cast(
        alloc: Global,
        ty: Result<CType, NoMemory>,
        of: Result<Expr, NoMemory>,
    ) -> Result<ExprNode, NoMemory>
        ensures { (t : ctype) (a : expr) (whole : node) → whole ≡ variant.Cast t a → IsCopy ty t → IsCopy of a → IsCopy result whole }
    {
        let (ty, of) = both(ty, boxed(alloc, of))?;
        Ok(ExprNode::Cast(ty, of))
    }

    pub(crate) fn size_of(ty: Result<CType, NoMemory>) -> Result<ExprNode, NoMemory>
        ensures { (t : ctype) (whole : node) → whole ≡ variant.SizeOf t → IsCopy ty t → IsCopy result whole }
    {
        Ok(ExprNode::SizeOf(ty?))
    }
}
