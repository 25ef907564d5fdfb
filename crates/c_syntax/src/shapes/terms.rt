// Terms by what they hold (ACSL 2.2).
ghost use Rattle.std.specs.Prelude.{◌≡◌};
ghost use Rattle.c_syntax.specs.TermShapes.{term_whole};

use crate::annot::{Term, TermNode};
use crate::expr::{BinOp, CType, UnOp};
use crate::token::Token;
use wp_base::{Boxed, List, Str};

/// A term in which there is no other one.
#[derive(Clone, Copy)]
pub enum TermLeaf<'a> {
    Number(&'a Token),
    Char(i128),
    Name(&'a Str),
    Result,
    Null,
}

/// What is made of one term.
#[derive(Clone, Copy)]
pub enum TermOne<'a> {
    Unary(UnOp),
    /// `.` or `->`.
    Field { name: &'a Str, arrow: bool },
    Cast(&'a CType),
    Old,
    /// `\at`, with its label.
    At(&'a Str),
}

/// What is made of two terms.
#[derive(Clone, Copy)]
pub enum TermTwo {
    Binary(BinOp),
    Index,
    Range,
}

/// A term by what it holds.
pub enum TermShape<'a> {
    Leaf(TermLeaf<'a>),
    One(TermOne<'a>, &'a Boxed<Term>),
    Two(TermTwo, &'a Boxed<Term>, &'a Boxed<Term>),
    Cond(&'a Boxed<Term>, &'a Boxed<Term>, &'a Boxed<Term>),
    Call(&'a Str, &'a List<Term>),
}

impl TermNode {
    /// What this term holds.
    pub fn look(&self) -> TermShape<'_>
        ensures { self.now ≡ term_whole result }
    {
        match self {
            TermNode::Number(token) => TermShape::Leaf(TermLeaf::Number(token)),
            TermNode::Char(value) => TermShape::Leaf(TermLeaf::Char(*value)),
            TermNode::Name(name) => TermShape::Leaf(TermLeaf::Name(name)),
            TermNode::Unary(op, of) => TermShape::One(TermOne::Unary(*op), of),
            TermNode::Binary(op, left, right) => TermShape::Two(TermTwo::Binary(*op), left, right),
            TermNode::Cond(test, left, right) => TermShape::Cond(test, left, right),
            TermNode::Call(name, args) => TermShape::Call(name, args),
            TermNode::Index(of, at) => TermShape::Two(TermTwo::Index, of, at),
            TermNode::Field { of, name, arrow } => TermShape::One(
                TermOne::Field {
                    name,
                    arrow: *arrow,
                },
                of,
            ),
            TermNode::Cast(ty, of) => TermShape::One(TermOne::Cast(ty), of),
            TermNode::Result => TermShape::Leaf(TermLeaf::Result),
            TermNode::Old(of) => TermShape::One(TermOne::Old, of),
            TermNode::At(of, label) => TermShape::One(TermOne::At(label), of),
            TermNode::Null => TermShape::Leaf(TermLeaf::Null),
            TermNode::Range(low, high) => TermShape::Two(TermTwo::Range, low, high),
        }
    }
}
