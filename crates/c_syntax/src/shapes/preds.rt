// Predicates by what they hold (ACSL 2.2).
ghost use Rattle.std.specs.Prelude.{◌≡◌};
ghost use Rattle.c_syntax.specs.PredShapes.{pred_whole};

use crate::annot::{Pred, PredNode, Term};
use crate::decl::VarDecl;
use crate::expr::BinOp;
use wp_base::{Boxed, List, Str};

/// A predicate in which there is no other one.
#[derive(Clone, Copy)]
pub enum PredLeaf<'a> {
    True,
    False,
    /// The terms of a chain of comparisons, and what stands between them.
    Chain(&'a List<Term>, &'a List<BinOp>),
    Valid(&'a Boxed<Term>),
    ValidRead(&'a Boxed<Term>),
    Separated(&'a List<Term>),
    Call(&'a Str, &'a List<Term>),
}

/// What is made of one predicate.
#[derive(Clone, Copy)]
pub enum PredOne<'a> {
    Not,
    Old,
    Let(&'a Str, &'a Boxed<Term>),
    Forall(&'a List<VarDecl>),
    Exists(&'a List<VarDecl>),
}

/// What stands between two predicates.
#[derive(Clone, Copy)]
pub enum PredTwo {
    And,
    Xor,
    Or,
    Implies,
    Iff,
}

/// A predicate by what it holds.
pub enum PredShape<'a> {
    Leaf(PredLeaf<'a>),
    One(PredOne<'a>, &'a Boxed<Pred>),
    Two(PredTwo, &'a Boxed<Pred>, &'a Boxed<Pred>),
    Cond(&'a Boxed<Pred>, &'a Boxed<Pred>, &'a Boxed<Pred>),
}

impl PredNode {
    /// What this predicate holds.
    pub fn look(&self) -> PredShape<'_>
        ensures { self.now ≡ pred_whole result }
    {
        match self {
            PredNode::True => PredShape::Leaf(PredLeaf::True),
            PredNode::False => PredShape::Leaf(PredLeaf::False),
            PredNode::Not(part) => PredShape::One(PredOne::Not, part),
            PredNode::And(left, right) => PredShape::Two(PredTwo::And, left, right),
            PredNode::Xor(left, right) => PredShape::Two(PredTwo::Xor, left, right),
            PredNode::Or(left, right) => PredShape::Two(PredTwo::Or, left, right),
            PredNode::Implies(left, right) => PredShape::Two(PredTwo::Implies, left, right),
            PredNode::Iff(left, right) => PredShape::Two(PredTwo::Iff, left, right),
            PredNode::Cond(test, left, right) => PredShape::Cond(test, left, right),
            PredNode::Let(name, value, part) => PredShape::One(PredOne::Let(name, value), part),
            PredNode::Chain(terms, ops) => PredShape::Leaf(PredLeaf::Chain(terms, ops)),
            PredNode::Forall(binders, part) => PredShape::One(PredOne::Forall(binders), part),
            PredNode::Exists(binders, part) => PredShape::One(PredOne::Exists(binders), part),
            PredNode::Valid(pointer) => PredShape::Leaf(PredLeaf::Valid(pointer)),
            PredNode::ValidRead(pointer) => PredShape::Leaf(PredLeaf::ValidRead(pointer)),
            PredNode::Separated(pointers) => PredShape::Leaf(PredLeaf::Separated(pointers)),
            PredNode::Old(part) => PredShape::One(PredOne::Old, part),
            PredNode::Call(name, args) => PredShape::Leaf(PredLeaf::Call(name, args)),
        }
    }
}
