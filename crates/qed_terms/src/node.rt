// A term or a formula, as a head over kids.
ghost use Rattle.std.specs.Prelude.{◌≡◌, ◌<◌, length, map, slice_index_or, IfOk};
ghost use Rattle.qed_terms.specs.Tree.{head_of, true_tree};
ghost use Rattle.qed_terms.specs.Order.{back_in, name_in, number_in, rank, starts};
ghost use Rattle.qed_terms.specs.View.{formula_tree, term_tree};
ghost use Rattle.qed_terms.specs.Nodes.{kids_of, node_tree};

use crate::head::Head;
use crate::keys::sort_place;
use crate::term::{Formula, Term};
use std::alloc::Global;
use wp_base::{List, NoMemory};

/// A term or a formula by reference, so that a walk sees a head and its kids.
#[derive(Clone, Copy)]
pub enum Node<'a> {
    Term(&'a Term),
    Formula(&'a Formula),
}

#[tactic(auto, using(crate::proofs::Kids::mapped))]
fn term_at(terms: &List<Term>, at: usize) -> Node<'_>
    requires { at < length terms.now }
    ensures { node_tree result ≡ slice_index_or (map term_tree terms.now) at true_tree }
{
    Node::Term(&terms.as_slice()[at])
}

#[tactic(auto, using(crate::proofs::Kids::mapped))]
fn formula_at(formulas: &List<Formula>, at: usize) -> Node<'_>
    requires { at < length formulas.now }
    ensures { node_tree result ≡ slice_index_or (map formula_tree formulas.now) at true_tree }
{
    Node::Formula(&formulas.as_slice()[at])
}

impl<'a> Node<'a> {
    /// How many kids it has.
    #[tactic(auto, using(crate::proofs::Equations::tree_laws, crate::proofs::Kids::kid_laws))]
    pub fn kid_count(self) -> usize
        ensures { result ≡ length (kids_of (node_tree self.entry)) }
    {
        match self {
            Node::Term(term) => match term {
                Term::Num(_) => 0,
                Term::Var(_, _) => 0,
                Term::Op(_, kids) => kids.len(),
                Term::Ite(_, _, _) => 3,
                Term::App(_, kids) => kids.len(),
            },
            Node::Formula(formula) => match formula {
                Formula::True => 0,
                Formula::False => 0,
                Formula::Rel(_, kids) => kids.len(),
                Formula::Not(_) => 1,
                Formula::And(parts) => parts.len(),
                Formula::Or(parts) => parts.len(),
                Formula::Imp(_, _) => 2,
                Formula::Iff(_, _) => 2,
                Formula::Forall(_, _, _, _) => 3,
                Formula::Exists(_, _, _, _) => 3,
            },
        }
    }

    /// The kid at a place, from 0.
    #[tactic(auto, using(crate::proofs::Equations::tree_laws, crate::proofs::Kids::kid_laws))]
    pub fn kid(self, at: usize) -> Node<'a>
        requires { at < length (kids_of (node_tree self)) }
        ensures { node_tree result ≡ slice_index_or (kids_of (node_tree self.entry)) at true_tree }
    {
        match self {
            Node::Term(term) => match term {
                Term::Num(_) => unreachable!(),
                Term::Var(_, _) => unreachable!(),
                Term::Op(_, kids) => term_at(kids, at),
                Term::Ite(condition, left, right) => match at {
                    0 => Node::Formula(condition.get()),
                    1 => Node::Term(left.get()),
                    _ => Node::Term(right.get()),
                },
                Term::App(_, kids) => term_at(kids, at),
            },
            Node::Formula(formula) => match formula {
                Formula::True => unreachable!(),
                Formula::False => unreachable!(),
                Formula::Rel(_, kids) => term_at(kids, at),
                Formula::Not(part) => Node::Formula(part.get()),
                Formula::And(parts) => formula_at(parts, at),
                Formula::Or(parts) => formula_at(parts, at),
                Formula::Imp(left, right) => match at {
                    0 => Node::Formula(left.get()),
                    _ => Node::Formula(right.get()),
                },
                Formula::Iff(left, right) => match at {
                    0 => Node::Formula(left.get()),
                    _ => Node::Formula(right.get()),
                },
                Formula::Forall(_, low, high, body) => match at {
                    0 => Node::Term(low.get()),
                    1 => Node::Term(high.get()),
                    _ => Node::Formula(body.get()),
                },
                Formula::Exists(_, low, high, body) => match at {
                    0 => Node::Term(low.get()),
                    1 => Node::Term(high.get()),
                    _ => Node::Formula(body.get()),
                },
            },
        }
    }

    /// The place of its head in the order of heads.
    #[tactic(auto, using(crate::proofs::Equations::tree_laws))]
    pub(crate) fn rank(self) -> u8
        ensures { result ≡ rank (head_of (node_tree self.entry)) }
    {
        match self {
            Node::Term(term) => match term {
                Term::Num(_) => 0,
                Term::Var(_, _) => 1,
                Term::Op(op, _) => op.rank(),
                Term::Ite(_, _, _) => 15,
                Term::App(_, _) => 19,
            },
            Node::Formula(formula) => match formula {
                Formula::True => 27,
                Formula::False => 28,
                Formula::Rel(op, _) => op.rank(),
                Formula::Not(_) => 29,
                Formula::And(_) => 30,
                Formula::Or(_) => 31,
                Formula::Imp(_, _) => 32,
                Formula::Iff(_, _) => 33,
                Formula::Forall(_, _, _, _) => 34,
                Formula::Exists(_, _, _, _) => 35,
            },
        }
    }

    /// The number that stands before its kids.
    #[tactic(auto, using(crate::proofs::Equations::tree_laws))]
    pub(crate) fn number(self) -> i128
        ensures { result ≡ number_in (head_of (node_tree self.entry)) }
    {
        match self {
            Node::Term(term) => match term {
                Term::Num(value) => *value,
                Term::Var(_, _) => 0,
                Term::Op(op, _) => i128::from(op.number()),
                Term::Ite(_, _, _) => 0,
                Term::App(_, _) => 0,
            },
            Node::Formula(formula) => match formula {
                Formula::True => 0,
                Formula::False => 0,
                Formula::Rel(op, _) => i128::from(op.number()),
                Formula::Not(_) => 0,
                Formula::And(_) => 0,
                Formula::Or(_) => 0,
                Formula::Imp(_, _) => 0,
                Formula::Iff(_, _) => 0,
                Formula::Forall(_, _, _, _) => 0,
                Formula::Exists(_, _, _, _) => 0,
            },
        }
    }

    /// The name that stands before its kids.
    #[tactic(auto, using(crate::proofs::Equations::tree_laws))]
    pub(crate) fn name(self) -> &'a [u8]
        ensures { result.now ≡ name_in (head_of (node_tree self.entry)) }
    {
        match self {
            Node::Term(term) => match term {
                Term::Num(_) => &[],
                Term::Var(name, _) => name.bytes(),
                Term::Op(_, _) => &[],
                Term::Ite(_, _, _) => &[],
                Term::App(name, _) => name.bytes(),
            },
            Node::Formula(formula) => match formula {
                Formula::True => &[],
                Formula::False => &[],
                Formula::Rel(_, _) => &[],
                Formula::Not(_) => &[],
                Formula::And(_) => &[],
                Formula::Or(_) => &[],
                Formula::Imp(_, _) => &[],
                Formula::Iff(_, _) => &[],
                Formula::Forall(name, _, _, _) => name.bytes(),
                Formula::Exists(name, _, _, _) => name.bytes(),
            },
        }
    }

    /// The number that stands before the kid at a place.
    #[tactic(auto, using(crate::proofs::Equations::tree_laws))]
    pub(crate) fn start(self, at: usize) -> u8
        ensures { result ≡ slice_index_or (starts (head_of (node_tree self.entry))) at 0 }
    {
        match self {
            Node::Term(term) => match term {
                Term::Num(_) => 0,
                Term::Var(_, _) => 0,
                Term::Op(_, _) => 0,
                Term::Ite(_, _, _) => 0,
                Term::App(_, _) => 0,
            },
            Node::Formula(formula) => match formula {
                Formula::True => 0,
                Formula::False => 0,
                Formula::Rel(op, _) => op.start(at),
                Formula::Not(_) => 0,
                Formula::And(_) => 0,
                Formula::Or(_) => 0,
                Formula::Imp(_, _) => 0,
                Formula::Iff(_, _) => 0,
                Formula::Forall(_, _, _, _) => 0,
                Formula::Exists(_, _, _, _) => 0,
            },
        }
    }

    /// How many numbers stand after its kids, and the one at a place.
    #[tactic(auto, using(crate::proofs::Equations::tree_laws))]
    pub(crate) fn back_len(self) -> usize
        ensures { result ≡ length (back_in (head_of (node_tree self.entry))) }
    {
        match self {
            Node::Term(term) => match term {
                Term::Num(_) => 0,
                Term::Var(_, _) => 1,
                Term::Op(op, _) => op.back_len(),
                Term::Ite(_, _, _) => 0,
                Term::App(_, _) => 0,
            },
            Node::Formula(formula) => match formula {
                Formula::True => 0,
                Formula::False => 0,
                Formula::Rel(op, _) => op.back_len(),
                Formula::Not(_) => 0,
                Formula::And(_) => 0,
                Formula::Or(_) => 0,
                Formula::Imp(_, _) => 0,
                Formula::Iff(_, _) => 0,
                Formula::Forall(_, _, _, _) => 0,
                Formula::Exists(_, _, _, _) => 0,
            },
        }
    }

    #[tactic(auto, using(crate::proofs::Equations::tree_laws))]
    pub(crate) fn back(self, at: usize) -> u32
        ensures { result ≡ slice_index_or (back_in (head_of (node_tree self.entry))) at 0 }
    {
        match self {
            Node::Term(term) => match term {
                Term::Num(_) => 0,
                Term::Var(_, sort) => match at {
                    0 => u32::from(sort_place(*sort)),
                    _ => 0,
                },
                Term::Op(op, _) => op.back(at),
                Term::Ite(_, _, _) => 0,
                Term::App(_, _) => 0,
            },
            Node::Formula(formula) => match formula {
                Formula::True => 0,
                Formula::False => 0,
                Formula::Rel(op, _) => op.back(at),
                Formula::Not(_) => 0,
                Formula::And(_) => 0,
                Formula::Or(_) => 0,
                Formula::Imp(_, _) => 0,
                Formula::Iff(_, _) => 0,
                Formula::Forall(_, _, _, _) => 0,
                Formula::Exists(_, _, _, _) => 0,
            },
        }
    }

    /// A copy of its head.
    #[tactic(auto, using(crate::proofs::Equations::tree_laws))]
    pub(crate) fn head(self, alloc: Global) -> Result<Head, NoMemory>
        ensures { IfOk result (λ head. head ≡ head_of (node_tree self.entry)) }
    {
        match self {
            Node::Term(term) => match term {
                Term::Num(value) => Ok(Head::Num(*value)),
                Term::Var(name, sort) => Ok(Head::Var(name.copy(alloc)?, *sort)),
                Term::Op(op, _) => Ok(Head::Term(op.copy(alloc)?)),
                Term::Ite(_, _, _) => Ok(Head::Ite),
                Term::App(name, _) => Ok(Head::App(name.copy(alloc)?)),
            },
            Node::Formula(formula) => match formula {
                Formula::True => Ok(Head::True),
                Formula::False => Ok(Head::False),
                Formula::Rel(op, _) => Ok(Head::Form(op.copy(alloc)?)),
                Formula::Not(_) => Ok(Head::Not),
                Formula::And(_) => Ok(Head::And),
                Formula::Or(_) => Ok(Head::Or),
                Formula::Imp(_, _) => Ok(Head::Imp),
                Formula::Iff(_, _) => Ok(Head::Iff),
                Formula::Forall(name, _, _, _) => Ok(Head::Forall(name.copy(alloc)?)),
                Formula::Exists(name, _, _, _) => Ok(Head::Exists(name.copy(alloc)?)),
            },
        }
    }
}
