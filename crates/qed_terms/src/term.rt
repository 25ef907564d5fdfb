// Terms, formulas and goals as trees in memory.

use crate::head::{FormOp, Sort, TermOp};
use wp_base::{Boxed, List, Str};

/// A term: an integer of any size, a memory or a table.
#[cycle(terms)]
#[derive(Drop)]
pub enum Term {
    Num(i128),
    Var(Str, Sort),
    Op(TermOp, List<Term>),
    Ite(Boxed<Formula>, Boxed<Term>, Boxed<Term>),
    App(Str, List<Term>),
}

/// A formula, which is true or false. A quantifier has the name that it binds, the least value of it,
/// and the value below which it stays.
#[cycle(terms)]
#[derive(Drop)]
pub enum Formula {
    True,
    False,
    Rel(FormOp, List<Term>),
    Not(Boxed<Formula>),
    And(List<Formula>),
    Or(List<Formula>),
    Imp(Boxed<Formula>, Boxed<Formula>),
    Iff(Boxed<Formula>, Boxed<Formula>),
    Forall(Str, Boxed<Term>, Boxed<Term>, Boxed<Formula>),
    Exists(Str, Boxed<Term>, Boxed<Term>, Boxed<Formula>),
}

/// A goal: under the known facts the check holds.
#[derive(Drop)]
pub struct Goal {
    pub known: List<Formula>,
    pub check: Formula,
}
