// The names behind `&` in terms (ACSL 2.2).
ghost use Rattle.std.specs.Prelude.{◌≡◌, ◌++◌, IfOk, OnOk, map};
ghost use Rattle.std.specs.Option.{option_copied, option_to_list};
ghost use Rattle.c_syntax.specs.View.{view_term};
ghost use Rattle.c_taken.specs.Addressed as spec;
ghost use Rattle.c_taken.specs.Pieces.{pointed, term_own, term_parts, terms_in};

use crate::exprs::{behind, names_in_type};
use crate::gather::{put, put_each, put_name, put_names, put_three, put_two};
use c_syntax::{Term, TermNode, TermOne, TermShape, UnOp};
use std::alloc::Global;
use wp_base::{List, NoMemory, Str};

// The name that a term is, if it is one.
#[tactic(auto, using(c_syntax::proofs::Equations::term_laws))]
fn name_of(term: &Term) -> Option<&Str>
    ensures { option_copied result ≡ spec.term_name_of (view_term term.now) }
{
    match &term.node {
        TermNode::Name(name) => Some(name),
        TermNode::Number(_) => None,
        TermNode::Char(_) => None,
        TermNode::Unary(_, _) => None,
        TermNode::Binary(_, _, _) => None,
        TermNode::Cond(_, _, _) => None,
        TermNode::Call(_, _) => None,
        TermNode::Index(_, _) => None,
        TermNode::Field {
            of: _,
            name: _,
            arrow: _,
        } => None,
        TermNode::Cast(_, _) => None,
        TermNode::Result => None,
        TermNode::Old(_) => None,
        TermNode::At(_, _) => None,
        TermNode::Null => None,
        TermNode::Range(_, _) => None,
    }
}

// The name behind an operator and before a term, where the operator is `&` and the term a name.
fn name_behind<'a>(alloc: Global, op: UnOp, of: &'a Term) -> Result<Vec<&'a Str>, NoMemory>
    ensures { IfOk result (λ names. pointed names.items ≡ option_to_list (spec.behind op (spec.term_name_of (view_term of.now)))) }
{
    let mut names = Vec::new(alloc);
    put_name(&mut names, behind(op, name_of(of)))?;
    Ok(names)
}

// The names that a term has beside those of the terms in it.
#[tactic(auto, using(crate::proofs::TermShapes::own_laws))]
fn own_names(alloc: Global, term: &Term) -> Result<Vec<&Str>, NoMemory>
    ensures { IfOk result (λ names. pointed names.items ≡ term_own (view_term term.now)) }
{
    match term.node.look() {
        TermShape::One(TermOne::Unary(op), of) => name_behind(alloc, op, of.get()),
        TermShape::One(TermOne::Cast(ty), _) => names_in_type(alloc, ty),
        TermShape::One(TermOne::Field { name: _, arrow: _ }, _) => Ok(Vec::new(alloc)),
        TermShape::One(TermOne::Old, _) => Ok(Vec::new(alloc)),
        TermShape::One(TermOne::At(_), _) => Ok(Vec::new(alloc)),
        TermShape::Leaf(_) => Ok(Vec::new(alloc)),
        TermShape::Two(_, _, _) => Ok(Vec::new(alloc)),
        TermShape::Cond(_, _, _) => Ok(Vec::new(alloc)),
        TermShape::Call(_, _) => Ok(Vec::new(alloc)),
    }
}

// Puts the terms that a term holds behind what is still to be looked at.
#[tactic(auto, using(crate::proofs::TermShapes::part_laws))]
fn put_parts<'a>(left: &mut Vec<&'a Term>, term: &'a Term) -> Result<(), NoMemory>
    ensures { OnOk result (terms_in left.new.items ≡ terms_in left.old.items ++ term_parts (view_term term.now)) }
{
    match term.node.look() {
        TermShape::Leaf(_) => Ok(()),
        TermShape::One(_, of) => put(left, of.get()),
        TermShape::Two(_, first, second) => put_two(left, first.get(), second.get()),
        TermShape::Cond(test, first, second) => put_three(
            left,
            test.get(),
            first.get(),
            second.get(),
        ),
        TermShape::Call(_, args) => put_each(left, args),
    }
}

// The names of all these terms.
#[tactic(auto, using(crate::proofs::Gathering::term_turns))]
fn names_in<'a>(alloc: Global, mut left: Vec<&'a Term>) -> Result<Vec<&'a Str>, NoMemory>
    ensures { IfOk result (λ names. pointed names.items ≡ spec.last_first spec.term_addressed (terms_in left.entry.items)) }
{
    let mut names = Vec::new(alloc);
    while let Some(term) = left.pop() {
        put_names(&mut names, own_names(alloc, term)?)?;
        put_parts(&mut left, term)?;
    }
    Ok(names)
}

/// The names behind `&` in a term.
pub(crate) fn names_in_term(alloc: Global, term: &Term) -> Result<Vec<&Str>, NoMemory>
    ensures { IfOk result (λ names. pointed names.items ≡ spec.term_addressed (view_term term.now)) }
{
    let mut left = Vec::new(alloc);
    put(&mut left, term)?;
    names_in(alloc, left)
}

/// The same of all these.
pub(crate) fn names_in_terms(alloc: Global, terms: &List<Term>) -> Result<Vec<&Str>, NoMemory>
    ensures { IfOk result (λ names. pointed names.items ≡ spec.last_first spec.term_addressed (map view_term terms.now)) }
{
    let mut left = Vec::new(alloc);
    put_each(&mut left, terms)?;
    names_in(alloc, left)
}
