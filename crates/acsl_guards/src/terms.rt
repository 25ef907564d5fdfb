// What stands anywhere in a term (ACSL 2.2). What is still to be looked at is a list, so the stack doesn't grow with the term.
ghost use Rattle.std.specs.Prelude.{◌≡◌, ◌++◌, IfOk, OnOk, map};
ghost use Rattle.std.specs.List.{list_any};
ghost use Rattle.c_syntax.specs.View.{view_term, view_var};
ghost use Rattle.acsl_guards.specs.Mentions as spec;
ghost use Rattle.acsl_guards.specs.Parts.{term_parts, terms_in};

use crate::gather::{put, put_each, put_three, put_two};
use crate::names::{is_one_of, same};
use c_syntax::{Term, TermShape, VarDecl};
use std::alloc::Global;
use wp_base::{List, NoMemory, Str};

// Puts the terms that a term holds behind what is still to be looked at.
#[tactic(auto, using(crate::proofs::TermParts::part_laws))]
fn put_parts<'a>(left: &mut Vec<&'a Term>, term: &'a Term) -> Result<(), NoMemory>
    ensures { OnOk result (terms_in left.new.items ≡ terms_in left.old.items ++ term_parts (view_term term.now)) }
{
    match term.node.look() {
        TermShape::Leaf(_) => Ok(()),
        TermShape::One(_, of) => put(left, of.get()),
        TermShape::Two(_, first, second) => put_two(left, first.get(), second.get()),
        TermShape::Cond(test, first, second) => put_three(
            left,
            test.get(),
            first.get(),
            second.get(),
        ),
        TermShape::Call(_, args) => put_each(left, args),
    }
}

/// Whether one of these binders stands in a term.
#[tactic(auto, using(crate::proofs::Searching::turns))]
pub(crate) fn holds_one(alloc: Global, binders: &[VarDecl], term: &Term) -> Result<bool, NoMemory>
    ensures { IfOk result (λ found. found ≡ spec.holds_one (spec.names_of (map view_var binders.now)) (view_term term.now)) }
{
    let mut left = Vec::new(alloc);
    put(&mut left, term)?;
    while let Some(part) = left.pop() {
        if is_one_of(binders, part) {
            return Ok(true);
        }
        put_parts(&mut left, part)?;
    }
    Ok(false)
}

// Whether a term is a call of this function.
#[tactic(auto, using(c_syntax::proofs::Equations::term_laws))]
fn is_call(name: &Str, term: &Term) -> bool
    ensures { result ≡ spec.is_call name.now (view_term term.now) }
{
    match term.node.look() {
        TermShape::Call(called, _) => same(name, called),
        TermShape::Leaf(_) => false,
        TermShape::One(_, _) => false,
        TermShape::Two(_, _, _) => false,
        TermShape::Cond(_, _, _) => false,
    }
}

// Whether a call of this function stands in one of these terms.
#[tactic(auto, using(crate::proofs::Searching::turns))]
fn calls_among<'a>(alloc: Global, name: &Str, mut left: Vec<&'a Term>) -> Result<bool, NoMemory>
    ensures { IfOk result (λ found. found ≡ list_any (spec.calls name.now) (terms_in left.entry.items)) }
{
    while let Some(part) = left.pop() {
        if is_call(name, part) {
            return Ok(true);
        }
        put_parts(&mut left, part)?;
    }
    Ok(false)
}

/// Whether a call of this function stands in a term.
#[tactic(auto, using(crate::proofs::Searching::alone))]
pub fn calls_in_term(alloc: Global, name: &Str, term: &Term) -> Result<bool, NoMemory>
    ensures { IfOk result (λ found. found ≡ spec.calls name.now (view_term term.now)) }
{
    let mut left = Vec::new(alloc);
    put(&mut left, term)?;
    calls_among(alloc, name, left)
}

/// Whether a call of this function stands in one of these terms.
pub(crate) fn calls_in_terms(
    alloc: Global,
    name: &Str,
    terms: &List<Term>,
) -> Result<bool, NoMemory>
    ensures { IfOk result (λ found. found ≡ list_any (spec.calls name.now) (map view_term terms.now)) }
{
    let mut left = Vec::new(alloc);
    put_each(&mut left, terms)?;
    calls_among(alloc, name, left)
}
