// The rule on calls: up to the cut a call is the base case of its function.
ghost use Rattle.std.specs.Prelude.{◌≡◌, true, map, option_map, IfOk};
ghost use Rattle.qed_terms.specs.Setting.{kids_match, sort_of};
ghost use Rattle.qed_terms.specs.Tree.{trees_of};
ghost use Rattle.qed_terms.specs.View.{term_tree, view_logic};
ghost use Rattle.qed_numbers.specs.Numbers.{number_at};
ghost use Rattle.qed_calls.specs.Calls.{base_at, base_of, fits_call, is_at_most, kid_number};
ghost use Rattle.qed_calls.specs.View.{params};

use crate::arguments::{is_same_sort, param_sort, place_in_term};
use qed_terms::{LogicFn, Sort, Term, TermOp};
use std::alloc::Global;
use wp_base::{List, NoMemory, Str};

// The sort of a term, by its head.
#[tactic(auto, using(qed_terms::proofs::Equations::tree_laws))]
fn sort_of(term: &Term) -> Sort
    ensures { result ≡ sort_of (term_tree term.now) }
{
    match term {
        Term::Num(_) => Sort::Int,
        Term::Var(_, sort) => *sort,
        Term::Op(op, _) => match op {
            TermOp::Store => Sort::Memory,
            TermOp::Alloc(_) => Sort::Table,
            TermOp::Grow => Sort::Table,
            TermOp::Add
            | TermOp::Sub
            | TermOp::Mul
            | TermOp::Neg
            | TermOp::Div
            | TermOp::Mod
            | TermOp::Wrap(_)
            | TermOp::ShiftLeft
            | TermOp::ShiftRight
            | TermOp::BitAnd
            | TermOp::BitOr
            | TermOp::BitXor
            | TermOp::BitNot
            | TermOp::Load
            | TermOp::Count
            | TermOp::Len => Sort::Int,
        },
        Term::Ite(_, _, _) => Sort::Int,
        Term::App(_, _) => Sort::Int,
    }
}

// As many kids as parameters, of their sorts.
#[tactic(auto, using(crate::proofs::Kids::match_laws))]
fn kids_match(names: &[Term], kids: &[Term]) -> bool
    ensures { result ≡ kids_match (params names.now) (trees_of (map term_tree kids.now)) }
{
    for at in 0..names.len() {
        if at >= kids.len() {
            return false;
        }
        if !is_same_sort(param_sort(&names[at]), sort_of(&kids[at])) {
            return false;
        }
    }
    kids.len() <= names.len()
}

#[tactic(auto, using(crate::proofs::Kids::all_terms))]
fn fits_call(function: &LogicFn, name: &Str, kids: &List<Term>) -> bool
    ensures { result ≡ fits_call name.now (trees_of (map term_tree kids.now)) (view_logic function.now) }
{
    name.bytes() == function.name.bytes() && kids_match(function.params.as_slice(), kids.as_slice())
}

// The number that a term is.
#[tactic(auto, using(qed_terms::proofs::Equations::tree_laws))]
fn number_of(term: &Term) -> Option<i128>
    ensures { result ≡ number_at (term_tree term.now) }
{
    match term {
        Term::Num(value) => Some(*value),
        Term::Var(_, _) => None,
        Term::Op(_, _) => None,
        Term::Ite(_, _, _) => None,
        Term::App(_, _) => None,
    }
}

// Whether a term is a number, and at most the cut.
fn is_number_at_most(term: &Term, cut: i128) -> bool
    ensures { result ≡ is_at_most cut (number_at (term_tree term.now)) }
{
    match number_of(term) {
        Some(value) => value <= cut,
        None => false,
    }
}

// Whether the kid at the place is a number, and at most the cut.
#[tactic(auto, using(crate::proofs::Kids::number_laws))]
fn is_at_most(kids: &List<Term>, place: u32, cut: i128) -> bool
    ensures { result ≡ is_at_most cut (kid_number (trees_of (map term_tree kids.now)) place) }
{
    match kids.get(place as usize) {
        Some(kid) => is_number_at_most(kid, cut),
        None => false,
    }
}

// What the call of this function becomes, which takes the kids.
fn base_at(alloc: Global, function: &LogicFn, kids: &List<Term>) -> Result<Option<Term>, NoMemory>
    ensures { IfOk result (λ made. option_map term_tree made ≡ base_at (view_logic function.now) (trees_of (map term_tree kids.now))) }
{
    if !is_at_most(kids, function.number, function.cut) {
        return Ok(None);
    }
    let base = place_in_term(
        alloc,
        &function.base,
        function.params.as_slice(),
        kids.as_slice(),
    )?;
    Ok(Some(base))
}

/// What becomes of a call by the functions of a setting, where its number is at most the cut; none where it stays.
#[tactic(auto, using(crate::proofs::Kids::base_laws))]
pub fn call_base(
    alloc: Global,
    functions: &List<LogicFn>,
    name: &Str,
    kids: &List<Term>,
) -> Result<Option<Term>, NoMemory>
    ensures { IfOk result (λ made. option_map term_tree made ≡ base_of (map view_logic functions.now) name.now (trees_of (map term_tree kids.now))) }
{
    for function in functions.as_slice() {
        if fits_call(function, name, kids) {
            return base_at(alloc, function, kids);
        }
    }
    Ok(None)
}
