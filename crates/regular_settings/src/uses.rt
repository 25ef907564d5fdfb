// Uses of functions in bodies.
ghost use Rattle.std.specs.Prelude.{◌≡◌, ◌&&◌, List, map, option_map, slice_get};
ghost use Rattle.std.specs.Str.{bytes_eq};
ghost use Rattle.qed_terms.specs.declared.head.Head.TheVariants as head;
ghost use Rattle.qed_terms.specs.Operators.{is_equal as equal};
ghost use Rattle.qed_terms.specs.Setting as spec;
ghost use Rattle.qed_terms.specs.Tree.{node, trees_of};
ghost use Rattle.qed_terms.specs.View.{term_tree, view_logic};
ghost use Rattle.regular_settings.specs.Shapes as shapes;
ghost use Rattle.regular_settings.specs.View.{is_counter, is_less_by, is_number, is_pair, lent, less_by, params};

use crate::params::{is_same_sort, param_name, param_sort};
use qed_terms::{LogicFn, Sort, Term, TermOp};

// ---- kids

// The sort of a term, by its head.
#[tactic(auto, using(qed_terms::proofs::Equations::tree_laws))]
fn sort_of(term: &Term) -> Sort
    ensures { result ≡ spec.sort_of (term_tree term.now) }
{
    match term {
        Term::Num(_) => Sort::Int,
        Term::Var(_, sort) => *sort,
        Term::Op(op, _) => match op {
            TermOp::Store => Sort::Memory,
            TermOp::Alloc(_) => Sort::Table,
            TermOp::Grow => Sort::Table,
            TermOp::Add
            | TermOp::Sub
            | TermOp::Mul
            | TermOp::Neg
            | TermOp::Div
            | TermOp::Mod
            | TermOp::Wrap(_)
            | TermOp::ShiftLeft
            | TermOp::ShiftRight
            | TermOp::BitAnd
            | TermOp::BitOr
            | TermOp::BitXor
            | TermOp::BitNot
            | TermOp::Load
            | TermOp::Count
            | TermOp::Len => Sort::Int,
        },
        Term::Ite(_, _, _) => Sort::Int,
        Term::App(_, _) => Sort::Int,
    }
}

// As many kids as parameters, of their sorts.
#[tactic(auto, using(qed_calls::proofs::Kids::match_laws))]
fn kids_match(names: &[Term], kids: &[Term]) -> bool
    ensures { result ≡ spec.kids_match (params names.now) (trees_of (map term_tree kids.now)) }
{
    for at in 0..names.len() {
        if at >= kids.len() {
            return false;
        }
        if !is_same_sort(param_sort(&names[at]), sort_of(&kids[at])) {
            return false;
        }
    }
    kids.len() <= names.len()
}

fn takes(name: &[u8], kids: &[Term], function: &LogicFn) -> bool
    ensures { result ≡ spec.takes name.now (trees_of (map term_tree kids.now)) (view_logic function.now) }
{
    name == function.name.bytes() && kids_match(function.params.as_slice(), kids)
}

// One of the functions takes these kids.
#[tactic(auto, using(crate::proofs::Passing::any_laws))]
fn some_takes(functions: &[LogicFn], name: &[u8], kids: &[Term]) -> bool
    ensures { result ≡ spec.some_takes (map view_logic functions.now) name.now (trees_of (map term_tree kids.now)) }
{
    for at in 0..functions.len() {
        if takes(name, kids, &functions[at]) {
            return true;
        }
    }
    false
}

// ---- one less

#[tactic(auto, using(qed_terms::proofs::Equations::tree_laws))]
fn is_counter(term: &Term, name: &[u8]) -> bool
    ensures { result ≡ is_counter name.now (term_tree term.now) }
{
    match term {
        Term::Num(_) => false,
        Term::Var(own, sort) => match sort {
            Sort::Int => own.bytes() == name,
            Sort::Memory => false,
            Sort::Table => false,
        },
        Term::Op(_, _) => false,
        Term::Ite(_, _, _) => false,
        Term::App(_, _) => false,
    }
}

fn is_equal(left: i128, right: i128) -> bool
    ensures { result ≡ equal left right }
{
    left == right
}

#[tactic(auto, using(qed_terms::proofs::Equations::tree_laws))]
fn is_number(term: &Term, number: i128) -> bool
    ensures { result ≡ is_number number (term_tree term.now) }
{
    match term {
        Term::Num(value) => {
            let value = *value;
            is_equal(value, number)
        }
        Term::Var(_, _) => false,
        Term::Op(_, _) => false,
        Term::Ite(_, _, _) => false,
        Term::App(_, _) => false,
    }
}

#[tactic(auto, using(crate::proofs::Passing::no_pair))]
fn is_pair(kids: &[Term], name: &[u8], number: i128) -> bool
    ensures { result ≡ is_pair name.now number (trees_of (map term_tree kids.now)) }
{
    if kids.len() != 2 {
        return false;
    }
    is_counter(&kids[0], name) && is_number(&kids[1], number)
}

// What stands beside the name where an operator makes one less of it.
fn less_by(op: &TermOp) -> Option<i128>
    ensures { result ≡ less_by op.now }
{
    match op {
        TermOp::Sub => Some(1),
        TermOp::Add => Some(-1),
        TermOp::Mul
        | TermOp::Neg
        | TermOp::Div
        | TermOp::Mod
        | TermOp::Wrap(_)
        | TermOp::ShiftLeft
        | TermOp::ShiftRight
        | TermOp::BitAnd
        | TermOp::BitOr
        | TermOp::BitXor
        | TermOp::BitNot
        | TermOp::Load
        | TermOp::Count
        | TermOp::Len
        | TermOp::Store
        | TermOp::Alloc(_)
        | TermOp::Grow => None,
    }
}

fn is_less_by(kids: &[Term], name: &[u8], number: Option<i128>) -> bool
    ensures { result ≡ is_less_by name.now number (trees_of (map term_tree kids.now)) }
{
    match number {
        Some(number) => is_pair(kids, name, number),
        None => false,
    }
}

// One less than the name.
#[tactic(auto, using(qed_terms::proofs::Equations::tree_laws, crate::proofs::Passing::less_is))]
fn is_one_less(term: &Term, name: &[u8]) -> bool
    ensures { result ≡ spec.is_one_less name.now (term_tree term.now) }
{
    match term {
        Term::Num(_) => false,
        Term::Var(_, _) => false,
        Term::Op(op, kids) => is_less_by(kids.as_slice(), name, less_by(op)),
        Term::Ite(_, _, _) => false,
        Term::App(_, _) => false,
    }
}

// ---- the function itself

fn name_at(names: &[Term], at: usize) -> &[u8]
    ensures { result.now ≡ spec.name_of (slice_get (params names.now) at) }
{
    match names.get(at) {
        Some(name) => param_name(name),
        None => &[],
    }
}

#[tactic(auto, using(crate::proofs::Passing::kid_laws))]
fn kid_is_less(kids: &[Term], at: usize, name: &[u8]) -> bool
    ensures { result ≡ spec.kid_at (spec.is_one_less name.now) (trees_of (map term_tree kids.now)) at }
{
    if at >= kids.len() {
        return false;
    }
    is_one_less(&kids[at], name)
}

fn goes_down(function: &LogicFn, name: &[u8], kids: &[Term]) -> bool
    ensures { result ≡ spec.goes_down (view_logic function.now) name.now (trees_of (map term_tree kids.now)) }
{
    let at = function.number as usize;
    takes(name, kids, function) && kid_is_less(kids, at, name_at(function.params.as_slice(), at))
}

/// Whether a use of a function is one of those before, or one of itself that goes down.
pub(crate) fn is_allowed(
    before: &[LogicFn],
    own: Option<&LogicFn>,
    name: &[u8],
    kids: &[Term],
) -> bool
    ensures { result ≡ shapes.is_allowed (map view_logic before.now) (option_map lent own.entry) name.now (trees_of (map term_tree kids.now)) }
{
    match own {
        None => some_takes(before, name, kids),
        Some(function) => some_takes(before, name, kids) || goes_down(function, name, kids),
    }
}
