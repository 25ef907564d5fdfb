// Arguments in the places of the parameters of a body.
ghost use Rattle.std.specs.Prelude.{◌≡◌, ◌&&◌, map, option_map, IfOk};
ghost use Rattle.std.specs.Str.{bytes_eq};
ghost use Rattle.qed_terms.specs.Tree.{node, stop, three, trees_of};
ghost use Rattle.qed_terms.specs.View.{formula_tree, term_tree};
ghost use Rattle.qed_terms.specs.WellFormed.{same_sort};
ghost use Rattle.qed_terms.specs.declared.head.Head.TheVariants as head;
ghost use Rattle.qed_substitution.specs.Substitution.{quantifier};
ghost use Rattle.qed_calls.specs.Calls.{argument_for, with_arguments};
ghost use Rattle.qed_calls.specs.View.{param, params};

use qed_substitution::quantify;
use qed_terms::{Formula, Sort, Term};
use std::alloc::Global;
use wp_base::{Boxed, List, NoMemory, Str, box_both};

pub fn is_same_sort(left: Sort, right: Sort) -> bool
    ensures { result ≡ same_sort left right }
{
    match left {
        Sort::Int => match right {
            Sort::Int => true,
            Sort::Memory => false,
            Sort::Table => false,
        },
        Sort::Memory => match right {
            Sort::Int => false,
            Sort::Memory => true,
            Sort::Table => false,
        },
        Sort::Table => match right {
            Sort::Int => false,
            Sort::Memory => false,
            Sort::Table => true,
        },
    }
}

#[tactic(auto, using(qed_terms::proofs::Equations::tree_laws))]
fn param_name(name: &Term) -> &[u8]
    ensures { result.now ≡ (param name.now).name }
{
    match name {
        Term::Num(_) => &[],
        Term::Var(name, _) => name.bytes(),
        Term::Op(_, _) => &[],
        Term::Ite(_, _, _) => &[],
        Term::App(_, _) => &[],
    }
}

/// The sort of a parameter.
#[tactic(auto, using(qed_terms::proofs::Equations::tree_laws))]
pub fn param_sort(name: &Term) -> Sort
    ensures { result ≡ (param name.now).sort }
{
    match name {
        Term::Num(_) => Sort::Int,
        Term::Var(_, sort) => *sort,
        Term::Op(_, _) => Sort::Int,
        Term::Ite(_, _, _) => Sort::Int,
        Term::App(_, _) => Sort::Int,
    }
}

fn is_param(own: &Term, name: &Str, sort: Sort) -> bool
    ensures { result ≡ bytes_eq name.now (param own.now).name && same_sort sort (param own.now).sort }
{
    name.bytes() == param_name(own) && is_same_sort(sort, param_sort(own))
}

// The argument for the parameter of this name and sort.
#[tactic(auto, using(crate::proofs::Kids::argument_laws))]
fn argument_for<'a>(names: &[Term], kids: &'a [Term], name: &Str, sort: Sort) -> Option<&'a Term>
    ensures { option_map (λ t. term_tree t.now) result ≡ argument_for (params names.now) (trees_of (map term_tree kids.now)) name.now sort }
{
    for at in 0..names.len() {
        if at >= kids.len() {
            return None;
        }
        if is_param(&names[at], name, sort) {
            return Some(&kids[at]);
        }
    }
    None
}

// What stands for a name.
#[tactic(auto, using(qed_terms::proofs::Equations::tree_laws))]
fn place_name(
    alloc: Global,
    names: &[Term],
    kids: &[Term],
    name: &Str,
    sort: Sort,
) -> Result<Term, NoMemory>
    ensures { IfOk result (λ new. term_tree new ≡ with_arguments (params names.now) (trees_of (map term_tree kids.now)) (node (head.Var name.now sort) stop)) }
{
    match argument_for(names, kids, name, sort) {
        Some(kid) => kid.copy(alloc),
        None => Ok(Term::Var(name.copy(alloc)?, sort)),
    }
}

/// A body with these arguments in the places of the parameters.
#[cycle(place)]
#[tactic(auto, using(qed_terms::proofs::Equations::tree_laws))]
pub fn place_in_term(
    alloc: Global,
    term: &Term,
    names: &[Term],
    kids: &[Term],
) -> Result<Term, NoMemory>
    ensures { IfOk result (λ new. term_tree new ≡ with_arguments (params names.now) (trees_of (map term_tree kids.now)) (term_tree term.now)) }
{
    match term {
        Term::Num(_) => term.copy(alloc),
        Term::Var(name, sort) => place_name(alloc, names, kids, name, *sort),
        Term::Op(op, parts) => {
            let op = op.copy(alloc)?;
            Ok(Term::Op(op, place_in_terms(alloc, parts, names, kids)?))
        }
        Term::Ite(condition, left, right) => {
            let condition = place_in_formula(alloc, condition.get(), names, kids)?;
            let left = place_in_term(alloc, left.get(), names, kids)?;
            let right = place_in_term(alloc, right.get(), names, kids)?;
            Term::ite(alloc, condition, left, right)
        }
        Term::App(function, parts) => {
            let function = function.copy(alloc)?;
            Ok(Term::App(function, place_in_terms(alloc, parts, names, kids)?))
        }
    }
}

#[cycle(place)]
fn place_in_terms(
    alloc: Global,
    terms: &List<Term>,
    names: &[Term],
    kids: &[Term],
) -> Result<List<Term>, NoMemory>
    ensures { IfOk result (λ new. map term_tree new ≡ map (λ t. with_arguments (params names.now) (trees_of (map term_tree kids.now)) (term_tree t)) terms.now) }
{
    let mut new = List::new(alloc);
    for term in terms.as_slice() {
        new.push(place_in_term(alloc, term, names, kids)?)?;
    }
    Ok(new)
}

#[cycle(place)]
#[tactic(auto, using(qed_terms::proofs::Equations::tree_laws))]
fn place_in_formula(
    alloc: Global,
    formula: &Formula,
    names: &[Term],
    kids: &[Term],
) -> Result<Formula, NoMemory>
    ensures { IfOk result (λ new. formula_tree new ≡ with_arguments (params names.now) (trees_of (map term_tree kids.now)) (formula_tree formula.now)) }
{
    match formula {
        Formula::True => Ok(Formula::True),
        Formula::False => Ok(Formula::False),
        Formula::Rel(op, terms) => {
            let op = op.copy(alloc)?;
            Ok(Formula::Rel(op, place_in_terms(alloc, terms, names, kids)?))
        }
        Formula::Not(part) => {
            let part = place_in_formula(alloc, part.get(), names, kids)?;
            Formula::negation(alloc, part)
        }
        Formula::And(parts) => Ok(Formula::And(place_in_formulas(alloc, parts, names, kids)?)),
        Formula::Or(parts) => Ok(Formula::Or(place_in_formulas(alloc, parts, names, kids)?)),
        Formula::Imp(from, to) => {
            let (from, to) = place_in_both(alloc, from.get(), to.get(), names, kids)?;
            Ok(Formula::Imp(from, to))
        }
        Formula::Iff(left, right) => {
            let (left, right) = place_in_both(alloc, left.get(), right.get(), names, kids)?;
            Ok(Formula::Iff(left, right))
        }
        Formula::Forall(name, low, high, body) => place_in_quantifier(
            alloc,
            true,
            name,
            low.get(),
            high.get(),
            body.get(),
            names,
            kids,
        ),
        Formula::Exists(name, low, high, body) => place_in_quantifier(
            alloc,
            false,
            name,
            low.get(),
            high.get(),
            body.get(),
            names,
            kids,
        ),
    }
}

#[cycle(place)]
fn place_in_formulas(
    alloc: Global,
    formulas: &List<Formula>,
    names: &[Term],
    kids: &[Term],
) -> Result<List<Formula>, NoMemory>
    ensures { IfOk result (λ new. map formula_tree new ≡ map (λ f. with_arguments (params names.now) (trees_of (map term_tree kids.now)) (formula_tree f)) formulas.now) }
{
    let mut new = List::new(alloc);
    for formula in formulas.as_slice() {
        new.push(place_in_formula(alloc, formula, names, kids)?)?;
    }
    Ok(new)
}

#[cycle(place)]
fn place_in_both(
    alloc: Global,
    left: &Formula,
    right: &Formula,
    names: &[Term],
    kids: &[Term],
) -> Result<(Boxed<Formula>, Boxed<Formula>), NoMemory>
    ensures { IfOk result (λ both. (formula_tree both.0 ≡ with_arguments (params names.now) (trees_of (map term_tree kids.now)) (formula_tree left.now)) × (formula_tree both.1 ≡ with_arguments (params names.now) (trees_of (map term_tree kids.now)) (formula_tree right.now))) }
{
    let left = place_in_formula(alloc, left, names, kids)?;
    let right = place_in_formula(alloc, right, names, kids)?;
    box_both(alloc, left, right)
}

#[cycle(place)]
fn place_in_quantifier(
    alloc: Global,
    all: bool,
    name: &Str,
    low: &Term,
    high: &Term,
    body: &Formula,
    names: &[Term],
    kids: &[Term],
) -> Result<Formula, NoMemory>
    ensures { IfOk result (λ new. formula_tree new ≡ with_arguments (params names.now) (trees_of (map term_tree kids.now)) (node (quantifier all name.now) (three (term_tree low.now) (term_tree high.now) (formula_tree body.now)))) }
{
    let low = place_in_term(alloc, low, names, kids)?;
    let high = place_in_term(alloc, high, names, kids)?;
    let body = place_in_formula(alloc, body, names, kids)?;
    quantify(alloc, all, name, low, high, body)
}
