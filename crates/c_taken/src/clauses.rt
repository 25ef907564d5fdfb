// The names behind `&` in contracts, annotations of loops and definitions (ACSL 2.3, 2.4.2, 2.5, 2.6.1).
ghost use Rattle.std.specs.Prelude.{◌≡◌, IfOk, map, option_map};
ghost use Rattle.c_syntax.specs.View.{view_behavior, view_clause, view_contract, view_ctype, view_logic, view_logic_body, view_loop, view_measure, view_term};
ghost use Rattle.c_taken.specs.Addressed as spec;
ghost use Rattle.c_taken.specs.Pieces.{pointed};

use crate::exprs::{names_in_type, names_in_vars};
use crate::gather::put_names;
use crate::hidden::Hidden;
use crate::preds::names_in_pred;
use crate::terms::{names_in_term, names_in_terms};
use c_syntax::{Behavior, CType, Clause, Contract, LogicBody, LogicDecl, LoopAnnot, Measure, Term};
use std::alloc::Global;
use wp_base::{List, NoMemory, Str};

fn names_in_clauses(alloc: Global, clauses: &List<Clause>) -> Result<Vec<&Str>, NoMemory>
    ensures { IfOk result (λ names. pointed names.items ≡ spec.clauses_addressed (map view_clause clauses.now)) }
{
    let mut names = Vec::new(alloc);
    for clause in clauses.as_slice() {
        put_names(&mut names, names_in_pred(alloc, &clause.pred)?)?;
    }
    Ok(names)
}

fn names_in_set(alloc: Global, set: &Option<List<Term>>) -> Result<Vec<&Str>, NoMemory>
    ensures { IfOk result (λ names. pointed names.items ≡ spec.set_addressed (option_map (map view_term) set.now)) }
{
    match set {
        None => Ok(Vec::new(alloc)),
        Some(terms) => names_in_terms(alloc, terms),
    }
}

fn names_in_measure(alloc: Global, measure: &Option<Measure>) -> Result<Vec<&Str>, NoMemory>
    ensures { IfOk result (λ names. pointed names.items ≡ spec.measure_addressed (option_map view_measure measure.now)) }
{
    match measure {
        None => Ok(Vec::new(alloc)),
        Some(measure) => names_in_term(alloc, &measure.term),
    }
}

fn names_in_behavior(alloc: Global, behavior: &Behavior) -> Result<Vec<&Str>, NoMemory>
    ensures { IfOk result (λ names. pointed names.items ≡ spec.behavior_addressed (view_behavior behavior.now)) }
{
    let mut names = names_in_clauses(alloc, &behavior.assumes)?;
    put_names(&mut names, names_in_clauses(alloc, &behavior.requires_)?)?;
    put_names(&mut names, names_in_set(alloc, &behavior.assigns.set)?)?;
    put_names(&mut names, names_in_clauses(alloc, &behavior.ensures_)?)?;
    Ok(names)
}

fn names_in_behaviors(alloc: Global, behaviors: &List<Behavior>) -> Result<Vec<&Str>, NoMemory>
    ensures { IfOk result (λ names. pointed names.items ≡ spec.behaviors_addressed (map view_behavior behaviors.now)) }
{
    let mut names = Vec::new(alloc);
    for behavior in behaviors.as_slice() {
        put_names(&mut names, names_in_behavior(alloc, behavior)?)?;
    }
    Ok(names)
}

/// The names behind `&` in a contract.
pub(crate) fn names_in_contract(alloc: Global, contract: &Contract) -> Result<Vec<&Str>, NoMemory>
    ensures { IfOk result (λ names. pointed names.items ≡ spec.contract_addressed (view_contract contract.now)) }
{
    let mut names = names_in_clauses(alloc, &contract.requires_)?;
    put_names(&mut names, names_in_set(alloc, &contract.assigns.set)?)?;
    put_names(&mut names, names_in_clauses(alloc, &contract.ensures_)?)?;
    put_names(&mut names, names_in_measure(alloc, &contract.decreases_)?)?;
    put_names(&mut names, names_in_behaviors(alloc, &contract.behaviors)?)?;
    Ok(names)
}

/// The names behind `&` in the annotation of a loop.
pub(crate) fn names_in_loop(alloc: Global, annot: &LoopAnnot) -> Result<Vec<&Str>, NoMemory>
    ensures { IfOk result (λ names. pointed names.items ≡ spec.loop_addressed (view_loop annot.now)) }
{
    let mut names = names_in_clauses(alloc, &annot.invariants)?;
    put_names(&mut names, names_in_set(alloc, &annot.assigns.set)?)?;
    put_names(&mut names, names_in_measure(alloc, &annot.variant)?)?;
    Ok(names)
}

fn names_in_result(alloc: Global, ty: &Option<CType>) -> Result<Vec<&Str>, NoMemory>
    ensures { IfOk result (λ names. pointed names.items ≡ spec.result_addressed (option_map view_ctype ty.now)) }
{
    match ty {
        None => Ok(Vec::new(alloc)),
        Some(ty) => names_in_type(alloc, ty),
    }
}

fn names_in_body(alloc: Global, body: &LogicBody) -> Result<Vec<&Str>, NoMemory>
    ensures { IfOk result (λ names. pointed names.items ≡ spec.body_addressed (view_logic_body body.now)) }
{
    match body {
        LogicBody::Term(term) => names_in_term(alloc, term),
        LogicBody::Pred(pred) => names_in_pred(alloc, pred),
    }
}

/// The names behind `&` in the definition of a predicate or a logic function, beside its parameters.
#[tactic(auto, using(crate::proofs::Hiding::hidden_all))]
pub(crate) fn names_in_logic(alloc: Global, logic: &LogicDecl) -> Result<Vec<&Str>, NoMemory>
    ensures { IfOk result (λ names. pointed names.items ≡ spec.logic_addressed (view_logic logic.now)) }
{
    let mut names = names_in_result(alloc, &logic.result)?;
    put_names(&mut names, names_in_vars(alloc, &logic.params)?)?;
    let mut hidden = Hidden::new(alloc);
    hidden.hide_all(alloc, &logic.params)?;
    hidden.put_shown(&mut names, names_in_body(alloc, &logic.body)?.as_slice())?;
    Ok(names)
}
