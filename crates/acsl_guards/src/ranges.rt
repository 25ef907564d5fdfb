// Which chain gives a binder its range (ACSL 2.2).
ghost use Rattle.std.specs.Prelude.{◌≡◌, ◌++◌, ◌<◌, IfOk, OnOk, map, length};
ghost use Rattle.std.specs.Option.{option_copied, option_map};
ghost use Rattle.c_syntax.specs.View.{view_ctype, view_pred, view_term, view_var};
ghost use Rattle.acsl_guards.specs.Mentions.{names_of};
ghost use Rattle.acsl_guards.specs.Guarding as spec;
ghost use Rattle.acsl_guards.specs.Parts.{candidates_in, chain_seen, preds_in};

use crate::chains::{all_fall, between, is_guard, stands_in, strict_at};
use crate::splits::conjuncts;
use c_syntax::{BinOp, CType, Pred, PredNode, Term, VarDecl};
use std::alloc::Global;
use wp_base::{List, NoMemory, Str};

/// The chain that gives a binder its range.
#[derive(Clone, Copy)]
pub struct Guard {
    /// Which conjunct it is, from the left, from 0.
    pub conjunct: usize,
    /// A chain of `>` and `>=`: its last term is the low end. In others the first one is.
    pub descending: bool,
    /// The range begins one behind the low end.
    pub low_strict: bool,
    /// The range ends one before the high end.
    pub high_strict: bool,
    /// The binder stands alone between the ends, so the chain says no more than the range.
    pub alone: bool,
}

// A guard, and the names between its ends.
#[derive(Clone, Copy)]
pub(crate) struct Candidate<'a> {
    guard: Guard,
    between: &'a [Term],
}

// ---- conjuncts

// What stands before `==>`.
#[tactic(auto, using(c_syntax::proofs::Equations::pred_laws))]
fn premise(pred: &Pred) -> Option<&Pred>
    ensures { option_map view_pred (option_copied result) ≡ spec.premise (view_pred pred.now) }
{
    match &pred.node {
        PredNode::Implies(left, _) => Some(left.get()),
        PredNode::True => None,
        PredNode::False => None,
        PredNode::Not(_) => None,
        PredNode::And(_, _) => None,
        PredNode::Xor(_, _) => None,
        PredNode::Or(_, _) => None,
        PredNode::Iff(_, _) => None,
        PredNode::Cond(_, _, _) => None,
        PredNode::Let(_, _, _) => None,
        PredNode::Chain(_, _) => None,
        PredNode::Forall(_, _) => None,
        PredNode::Exists(_, _) => None,
        PredNode::Valid(_) => None,
        PredNode::ValidRead(_) => None,
        PredNode::Separated(_) => None,
        PredNode::Old(_) => None,
        PredNode::Call(_, _) => None,
    }
}

// The terms of a chain, and what stands between them.
#[tactic(auto, using(c_syntax::proofs::Equations::pred_laws))]
fn chain_of(pred: &Pred) -> Option<(&List<Term>, &List<BinOp>)>
    ensures { option_map chain_seen result ≡ spec.chain_of (view_pred pred.now) }
{
    match &pred.node {
        PredNode::Chain(terms, ops) => Some((terms, ops)),
        PredNode::True => None,
        PredNode::False => None,
        PredNode::Not(_) => None,
        PredNode::And(_, _) => None,
        PredNode::Xor(_, _) => None,
        PredNode::Or(_, _) => None,
        PredNode::Implies(_, _) => None,
        PredNode::Iff(_, _) => None,
        PredNode::Cond(_, _, _) => None,
        PredNode::Let(_, _, _) => None,
        PredNode::Forall(_, _) => None,
        PredNode::Exists(_, _) => None,
        PredNode::Valid(_) => None,
        PredNode::ValidRead(_) => None,
        PredNode::Separated(_) => None,
        PredNode::Old(_) => None,
        PredNode::Call(_, _) => None,
    }
}

// The conjuncts among which the guards of a quantifier stand.
fn guarding(alloc: Global, for_all: bool, body: &Pred) -> Result<Vec<&Pred>, NoMemory>
    ensures { IfOk result (λ found. preds_in found.items ≡ spec.guarding for_all (view_pred body.now)) }
{
    if !for_all {
        return conjuncts(alloc, body);
    }
    match premise(body) {
        Some(condition) => conjuncts(alloc, condition),
        None => Ok(Vec::new(alloc)),
    }
}

// ---- guards

// What a chain says as a guard.
fn guard_of(number: usize, terms: &List<Term>, ops: &List<BinOp>) -> Guard
    requires { 0 < length ops.now }
    ensures { result ≡ spec.guard_of number (map view_term terms.now) ops.now }
{
    let descending = all_fall(ops);
    let last = ops.len() - 1;
    Guard {
        conjunct: number,
        descending,
        low_strict: strict_at(ops, if descending { last } else { 0 }),
        high_strict: strict_at(ops, if descending { 0 } else { last }),
        alone: terms.len() == 3,
    }
}

// The guard that a conjunct is, if it is one, behind the others.
fn put_candidate<'a>(
    alloc: Global,
    found: &mut Vec<Candidate<'a>>,
    binders: &[VarDecl],
    number: usize,
    pred: &'a Pred,
) -> Result<(), NoMemory>
    ensures { OnOk result (candidates_in found.new.items
        ≡ candidates_in found.old.items ++ spec.if_guard (names_of (map view_var binders.now)) number (spec.chain_of (view_pred pred.now))) }
{
    match chain_of(pred) {
        Some((terms, ops)) => {
            if is_guard(alloc, binders, terms, ops)? {
                found.push(Candidate {
                    guard: guard_of(number, terms, ops),
                    between: between(terms),
                })?;
            }
            Ok(())
        }
        None => Ok(()),
    }
}

fn candidates<'a>(
    alloc: Global,
    binders: &[VarDecl],
    preds: &[&'a Pred],
) -> Result<Vec<Candidate<'a>>, NoMemory>
    ensures { IfOk result (λ found. candidates_in found.items ≡ spec.candidates (names_of (map view_var binders.now)) 0 (preds_in preds.now)) }
{
    let mut found = Vec::new(alloc);
    for number in 0..preds.len() {
        put_candidate(alloc, &mut found, binders, number, preds[number])?;
    }
    Ok(found)
}

fn first_with(name: &Str, candidates: &[Candidate<'_>]) -> Option<Guard>
    ensures { result ≡ spec.first_with name.now (candidates_in candidates.now) }
{
    for candidate in candidates {
        if stands_in(name, candidate.between) {
            return Some(candidate.guard);
        }
    }
    None
}

/// Whether a type is spelled `integer`.
#[tactic(auto, using(c_syntax::proofs::Equations::expr_laws))]
pub fn is_integer(ty: &CType) -> bool
    ensures { result ≡ spec.is_integer (view_ctype ty.now) }
{
    match ty {
        CType::Integer => true,
        CType::Void => false,
        CType::Kind(_) => false,
        CType::Struct(_) => false,
        CType::Enum(_) => false,
        CType::Named(_) => false,
        CType::Pointer(_) => false,
        CType::Array(_, _) => false,
        CType::Const(_) => false,
    }
}

fn guard_for(candidates: &[Candidate<'_>], binder: &VarDecl) -> Option<Guard>
    ensures { result ≡ spec.guard_for (candidates_in candidates.now) (view_var binder.now) }
{
    if is_integer(&binder.ty) {
        first_with(&binder.name, candidates)
    } else {
        None
    }
}

/// The guard of each binder of a quantifier, in order: none where its type isn't `integer`, or where it has none. A guard is a chain of comparisons
/// in one direction with binders alone between its ends, whose ends hold no binder from the first of these on. In a universal quantifier it
/// stands among the conjuncts before `==>`, in an existential one among those of the body; of several the first counts.
pub fn guards(
    alloc: Global,
    for_all: bool,
    binders: &List<VarDecl>,
    body: &Pred,
) -> Result<List<Option<Guard>>, NoMemory>
    ensures { IfOk result (λ found. found ≡ spec.guards for_all (map view_var binders.now) (view_pred body.now)) }
{
    let conditions = guarding(alloc, for_all, body)?;
    let candidates = candidates(alloc, binders.as_slice(), conditions.as_slice())?;
    let mut found = List::new(alloc);
    for binder in binders.as_slice() {
        found.push(guard_for(candidates.as_slice(), binder))?;
    }
    Ok(found)
}

fn stands_alone(guard: Option<Guard>, number: usize) -> bool
    ensures { result ≡ spec.stands_alone number guard }
{
    match guard {
        Some(guard) => guard.alone && guard.conjunct == number,
        None => false,
    }
}

/// Whether a conjunct is the guard of a binder that stands alone in it, so that the ranges say it.
pub fn is_range(guards: &List<Option<Guard>>, number: usize) -> bool
    ensures { result ≡ spec.is_range guards.now number }
{
    for guard in guards.as_slice() {
        if stands_alone(*guard, number) {
            return true;
        }
    }
    false
}
