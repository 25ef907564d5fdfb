// Calls in predicates (ACSL 2.2). What is still to be looked at is a list, so the stack doesn't grow with the predicate.
ghost use Rattle.std.specs.Prelude.{◌≡◌, ◌++◌, IfOk, OnOk};
ghost use Rattle.c_syntax.specs.View.{view_pred};
ghost use Rattle.acsl_guards.specs.Recursive as spec;
ghost use Rattle.acsl_guards.specs.Parts.{head_calls, leaf_calls, pred_own_calls, pred_parts, preds_in};

use crate::gather::{put, put_three, put_two};
use crate::names::same;
use crate::terms::{calls_in_term, calls_in_terms};
use c_syntax::{Pred, PredLeaf, PredOne, PredShape};
use std::alloc::Global;
use wp_base::{NoMemory, Str};

fn leaf_calls(alloc: Global, name: &Str, leaf: PredLeaf<'_>) -> Result<bool, NoMemory>
    ensures { IfOk result (λ found. found ≡ leaf_calls name.now leaf.entry) }
{
    match leaf {
        PredLeaf::True => Ok(false),
        PredLeaf::False => Ok(false),
        PredLeaf::Chain(terms, _) => calls_in_terms(alloc, name, terms),
        PredLeaf::Valid(pointer) => calls_in_term(alloc, name, pointer.get()),
        PredLeaf::ValidRead(pointer) => calls_in_term(alloc, name, pointer.get()),
        PredLeaf::Separated(pointers) => calls_in_terms(alloc, name, pointers),
        PredLeaf::Call(called, args) => {
            if same(name, called) {
                return Ok(true);
            }
            calls_in_terms(alloc, name, args)
        }
    }
}

fn head_calls(alloc: Global, name: &Str, head: PredOne<'_>) -> Result<bool, NoMemory>
    ensures { IfOk result (λ found. found ≡ head_calls name.now head.entry) }
{
    match head {
        PredOne::Not => Ok(false),
        PredOne::Old => Ok(false),
        PredOne::Let(_, value) => calls_in_term(alloc, name, value.get()),
        PredOne::Forall(_) => Ok(false),
        PredOne::Exists(_) => Ok(false),
    }
}

// Whether a predicate is a call of this function, or has one beside those of the predicates in it.
#[tactic(auto, using(crate::proofs::PredParts::own_laws))]
fn own_calls(alloc: Global, name: &Str, pred: &Pred) -> Result<bool, NoMemory>
    ensures { IfOk result (λ found. found ≡ pred_own_calls name.now (view_pred pred.now)) }
{
    match pred.node.look() {
        PredShape::Leaf(leaf) => leaf_calls(alloc, name, leaf),
        PredShape::One(head, _) => head_calls(alloc, name, head),
        PredShape::Two(_, _, _) => Ok(false),
        PredShape::Cond(_, _, _) => Ok(false),
    }
}

// Puts the predicates that a predicate holds behind what is still to be looked at.
#[tactic(auto, using(crate::proofs::PredParts::part_laws))]
fn put_parts<'a>(left: &mut Vec<&'a Pred>, pred: &'a Pred) -> Result<(), NoMemory>
    ensures { OnOk result (preds_in left.new.items ≡ preds_in left.old.items ++ pred_parts (view_pred pred.now)) }
{
    match pred.node.look() {
        PredShape::Leaf(_) => Ok(()),
        PredShape::One(_, part) => put(left, part.get()),
        PredShape::Two(_, first, second) => put_two(left, first.get(), second.get()),
        PredShape::Cond(test, first, second) => put_three(
            left,
            test.get(),
            first.get(),
            second.get(),
        ),
    }
}

/// Whether a call of this predicate or function stands in a predicate.
#[tactic(auto, using(crate::proofs::Calling::turns))]
pub fn calls_in_pred(alloc: Global, name: &Str, pred: &Pred) -> Result<bool, NoMemory>
    ensures { IfOk result (λ found. found ≡ spec.pred_calls name.now (view_pred pred.now)) }
{
    let mut left = Vec::new(alloc);
    put(&mut left, pred)?;
    while let Some(part) = left.pop() {
        if own_calls(alloc, name, part)? {
            return Ok(true);
        }
        put_parts(&mut left, part)?;
    }
    Ok(false)
}
