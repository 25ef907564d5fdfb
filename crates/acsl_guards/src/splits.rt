// The operands of nested `&&` (ACSL 2.2). What is still to be taken apart is a list, so the stack doesn't grow with the predicate.
ghost use Rattle.std.specs.Prelude.{◌≡◌, IfOk};
ghost use Rattle.std.specs.Option.{option_map};
ghost use Rattle.c_syntax.specs.View.{view_pred};
ghost use Rattle.acsl_guards.specs.Guarding as spec;
ghost use Rattle.acsl_guards.specs.Parts.{both_seen, preds_in};

use crate::gather::{put, put_two};
use c_syntax::{Pred, PredNode};
use std::alloc::Global;
use wp_base::NoMemory;

// What stands on both sides of `&&`.
#[tactic(auto, using(c_syntax::proofs::Equations::pred_laws))]
fn sides(pred: &Pred) -> Option<(&Pred, &Pred)>
    ensures { option_map both_seen result ≡ spec.sides (view_pred pred.now) }
{
    match &pred.node {
        PredNode::And(left, right) => Some((left.get(), right.get())),
        PredNode::True => None,
        PredNode::False => None,
        PredNode::Not(_) => None,
        PredNode::Xor(_, _) => None,
        PredNode::Or(_, _) => None,
        PredNode::Implies(_, _) => None,
        PredNode::Iff(_, _) => None,
        PredNode::Cond(_, _, _) => None,
        PredNode::Let(_, _, _) => None,
        PredNode::Chain(_, _) => None,
        PredNode::Forall(_, _) => None,
        PredNode::Exists(_, _) => None,
        PredNode::Valid(_) => None,
        PredNode::ValidRead(_) => None,
        PredNode::Separated(_) => None,
        PredNode::Old(_) => None,
        PredNode::Call(_, _) => None,
    }
}

/// The conjuncts of a predicate, from the left.
#[tactic(auto, using(crate::proofs::Taking::turns))]
pub(crate) fn conjuncts(alloc: Global, pred: &Pred) -> Result<Vec<&Pred>, NoMemory>
    ensures { IfOk result (λ found. preds_in found.items ≡ spec.conjuncts (view_pred pred.now)) }
{
    let mut found = Vec::new(alloc);
    let mut left = Vec::new(alloc);
    put(&mut left, pred)?;
    while let Some(part) = left.pop() {
        match sides(part) {
            Some((first, second)) => put_two(&mut left, second, first)?,
            None => found.push(part)?,
        }
    }
    Ok(found)
}
