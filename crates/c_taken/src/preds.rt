// The names behind `&` in predicates (ACSL 2.2).
ghost use Rattle.std.specs.Prelude.{◌≡◌, [], ◌∷◌, ◌++◌, IfOk, OnOk, map};
ghost use Rattle.c_syntax.specs.View.{view_pred};
ghost use Rattle.c_taken.specs.Addressed as spec;
ghost use Rattle.c_taken.specs.Pieces as pieces;

use crate::exprs::names_in_vars;
use crate::hidden::Hidden;
use crate::terms::{names_in_term, names_in_terms};
use c_syntax::{Pred, PredLeaf, PredOne, PredShape};
use std::alloc::Global;
use wp_base::{NoMemory, Str};

// What is still to be done.
#[derive(Clone, Copy)]
pub(crate) enum Piece<'a> {
    Look(&'a Pred),
    /// Back to so many hidden names.
    Back(usize),
}

// The names in a predicate in which there is no other one.
#[tactic(auto, using(crate::proofs::PredShapes::own_laws))]
fn leaf_names<'a>(alloc: Global, leaf: PredLeaf<'a>) -> Result<Vec<&'a Str>, NoMemory>
    ensures { IfOk result (λ names. pieces.pointed names.items ≡ pieces.leaf_own leaf.entry) }
{
    match leaf {
        PredLeaf::True => Ok(Vec::new(alloc)),
        PredLeaf::False => Ok(Vec::new(alloc)),
        PredLeaf::Chain(terms, _) => names_in_terms(alloc, terms),
        PredLeaf::Valid(pointer) => names_in_term(alloc, pointer.get()),
        PredLeaf::ValidRead(pointer) => names_in_term(alloc, pointer.get()),
        PredLeaf::Separated(pointers) => names_in_terms(alloc, pointers),
        PredLeaf::Call(_, args) => names_in_terms(alloc, args),
    }
}

fn head_names<'a>(alloc: Global, head: PredOne<'a>) -> Result<Vec<&'a Str>, NoMemory>
    ensures { IfOk result (λ names. pieces.pointed names.items ≡ pieces.head_own head.entry) }
{
    match head {
        PredOne::Not => Ok(Vec::new(alloc)),
        PredOne::Old => Ok(Vec::new(alloc)),
        PredOne::Let(_, value) => names_in_term(alloc, value.get()),
        PredOne::Forall(binders) => names_in_vars(alloc, binders),
        PredOne::Exists(binders) => names_in_vars(alloc, binders),
    }
}

// The names that a predicate has beside those of the predicates in it.
#[tactic(auto, using(crate::proofs::PredShapes::own_laws))]
fn own_names(alloc: Global, pred: &Pred) -> Result<Vec<&Str>, NoMemory>
    ensures { IfOk result (λ names. pieces.pointed names.items ≡ pieces.pred_own (view_pred pred.now)) }
{
    match pred.node.look() {
        PredShape::Leaf(leaf) => leaf_names(alloc, leaf),
        PredShape::One(head, _) => head_names(alloc, head),
        PredShape::Two(_, _, _) => Ok(Vec::new(alloc)),
        PredShape::Cond(_, _, _) => Ok(Vec::new(alloc)),
    }
}

fn hide_head(alloc: Global, hidden: &mut Hidden, head: PredOne<'_>) -> Result<(), NoMemory>
    ensures { OnOk result (hidden.new ≡ pieces.hidden_by_all hidden.old (pieces.head_bound head.entry)) }
{
    match head {
        PredOne::Not => Ok(()),
        PredOne::Old => Ok(()),
        PredOne::Let(name, _) => hidden.hide(alloc, name),
        PredOne::Forall(binders) => hidden.hide_all(alloc, binders),
        PredOne::Exists(binders) => hidden.hide_all(alloc, binders),
    }
}

// Hides what a predicate hides in those that it holds.
#[tactic(auto, using(crate::proofs::PredShapes::bound_laws))]
fn hide_bound(alloc: Global, hidden: &mut Hidden, pred: &Pred) -> Result<(), NoMemory>
    ensures { OnOk result (hidden.new ≡ pieces.hidden_by_all hidden.old (pieces.bound (view_pred pred.now))) }
{
    match pred.node.look() {
        PredShape::One(head, _) => hide_head(alloc, hidden, head),
        PredShape::Leaf(_) => Ok(()),
        PredShape::Two(_, _, _) => Ok(()),
        PredShape::Cond(_, _, _) => Ok(()),
    }
}

fn put<'a>(left: &mut Vec<Piece<'a>>, pred: &'a Pred) -> Result<(), NoMemory>
    ensures { OnOk result (pieces.tasks_in left.new.items ≡ pieces.tasks_in left.old.items ++ pieces.look (view_pred pred.now) ∷ []) }
{
    left.push(Piece::Look(pred))?;
    Ok(())
}

// Puts the predicates that a predicate holds behind what is still to be done.
#[tactic(auto, using(crate::proofs::PredShapes::part_laws))]
fn put_parts<'a>(left: &mut Vec<Piece<'a>>, pred: &'a Pred) -> Result<(), NoMemory>
    ensures { OnOk result (pieces.tasks_in left.new.items ≡ pieces.tasks_in left.old.items ++ map pieces.look (pieces.pred_parts (view_pred pred.now))) }
{
    match pred.node.look() {
        PredShape::Leaf(_) => Ok(()),
        PredShape::One(_, part) => put(left, part.get()),
        PredShape::Two(_, first, second) => {
            put(left, first.get())?;
            put(left, second.get())
        }
        PredShape::Cond(test, first, second) => {
            put(left, test.get())?;
            put(left, first.get())?;
            put(left, second.get())
        }
    }
}

fn look_at<'a>(
    alloc: Global,
    names: &mut Vec<&'a Str>,
    hidden: &mut Hidden,
    left: &mut Vec<Piece<'a>>,
    pred: &'a Pred,
) -> Result<(), NoMemory>
    ensures names { OnOk result (pieces.pointed names.new.items
        ≡ pieces.pointed names.old.items ++ spec.outside hidden.old (pieces.pred_own (view_pred pred.now))) }
    ensures hidden { OnOk result (hidden.new ≡ pieces.hidden_by_all hidden.old (pieces.bound (view_pred pred.now))) }
    ensures left { OnOk result (pieces.tasks_in left.new.items ≡ pieces.tasks_in left.old.items ++ pieces.tasks hidden.old (view_pred pred.now)) }
{
    hidden.put_shown(names, own_names(alloc, pred)?.as_slice())?;
    left.push(Piece::Back(hidden.len()))?;
    hide_bound(alloc, hidden, pred)?;
    put_parts(left, pred)
}

/// The names behind `&` in a predicate, beside those that something in it hides.
#[tactic(auto, using(crate::proofs::Hiding::task_laws))]
pub(crate) fn names_in_pred(alloc: Global, pred: &Pred) -> Result<Vec<&Str>, NoMemory>
    ensures { IfOk result (λ names. pieces.pointed names.items ≡ spec.pred_addressed (view_pred pred.now)) }
{
    let mut names = Vec::new(alloc);
    let mut hidden = Hidden::new(alloc);
    let mut left = Vec::new(alloc);
    left.push(Piece::Look(pred))?;
    while let Some(piece) = left.pop() {
        match piece {
            Piece::Back(count) => hidden.truncate(count),
            Piece::Look(part) => look_at(alloc, &mut names, &mut hidden, &mut left, part)?,
        }
    }
    Ok(names)
}
