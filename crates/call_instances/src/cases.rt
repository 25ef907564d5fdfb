// The row at a call of a recursive logic function.
ghost use Rattle.std.specs.Prelude.{◌≡◌, ℕ, Some, None, [], ◌∷◌, ◌++◌, map, All, MatchOption, IfOk};
ghost use Rattle.qed_terms.specs.Tree as tree;
ghost use Rattle.qed_terms.specs.Tree.{Tree, trees_of};
ghost use Rattle.qed_terms.specs.View.{view_logic};
ghost use Rattle.term_sketches.specs.Sketches.{Draws};
ghost use Rattle.instance_rows.specs.Calls as calls;
ghost use Rattle.instance_rows.specs.Calls.{argument_tree};
ghost use Rattle.drawn_instances.specs.Drawn.{AreDrawn, row_at};
ghost use Rattle.call_instances.specs.Bodies.{above_cut, called, in_slots, up_to_cut};

use crate::bodies::placed_body;
use crate::takers::function_for;
use drawn_instances::{Instances, instances_of, no_instances};
use qed_terms::{Head, LogicFn, TermStore};
use std::alloc::Global;
use term_sketches::{Draft, at_most, equal, less, number, or_of, slot};
use wp_base::{List, NoMemory, Str};

// ---- the formulas: the kids stand in so many first slots, the call in the next one

#[tactic(auto, using(drawn_instances::proofs::NumberLaws::number_kept))]
fn cut(alloc: Global, function: &LogicFn) -> Draft
    ensures { (f : ℕ → Tree) → Draws f result (tree.num function.now.cut) }
{
    number(alloc, function.cut)
}

fn base_up_to_cut(alloc: Global, function: &LogicFn, count: usize, at: usize) -> Draft
    ensures { (f : ℕ → Tree) → Draws f result (up_to_cut (view_logic function.now) (in_slots f 0 count) (f count) (f at)) }
{
    let base = placed_body(alloc, function.params.as_slice(), count, &function.base);
    or_of(
        alloc,
        [
            less(alloc, cut(alloc, function), slot(at)),
            equal(alloc, slot(count), base),
        ],
    )
}

fn step_above_cut(alloc: Global, function: &LogicFn, count: usize, at: usize) -> Draft
    ensures { (f : ℕ → Tree) → Draws f result (above_cut (view_logic function.now) (in_slots f 0 count) (f count) (f at)) }
{
    let step = placed_body(alloc, function.params.as_slice(), count, &function.step);
    or_of(
        alloc,
        [
            at_most(alloc, slot(at), cut(alloc, function)),
            equal(alloc, slot(count), step),
        ],
    )
}

// ---- the row

// Ids, and one more behind them.
fn with_id<I: Copy>(alloc: Global, ids: &[I], last: I) -> Result<Vec<I>, NoMemory>
    ensures { IfOk result (λ made. made.items ≡ ids.now ++ last ∷ []) }
{
    let mut made = Vec::new(alloc);
    made.extend_from_slice(ids)?;
    made.push(last)?;
    Ok(made)
}

#[tactic(auto, using(crate::proofs::CaseLaws::case_laws, drawn_instances::proofs::DrawnLaws::instance_laws))]
fn cases_by<S: TermStore>(
    alloc: Global,
    store: &S,
    function: &LogicFn,
    id: S::Id,
    kids: &[S::Id],
) -> Result<Instances<S::Id>, NoMemory>
    requires call_held { S.held store.now id }
    requires kids_held { All (S.held store.now) kids.now }
    ensures { IfOk result (λ made. AreDrawn (S.held store.now) (S.tree store.now) made.ids.items made.formulas (calls.cases_at (view_logic function.now) (trees_of (map (S.tree store.now) kids.now)) (S.tree store.now id) (argument_tree (trees_of (map (S.tree store.now) kids.now)) function.now.number))) }
{
    let at = function.number as usize;
    let count = kids.len();
    if at >= count {
        return Ok(no_instances(alloc));
    }
    let ids = with_id(alloc, kids, id)?;
    let made = instances_of(
        alloc,
        ids,
        [
            base_up_to_cut(alloc, function, count, at),
            step_above_cut(alloc, function, count, at),
        ],
    )?;
    Ok(made)
}

// The name that a head calls.
#[tactic(auto, unfolding(crate::specs::Bodies::called))]
fn name_called(head: &Head) -> Option<&Str>
    ensures { MatchOption result (called head.now ≡ None) (λ x. called head.now ≡ Some x.now) }
{
    match head {
        Head::App(name) => Some(name),
        _ => None,
    }
}

/// At a call of a recursive logic function: the base case up to the cut, the step above it.
#[tactic(auto, using(crate::proofs::CaseLaws::call_laws, drawn_instances::proofs::DrawnLaws::instance_laws))]
pub fn cases_of_call<S: TermStore>(
    alloc: Global,
    store: &S,
    functions: &List<LogicFn>,
    id: S::Id,
) -> Result<Instances<S::Id>, NoMemory>
    requires { S.held store.now id }
    ensures { IfOk result (λ made. AreDrawn (S.held store.now) (S.tree store.now) made.ids.items made.formulas (row_at (calls.cases_of_call (map view_logic functions.now)) (S.tree store.now id))) }
{
    let Some(name) = name_called(store.head(id)) else {
        return Ok(no_instances(alloc));
    };
    let kids = store.kids(id);
    let Some(function) = function_for(store, functions, name, kids) else {
        return Ok(no_instances(alloc));
    };
    let made = cases_by(alloc, store, function, id, kids)?;
    Ok(made)
}
