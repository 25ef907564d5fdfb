// What the prover's calls tell of a branch.
ghost use Rattle.std.specs.Prelude.{◌≡◌, ◌<◌, All, length, OnOk, IfOk};
ghost use Rattle.tree_places.specs.View.{IsKept};
ghost use Rattle.term_forms.specs.Forms.{count_of};

use crate::stored::{branch_of, kid_of, stored_goal};
use branch_rows::literal_places;
use clashes::has_clash;
use closed_branches::{is_closed, would_close};
use congruence::{TermClasses, same, term_classes};
use linear_prover::negative_chain;
use prover::LinkTest;
use qed_terms::{TermStore, TreeStore};
use std::alloc::Global;
use tree_places::{TreeTable, empty};
use wp_base::NoMemory;

// The classes, whether the literals clash, and whether their links can't all hold.
fn closing_of(
    alloc: Global,
    table: &mut TreeTable,
    literals: &[usize],
) -> Result<(TermClasses, bool, bool), NoMemory>
    requires kept { IsKept table.old }
    requires below { All (λ k. k < count_of table.old) literals.now }
    ensures kept { OnOk result (IsKept table.new) }
    ensures all { IfOk result (λ r. length r.0.marks.items ≡ length r.0.classes.items) }
{
    let closed = term_classes(alloc, table, literals)?;
    let clash = has_clash(alloc, table, &closed, literals)?;
    let chain = negative_chain(alloc, table, &closed, literals)?;
    let refuted = chain.is_some();
    Ok((closed, clash, refuted))
}

// Whether the branch is closed, and whether its first literal closes the others.
fn closed_both<S: TermStore>(
    alloc: Global,
    store: &S,
    literals: &[S::Id],
) -> Result<(bool, bool), NoMemory>
    requires { All (S.held store.now) literals.now }
{
    let Some((first, others)) = literals.split_first() else {
        return Err(NoMemory)
    };
    let whole = branch_of(alloc, literals, &[])?;
    let closed = is_closed(alloc, store, &LinkTest, &whole)?;
    let branch = branch_of(alloc, others, &[])?;
    let closes = would_close(alloc, store, &LinkTest, &branch, *first)?;
    Ok((closed, closes))
}

// Which of these equalities have same sides, behind what was told.
fn put_same<S: TermStore>(
    alloc: Global,
    store: &S,
    table: &mut TreeTable,
    closed: &TermClasses,
    asked: &[S::Id],
    told: &mut Vec<bool>,
) -> Result<(), NoMemory>
    requires asked { All (S.held store.now) asked.now }
    requires kept { IsKept table.old }
    requires all { length closed.now.marks.items ≡ length closed.now.classes.items }
{
    for equality in asked {
        let first = kid_of(store, *equality, 0)?;
        let second = kid_of(store, *equality, 1)?;
        told.push(same(alloc, store, table, closed, first, second)?)?;
    }
    Ok(())
}

fn told_of<S: TermStore>(
    alloc: Global,
    store: &S,
    known: S::Id,
    check: S::Id,
) -> Result<Vec<bool>, NoMemory>
    requires known { S.held store.now known }
    requires check { S.held store.now check }
{
    let literals = store.kids(known);
    let mut table = empty(alloc);
    let places = literal_places(alloc, store, &mut table, literals)?;
    let (classes, clash, refuted) = closing_of(alloc, &mut table, places.as_slice())?;
    let (closed, closes) = closed_both(alloc, store, literals)?;
    let mut told = Vec::from_slice(alloc, &[clash, refuted, closed, closes])?;
    put_same(
        alloc,
        store,
        &mut table,
        &classes,
        store.kids(check),
        &mut told,
    )?;
    Ok(told)
}

/// Of a branch whose literals are known in a goal: whether they clash, whether their links can't all hold, whether the branch is closed, and whether
/// its first literal closes the others; then of each equality that the goal checks, whether its sides are same.
pub fn tell(alloc: Global, text: &[u8]) -> Result<Vec<bool>, NoMemory> {
    let mut store = TreeStore::new(alloc);
    let (known, check) = stored_goal(alloc, &mut store, text)?;
    told_of(alloc, &store, known, check)
}
