// The literals that would close a branch, and the first disjunction with such a disjunct.
ghost use Rattle.std.specs.Prelude.{◌≡◌, map, All, OnOk, IfOk};
ghost use Rattle.std.specs.Bool.{MatchBool};
ghost use Rattle.branches.specs.Firsts.{IsFirst};
ghost use Rattle.branches.specs.Ids.{branch_of, BranchHeld};
ghost use Rattle.branch_changes.specs.Changes.{WouldClose};
ghost use Rattle.changed_branches.specs.Found.{IsFirstFalse, IsFirstRemoval};

use branch_changes::ChangeRules;
use branches::{Kind, has_kind};
use qed_terms::{IdBranch, TermStore};
use std::alloc::Global;
use wp_base::NoMemory;

/// The place of a disjunction among those that wait, and that of one of its disjuncts.
#[derive(Clone, Copy, Debug)]
pub struct Removal {
    pub at: usize,
    pub disjunct: usize,
}

/// Whether a formula is a literal that would close the branch.
pub fn would_close<S: TermStore, R: ChangeRules<S>>(
    alloc: Global,
    store: &S,
    rules: &mut R,
    branch: &IdBranch<S::Id>,
    id: S::Id,
) -> Result<bool, NoMemory>
    requires ready { R.ready rules.old store.now }
    requires held { BranchHeld (S.held store.now) branch.now }
    requires id { S.held store.now id }
    ensures ready { OnOk result (R.ready rules.new store.now) }
    ensures told { IfOk result (λ answer. MatchBool answer (WouldClose R.closed (branch_of (S.tree store.now) branch.now) (S.tree store.now id)) (WouldClose R.closed (branch_of (S.tree store.now) branch.now) (S.tree store.now id) → ⊥)) }
{
    if !has_kind(Kind::Literal, store.head(id)) {
        return Ok(false);
    }
    let closes = rules.would_close(alloc, store, branch, id)?;
    Ok(closes)
}

/// The place of the first literal that would close the branch.
fn first_closing<S: TermStore, R: ChangeRules<S>>(
    alloc: Global,
    store: &S,
    rules: &mut R,
    branch: &IdBranch<S::Id>,
    ids: &[S::Id],
) -> Result<Option<usize>, NoMemory>
    requires ready { R.ready rules.old store.now }
    requires held { BranchHeld (S.held store.now) branch.now }
    requires ids { All (S.held store.now) ids.now }
    ensures ready { OnOk result (R.ready rules.new store.now) }
    ensures first { IfOk result (IsFirst (WouldClose R.closed (branch_of (S.tree store.now) branch.now)) (map (S.tree store.now) ids.now)) }
{
    for at in 0..ids.len() {
        let closes = would_close(alloc, store, rules, branch, ids[at])?;
        if closes {
            return Ok(Some(at));
        }
    }
    Ok(None)
}

/// In a formula: none where it is no disjunction, or has no such disjunct.
fn first_false<S: TermStore, R: ChangeRules<S>>(
    alloc: Global,
    store: &S,
    rules: &mut R,
    branch: &IdBranch<S::Id>,
    id: S::Id,
) -> Result<Option<usize>, NoMemory>
    requires ready { R.ready rules.old store.now }
    requires held { BranchHeld (S.held store.now) branch.now }
    requires id { S.held store.now id }
    ensures ready { OnOk result (R.ready rules.new store.now) }
    ensures first { IfOk result (IsFirstFalse R.closed (branch_of (S.tree store.now) branch.now) (S.tree store.now id)) }
{
    if !has_kind(Kind::Or, store.head(id)) {
        return Ok(None);
    }
    let found = first_closing(alloc, store, rules, branch, store.kids(id))?;
    Ok(found)
}

fn removal_of(at: usize, disjunct: usize) -> Removal
    ensures at { result.at ≡ at }
    ensures disjunct { result.disjunct ≡ disjunct }
{
    Removal { at, disjunct }
}

/// The first disjunction that waits and has a disjunct that would close the branch, with the first such disjunct.
pub fn first_removal<S: TermStore, R: ChangeRules<S>>(
    alloc: Global,
    store: &S,
    rules: &mut R,
    branch: &IdBranch<S::Id>,
) -> Result<Option<Removal>, NoMemory>
    requires ready { R.ready rules.old store.now }
    requires held { BranchHeld (S.held store.now) branch.now }
    ensures ready { OnOk result (R.ready rules.new store.now) }
    ensures first { IfOk result (IsFirstRemoval R.closed (branch_of (S.tree store.now) branch.now)) }
{
    let waiting = branch.waiting.as_slice();
    for at in 0..waiting.len() {
        let found = first_false(alloc, store, rules, branch, waiting[at])?;
        match found {
            Some(disjunct) => return Ok(Some(removal_of(at, disjunct))),
            None => {}
        }
    }
    Ok(None)
}
