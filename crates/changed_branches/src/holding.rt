// A disjunction with a disjunct that holds is dropped.
ghost use Rattle.std.specs.Prelude.{◌≡◌, [], ◌∷◌, true, map, All, OnOk, IfOk};
ghost use Rattle.std.specs.Bool.{MatchBool};
ghost use Rattle.std.specs.List.{list_all};
ghost use Rattle.qed_terms.specs.Setting.{is_regular};
ghost use Rattle.qed_terms.specs.Store.{KeepsOlder};
ghost use Rattle.qed_terms.specs.View.{view_setting};
ghost use Rattle.qed_terms.specs.WellFormed.{fits, formula};
ghost use Rattle.qed_rules.specs.Rules.{step};
ghost use Rattle.qed_simplify.specs.Normal.{Normal};
ghost use Rattle.branches.specs.Firsts.{IsFirst};
ghost use Rattle.branches.specs.Steps.{Tried};
ghost use Rattle.branches.specs.Ids.{branch_of, branch_made, BranchHeld, MadeHeld};
ghost use Rattle.branch_changes.specs.Changes.{Holds, SomeSo, HasTrue, Drops};
ghost use Rattle.changed_branches.specs.Found.{NegationCloses};

use crate::closing::would_close;
use branch_changes::ChangeRules;
use branches::{Kind, has_kind, with_kids};
use qed_terms::{Head, IdBranch, Setting, TermStore};
use std::alloc::Global;
use wp_base::NoMemory;

fn alone<I: Copy + Drop>(alloc: Global, item: I) -> Result<Vec<I>, NoMemory>
    ensures { IfOk result (λ list. list.items ≡ item ∷ []) }
{
    let mut list = Vec::new(alloc);
    list.push(item)?;
    Ok(list)
}

/// Whether the normal form of the negation of a formula is a literal that would close the branch.
fn negation_closes<S: TermStore, R: ChangeRules<S>>(
    alloc: Global,
    store: &mut S,
    rules: &mut R,
    branch: &IdBranch<S::Id>,
    id: S::Id,
    world: &Setting,
) -> Result<bool, NoMemory>
    requires ready { R.ready rules.old store.old }
    requires regular { is_regular (view_setting world.now) ≡ true }
    requires held { BranchHeld (S.held store.old) branch.now }
    requires id { S.held store.old id }
    requires formula { fits formula (S.tree store.old id) ≡ true }
    ensures ready { OnOk result (R.ready rules.new store.new) }
    ensures older { OnOk result (KeepsOlder (S.held store.old) (S.held store.new) (S.tree store.old) (S.tree store.new)) }
    ensures told { IfOk result (λ answer. MatchBool answer (NegationCloses (Normal (step (view_setting world.now))) R.closed (branch_of (S.tree store.old) branch.now) (S.tree store.old id)) (NegationCloses (Normal (step (view_setting world.now))) R.closed (branch_of (S.tree store.old) branch.now) (S.tree store.old id) → ⊥)) }
{
    let kids = alone(alloc, id)?;
    let negation = store.make(Head::Not, kids.as_slice())?;
    let normal = rules.normal(alloc, store, negation, world)?;
    let closes = would_close(alloc, &*store, rules, branch, normal)?;
    Ok(closes)
}

/// Whether a formula is among the literals of the branch, or a literal whose negation would close it.
fn holds<S: TermStore, R: ChangeRules<S>>(
    alloc: Global,
    store: &mut S,
    rules: &mut R,
    branch: &IdBranch<S::Id>,
    id: S::Id,
    world: &Setting,
) -> Result<bool, NoMemory>
    requires ready { R.ready rules.old store.old }
    requires regular { is_regular (view_setting world.now) ≡ true }
    requires held { BranchHeld (S.held store.old) branch.now }
    requires id { S.held store.old id }
    requires formula { fits formula (S.tree store.old id) ≡ true }
    ensures ready { OnOk result (R.ready rules.new store.new) }
    ensures older { OnOk result (KeepsOlder (S.held store.old) (S.held store.new) (S.tree store.old) (S.tree store.new)) }
    ensures told { IfOk result (λ answer. MatchBool answer (Holds (Normal (step (view_setting world.now))) R.closed (branch_of (S.tree store.old) branch.now) (S.tree store.old id)) (Holds (Normal (step (view_setting world.now))) R.closed (branch_of (S.tree store.old) branch.now) (S.tree store.old id) → ⊥)) }
{
    let among = rules.is_literal(alloc, &*store, branch, id)?;
    if among {
        return Ok(true);
    }
    if !has_kind(Kind::Literal, store.head(id)) {
        return Ok(false);
    }
    let closes = negation_closes(alloc, store, rules, branch, id, world)?;
    Ok(closes)
}

/// Whether one of some formulas holds.
fn some_holds<S: TermStore, R: ChangeRules<S>>(
    alloc: Global,
    store: &mut S,
    rules: &mut R,
    branch: &IdBranch<S::Id>,
    ids: &[S::Id],
    world: &Setting,
) -> Result<bool, NoMemory>
    requires ready { R.ready rules.old store.old }
    requires regular { is_regular (view_setting world.now) ≡ true }
    requires held { BranchHeld (S.held store.old) branch.now }
    requires ids { All (S.held store.old) ids.now }
    requires formulas { list_all (fits formula) (map (S.tree store.old) ids.now) ≡ true }
    ensures ready { OnOk result (R.ready rules.new store.new) }
    ensures older { OnOk result (KeepsOlder (S.held store.old) (S.held store.new) (S.tree store.old) (S.tree store.new)) }
    ensures told { IfOk result (λ answer. MatchBool answer (SomeSo (Holds (Normal (step (view_setting world.now))) R.closed (branch_of (S.tree store.old) branch.now)) (map (S.tree store.old) ids.now)) (SomeSo (Holds (Normal (step (view_setting world.now))) R.closed (branch_of (S.tree store.old) branch.now)) (map (S.tree store.old) ids.now) → ⊥)) }
{
    for at in 0..ids.len() {
        let so = holds(alloc, store, rules, branch, ids[at], world)?;
        if so {
            return Ok(true);
        }
    }
    Ok(false)
}

/// Whether a formula is a disjunction with a disjunct that holds.
fn has_true<S: TermStore, R: ChangeRules<S>>(
    alloc: Global,
    store: &mut S,
    rules: &mut R,
    branch: &IdBranch<S::Id>,
    id: S::Id,
    world: &Setting,
) -> Result<bool, NoMemory>
    requires ready { R.ready rules.old store.old }
    requires regular { is_regular (view_setting world.now) ≡ true }
    requires held { BranchHeld (S.held store.old) branch.now }
    requires id { S.held store.old id }
    ensures ready { OnOk result (R.ready rules.new store.new) }
    ensures older { OnOk result (KeepsOlder (S.held store.old) (S.held store.new) (S.tree store.old) (S.tree store.new)) }
    ensures told { IfOk result (λ answer. MatchBool answer (HasTrue (Normal (step (view_setting world.now))) R.closed (branch_of (S.tree store.old) branch.now) (S.tree store.old id)) (HasTrue (Normal (step (view_setting world.now))) R.closed (branch_of (S.tree store.old) branch.now) (S.tree store.old id) → ⊥)) }
{
    if !has_kind(Kind::Or, store.head(id)) {
        return Ok(false);
    }
    let kids = Vec::from_slice(alloc, store.kids(id))?;
    let so = some_holds(alloc, store, rules, branch, kids.as_slice(), world)?;
    Ok(so)
}

/// The place of the first disjunction that waits and has a disjunct that holds.
fn first_true<S: TermStore, R: ChangeRules<S>>(
    alloc: Global,
    store: &mut S,
    rules: &mut R,
    branch: &IdBranch<S::Id>,
    world: &Setting,
) -> Result<Option<usize>, NoMemory>
    requires ready { R.ready rules.old store.old }
    requires regular { is_regular (view_setting world.now) ≡ true }
    requires held { BranchHeld (S.held store.old) branch.now }
    ensures ready { OnOk result (R.ready rules.new store.new) }
    ensures older { OnOk result (KeepsOlder (S.held store.old) (S.held store.new) (S.tree store.old) (S.tree store.new)) }
    ensures first { IfOk result (IsFirst (HasTrue (Normal (step (view_setting world.now))) R.closed (branch_of (S.tree store.old) branch.now)) (map (S.tree store.old) branch.now.waiting)) }
{
    let waiting = branch.waiting.as_slice();
    for at in 0..waiting.len() {
        let so = has_true(alloc, store, rules, branch, waiting[at], world)?;
        if so {
            return Ok(Some(at));
        }
    }
    Ok(None)
}

/// The first disjunction that waits and has a disjunct that holds is dropped.
pub fn drop_or<S: TermStore, R: ChangeRules<S>>(
    alloc: Global,
    store: &mut S,
    rules: &mut R,
    branch: &IdBranch<S::Id>,
    world: &Setting,
) -> Result<Option<IdBranch<S::Id>>, NoMemory>
    requires ready { R.ready rules.old store.old }
    requires regular { is_regular (view_setting world.now) ≡ true }
    requires held { BranchHeld (S.held store.old) branch.now }
    ensures ready { OnOk result (R.ready rules.new store.new) }
    ensures older { OnOk result (KeepsOlder (S.held store.old) (S.held store.new) (S.tree store.old) (S.tree store.new)) }
    ensures held { IfOk result (MadeHeld (S.held store.new)) }
    ensures tried { IfOk result (λ made. Tried (Drops (Normal (step (view_setting world.now))) R.closed) (branch_of (S.tree store.old) branch.now) (branch_made (S.tree store.new) made)) }
{
    let found = first_true(alloc, store, rules, branch, world)?;
    match found {
        None => Ok(None),
        Some(at) => {
            let none = Vec::new(alloc);
            let made = with_kids(alloc, branch, at, none.as_slice())?;
            Ok(Some(made))
        }
    }
}
