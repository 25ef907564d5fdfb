// The changes of a branch in their order: each function is one change or, where that doesn't apply, the next function.
ghost use Rattle.std.specs.Prelude.{◌≡◌, true, OnOk, IfOk};
ghost use Rattle.qed_terms.specs.Setting.{is_regular};
ghost use Rattle.qed_terms.specs.Store.{KeepsOlder};
ghost use Rattle.qed_terms.specs.View.{view_setting};
ghost use Rattle.qed_rules.specs.Rules.{step};
ghost use Rattle.qed_simplify.specs.Normal.{Normal};
ghost use Rattle.branches.specs.Steps.{Tried};
ghost use Rattle.branches.specs.Ids.{branch_of, branch_made, BranchHeld, MadeHeld};
ghost use Rattle.branch_changes.specs.Changes.{FromDrops, FromEliminates, FromWitnesses, FromTakesApart, Changes};

use branch_changes::ChangeRules;
use changed_branches::{drop_or, move_literal, remove_disjunct, take_apart};
use qed_terms::{IdBranch, Setting, TermStore};
use std::alloc::Global;
use variable_changes::eliminate_variable;
use witness_changes::witness_exists;
use wp_base::NoMemory;

// An `or` is dropped, or a disjunct is removed.
fn from_drops<S: TermStore, R: ChangeRules<S>>(
    alloc: Global,
    store: &mut S,
    rules: &mut R,
    branch: &IdBranch<S::Id>,
    world: &Setting,
) -> Result<Option<IdBranch<S::Id>>, NoMemory>
    requires ready { R.ready rules.old store.old }
    requires regular { is_regular (view_setting world.now) ≡ true }
    requires held { BranchHeld (S.held store.old) branch.now }
    ensures ready { OnOk result (R.ready rules.new store.new) }
    ensures older { OnOk result (KeepsOlder (S.held store.old) (S.held store.new) (S.tree store.old) (S.tree store.new)) }
    ensures held { IfOk result (MadeHeld (S.held store.new)) }
    ensures tried { IfOk result (λ made. Tried (FromDrops (Normal (step (view_setting world.now))) R.closed) (branch_of (S.tree store.old) branch.now) (branch_made (S.tree store.new) made)) }
{
    let first = drop_or(alloc, store, rules, branch, world)?;
    match first {
        Some(made) => Ok(Some(made)),
        None => {
            let next = remove_disjunct(alloc, store, rules, branch)?;
            Ok(next)
        }
    }
}

// A variable is eliminated, or what comes after that.
fn from_eliminates<S: TermStore, R: ChangeRules<S>>(
    alloc: Global,
    store: &mut S,
    rules: &mut R,
    branch: &IdBranch<S::Id>,
    world: &Setting,
) -> Result<Option<IdBranch<S::Id>>, NoMemory>
    requires ready { R.ready rules.old store.old }
    requires regular { is_regular (view_setting world.now) ≡ true }
    requires held { BranchHeld (S.held store.old) branch.now }
    ensures ready { OnOk result (R.ready rules.new store.new) }
    ensures older { OnOk result (KeepsOlder (S.held store.old) (S.held store.new) (S.tree store.old) (S.tree store.new)) }
    ensures held { IfOk result (MadeHeld (S.held store.new)) }
    ensures tried { IfOk result (λ made. Tried (FromEliminates (Normal (step (view_setting world.now))) R.closed) (branch_of (S.tree store.old) branch.now) (branch_made (S.tree store.new) made)) }
{
    let first = eliminate_variable(alloc, store, rules, branch, world)?;
    match first {
        Some(made) => Ok(Some(made)),
        None => {
            let next = from_drops(alloc, store, rules, branch, world)?;
            Ok(next)
        }
    }
}

// A witness is put, or what comes after that.
fn from_witnesses<S: TermStore, R: ChangeRules<S>>(
    alloc: Global,
    store: &mut S,
    rules: &mut R,
    branch: &IdBranch<S::Id>,
    world: &Setting,
) -> Result<Option<IdBranch<S::Id>>, NoMemory>
    requires ready { R.ready rules.old store.old }
    requires regular { is_regular (view_setting world.now) ≡ true }
    requires held { BranchHeld (S.held store.old) branch.now }
    ensures ready { OnOk result (R.ready rules.new store.new) }
    ensures older { OnOk result (KeepsOlder (S.held store.old) (S.held store.new) (S.tree store.old) (S.tree store.new)) }
    ensures held { IfOk result (MadeHeld (S.held store.new)) }
    ensures tried { IfOk result (λ made. Tried (FromWitnesses (Normal (step (view_setting world.now))) R.closed) (branch_of (S.tree store.old) branch.now) (branch_made (S.tree store.new) made)) }
{
    let first = witness_exists(alloc, store, rules, branch, world)?;
    match first {
        Some(made) => Ok(Some(made)),
        None => {
            let next = from_eliminates(alloc, store, rules, branch, world)?;
            Ok(next)
        }
    }
}

// An `and` is taken apart, or what comes after that.
fn from_takes_apart<S: TermStore, R: ChangeRules<S>>(
    alloc: Global,
    store: &mut S,
    rules: &mut R,
    branch: &IdBranch<S::Id>,
    world: &Setting,
) -> Result<Option<IdBranch<S::Id>>, NoMemory>
    requires ready { R.ready rules.old store.old }
    requires regular { is_regular (view_setting world.now) ≡ true }
    requires held { BranchHeld (S.held store.old) branch.now }
    ensures ready { OnOk result (R.ready rules.new store.new) }
    ensures older { OnOk result (KeepsOlder (S.held store.old) (S.held store.new) (S.tree store.old) (S.tree store.new)) }
    ensures held { IfOk result (MadeHeld (S.held store.new)) }
    ensures tried { IfOk result (λ made. Tried (FromTakesApart (Normal (step (view_setting world.now))) R.closed) (branch_of (S.tree store.old) branch.now) (branch_made (S.tree store.new) made)) }
{
    let first = take_apart(alloc, &*store, branch)?;
    match first {
        Some(made) => Ok(Some(made)),
        None => {
            let next = from_witnesses(alloc, store, rules, branch, world)?;
            Ok(next)
        }
    }
}

/// The branch after the first change that applies, in their order; none where none does.
pub fn change_branch<S: TermStore, R: ChangeRules<S>>(
    alloc: Global,
    store: &mut S,
    rules: &mut R,
    branch: &IdBranch<S::Id>,
    world: &Setting,
) -> Result<Option<IdBranch<S::Id>>, NoMemory>
    requires ready { R.ready rules.old store.old }
    requires regular { is_regular (view_setting world.now) ≡ true }
    requires held { BranchHeld (S.held store.old) branch.now }
    ensures ready { OnOk result (R.ready rules.new store.new) }
    ensures older { OnOk result (KeepsOlder (S.held store.old) (S.held store.new) (S.tree store.old) (S.tree store.new)) }
    ensures held { IfOk result (MadeHeld (S.held store.new)) }
    ensures tried { IfOk result (λ made. Tried (Changes (Normal (step (view_setting world.now))) R.closed) (branch_of (S.tree store.old) branch.now) (branch_made (S.tree store.new) made)) }
{
    let first = move_literal(alloc, &*store, branch)?;
    match first {
        Some(made) => Ok(Some(made)),
        None => {
            let next = from_takes_apart(alloc, store, rules, branch, world)?;
            Ok(next)
        }
    }
}
