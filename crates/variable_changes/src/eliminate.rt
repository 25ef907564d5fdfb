// An equality that gives a variable is dropped, and its term takes the variable's places.
ghost use Rattle.std.specs.Prelude.{◌≡◌, ◌<◌, ◌+◌, ◌++◌, true, length, take, drop, map, All, OnOk, IfOk};
ghost use Rattle.qed_terms.specs.Setting.{is_regular};
ghost use Rattle.qed_terms.specs.Store.{KeepsOlder};
ghost use Rattle.qed_terms.specs.View.{view_setting};
ghost use Rattle.qed_rules.specs.Rules.{step};
ghost use Rattle.qed_simplify.specs.Normal.{Normal};
ghost use Rattle.branches.specs.Steps.{Tried};
ghost use Rattle.branches.specs.Ids.{branch_of, branch_made, BranchHeld, MadeHeld};
ghost use Rattle.branch_changes.specs.Changes.{Eliminates, literals_of, others_of};
ghost use Rattle.branch_changes.specs.Givens.{can_put, may_stand_for};
ghost use Rattle.branch_changes.specs.Ids.{given_of};
ghost use Rattle.variable_changes.specs.Found.{IsReplaced};

use crate::literals::first_elimination;
use crate::putting::{put_all, sorted, without};
use branch_changes::{ChangeRules, IdGiven};
use qed_terms::{IdBranch, Setting, TermStore};
use std::alloc::Global;
use wp_base::{List, NoMemory};

/// The branch of some formulas that were literals, and of some that wait. Of the former those that are none wait last.
fn sorted_branch<S: TermStore>(
    alloc: Global,
    store: &S,
    literals: &[S::Id],
    waiting: Vec<S::Id>,
) -> Result<IdBranch<S::Id>, NoMemory>
    requires literals { All (S.held store.now) literals.now }
    requires waiting { All (S.held store.now) waiting.items }
    ensures held { IfOk result (BranchHeld (S.held store.now)) }
    ensures literals { IfOk result (λ made. map (S.tree store.now) made.literals ≡ literals_of (map (S.tree store.now) literals.now)) }
    ensures waiting { IfOk result (λ made. map (S.tree store.now) made.waiting ≡ map (S.tree store.now) waiting.items ++ others_of (map (S.tree store.now) literals.now)) }
{
    let still = sorted(alloc, store, literals, true)?;
    let others = sorted(alloc, store, literals, false)?;
    let mut waiting = waiting;
    waiting.extend_from_slice(others.as_slice())?;
    Ok(IdBranch {
        literals: List::from_vec(still),
        waiting: List::from_vec(waiting),
    })
}

/// The branch without the literal at a place, with the term in the places of the variable.
fn replaced<S: TermStore, R: ChangeRules<S>>(
    alloc: Global,
    store: &mut S,
    rules: &mut R,
    branch: &IdBranch<S::Id>,
    at: usize,
    given: &IdGiven<S::Id>,
    world: &Setting,
) -> Result<IdBranch<S::Id>, NoMemory>
    requires ready { R.ready rules.old store.old }
    requires regular { is_regular (view_setting world.now) ≡ true }
    requires held { BranchHeld (S.held store.old) branch.now }
    requires at { at < length branch.now.literals }
    requires term { S.held store.old given.now.term }
    requires stands { may_stand_for given.now.sort (S.tree store.old given.now.term) ≡ true }
    requires can { can_put (branch_of (S.tree store.old) branch.now) (given_of (S.tree store.old) given.now) ≡ true }
    ensures ready { OnOk result (R.ready rules.new store.new) }
    ensures older { OnOk result (KeepsOlder (S.held store.old) (S.held store.new) (S.tree store.old) (S.tree store.new)) }
    ensures held { IfOk result (BranchHeld (S.held store.new)) }
    ensures replaced { IfOk result (λ made. IsReplaced (Normal (step (view_setting world.now))) (given_of (S.tree store.old) given.now) (take at (map (S.tree store.old) branch.now.literals) ++ drop (at + 1) (map (S.tree store.old) branch.now.literals)) (map (S.tree store.old) branch.now.waiting) (branch_of (S.tree store.new) made)) }
{
    let others = without(alloc, branch.literals.as_slice(), at)?;
    let literals = put_all(alloc, store, rules, given, others.as_slice(), world)?;
    let waiting = put_all(alloc, store, rules, given, branch.waiting.as_slice(), world)?;
    let made = sorted_branch(alloc, &*store, literals.as_slice(), waiting)?;
    Ok(made)
}

/// The first literal that gives a variable which can be replaced everywhere is dropped, and the term takes the variable's places.
pub fn eliminate_variable<S: TermStore, R: ChangeRules<S>>(
    alloc: Global,
    store: &mut S,
    rules: &mut R,
    branch: &IdBranch<S::Id>,
    world: &Setting,
) -> Result<Option<IdBranch<S::Id>>, NoMemory>
    requires ready { R.ready rules.old store.old }
    requires regular { is_regular (view_setting world.now) ≡ true }
    requires held { BranchHeld (S.held store.old) branch.now }
    ensures ready { OnOk result (R.ready rules.new store.new) }
    ensures older { OnOk result (KeepsOlder (S.held store.old) (S.held store.new) (S.tree store.old) (S.tree store.new)) }
    ensures held { IfOk result (MadeHeld (S.held store.new)) }
    ensures tried { IfOk result (λ made. Tried (Eliminates (Normal (step (view_setting world.now)))) (branch_of (S.tree store.old) branch.now) (branch_made (S.tree store.new) made)) }
{
    let found = first_elimination(alloc, store, rules, branch)?;
    match found {
        None => Ok(None),
        Some(found) => {
            let made = replaced(alloc, store, rules, branch, found.at, &found.given, world)?;
            Ok(Some(made))
        }
    }
}
