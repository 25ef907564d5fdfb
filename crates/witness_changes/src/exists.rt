// The first existence that waits is replaced by its bounds and its body for a new name.
ghost use Rattle.std.specs.Prelude.{◌≡◌, true, map, All, OnOk, IfOk};
ghost use Rattle.qed_terms.specs.declared.head.Sort.TheVariants as sorts;
ghost use Rattle.qed_terms.specs.Setting.{is_regular};
ghost use Rattle.qed_terms.specs.Store.{KeepsOlder};
ghost use Rattle.qed_terms.specs.View.{view_setting};
ghost use Rattle.qed_rules.specs.Rules.{step};
ghost use Rattle.qed_simplify.specs.Normal.{Normal};
ghost use Rattle.branches.specs.Branch.{IsExists};
ghost use Rattle.branches.specs.Steps.{Tried};
ghost use Rattle.branches.specs.Ids.{branch_of, branch_made, BranchHeld, MadeHeld};
ghost use Rattle.branch_changes.specs.Changes.{Among, AreWitnessed, Witnesses};

use branch_changes::{ChangeRules, IdGiven};
use branches::{Kind, first_of, with_kids};
use changed_branches::{Range, range_of, witness_normals, witness_term};
use qed_terms::{IdBranch, Setting, Sort, TermStore};
use std::alloc::Global;
use wp_base::{NoMemory, Str};

// A term that is to stand for the name of an integer.
fn integer_given<I: Copy + Drop>(name: Str, term: I) -> IdGiven<I>
    ensures name { result.name ≡ name }
    ensures sort { result.sort ≡ sorts.Int }
    ensures term { result.term ≡ term }
{
    IdGiven {
        name,
        sort: Sort::Int,
        term,
    }
}

/// The bounds and the body of an existence that waits, for the first new name of the branch, in normal form.
fn witnessed<S: TermStore, R: ChangeRules<S>>(
    alloc: Global,
    store: &mut S,
    rules: &mut R,
    branch: &IdBranch<S::Id>,
    id: S::Id,
    world: &Setting,
) -> Result<Vec<S::Id>, NoMemory>
    requires ready { R.ready rules.old store.old }
    requires regular { is_regular (view_setting world.now) ≡ true }
    requires held { BranchHeld (S.held store.old) branch.now }
    requires id { S.held store.old id }
    requires waits { Among (S.tree store.old id) (map (S.tree store.old) branch.now.waiting) }
    requires exists { IsExists (S.tree store.old id) }
    ensures ready { OnOk result (R.ready rules.new store.new) }
    ensures older { OnOk result (KeepsOlder (S.held store.old) (S.held store.new) (S.tree store.old) (S.tree store.new)) }
    ensures held { IfOk result (λ made. All (S.held store.new) made.items) }
    ensures are { IfOk result (λ made. AreWitnessed (Normal (step (view_setting world.now))) (branch_of (S.tree store.old) branch.now) (S.tree store.old id) (map (S.tree store.new) made.items)) }
{
    let range = range_of(alloc, &*store, id)?;
    let new = witness_term(alloc, store, branch)?;
    let Range {
        name,
        low,
        high,
        body,
    } = range;
    let given = integer_given(name, new.term);
    let made = witness_normals(alloc, store, rules, &given, low, high, body, world)?;
    Ok(made)
}

/// The first existence that waits is replaced by its bounds and its body for the first of sk1, sk2, .. that isn't in the branch.
pub fn witness_exists<S: TermStore, R: ChangeRules<S>>(
    alloc: Global,
    store: &mut S,
    rules: &mut R,
    branch: &IdBranch<S::Id>,
    world: &Setting,
) -> Result<Option<IdBranch<S::Id>>, NoMemory>
    requires ready { R.ready rules.old store.old }
    requires regular { is_regular (view_setting world.now) ≡ true }
    requires held { BranchHeld (S.held store.old) branch.now }
    ensures ready { OnOk result (R.ready rules.new store.new) }
    ensures older { OnOk result (KeepsOlder (S.held store.old) (S.held store.new) (S.tree store.old) (S.tree store.new)) }
    ensures held { IfOk result (MadeHeld (S.held store.new)) }
    ensures tried { IfOk result (λ made. Tried (Witnesses (Normal (step (view_setting world.now)))) (branch_of (S.tree store.old) branch.now) (branch_made (S.tree store.new) made)) }
{
    match first_of(&*store, branch.waiting.as_slice(), Kind::Exists) {
        None => Ok(None),
        Some(at) => {
            let id = branch.waiting.as_slice()[at];
            let parts = witnessed(alloc, store, rules, branch, id, world)?;
            let made = with_kids(alloc, branch, at, parts.as_slice())?;
            Ok(Some(made))
        }
    }
}
