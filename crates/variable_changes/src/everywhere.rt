// Whether a term can be put in the places of a variable everywhere in a branch.
ghost use Rattle.std.specs.Prelude.{◌≡◌, [], map, All, option_map, OnOk, IfOk};
ghost use Rattle.std.specs.List.{list_all};
ghost use Rattle.branches.specs.Ids.{branch_of, BranchHeld};
ghost use Rattle.branch_changes.specs.Givens.{may_put, can_put, first_put, with_given};
ghost use Rattle.branch_changes.specs.Ids.{given_of};
ghost use Rattle.equality_variables.specs.Forms.{GivenHeld};

use branch_changes::{ChangeRules, IdGiven};
use qed_terms::{IdBranch, TermStore};
use std::alloc::Global;
use wp_base::NoMemory;

/// Whether it may be put in each of some formulas.
fn all_may_put<S: TermStore, R: ChangeRules<S>>(
    alloc: Global,
    store: &S,
    rules: &mut R,
    given: &IdGiven<S::Id>,
    ids: &[S::Id],
) -> Result<bool, NoMemory>
    requires ready { R.ready rules.old store.now }
    requires term { S.held store.now given.now.term }
    requires held { All (S.held store.now) ids.now }
    ensures ready { OnOk result (R.ready rules.new store.now) }
    ensures may { IfOk result (λ answer. answer ≡ list_all (may_put (given_of (S.tree store.now) given.now)) (map (S.tree store.now) ids.now)) }
{
    for at in 0..ids.len() {
        let may = rules.may_put(alloc, store, given, ids[at])?;
        if !may {
            return Ok(false);
        }
    }
    Ok(true)
}

/// Whether it may be put in each formula of the branch.
fn can_put<S: TermStore, R: ChangeRules<S>>(
    alloc: Global,
    store: &S,
    rules: &mut R,
    branch: &IdBranch<S::Id>,
    given: &IdGiven<S::Id>,
) -> Result<bool, NoMemory>
    requires ready { R.ready rules.old store.now }
    requires held { BranchHeld (S.held store.now) branch.now }
    requires term { S.held store.now given.now.term }
    ensures ready { OnOk result (R.ready rules.new store.now) }
    ensures may { IfOk result (λ answer. answer ≡ can_put (branch_of (S.tree store.now) branch.now) (given_of (S.tree store.now) given.now)) }
{
    let may = all_may_put(alloc, store, rules, given, branch.literals.as_slice())?;
    if !may {
        return Ok(false);
    }
    let rest = all_may_put(alloc, store, rules, given, branch.waiting.as_slice())?;
    Ok(rest)
}

/// A variable with its term, where this can be put everywhere.
pub fn put_first<S: TermStore, R: ChangeRules<S>>(
    alloc: Global,
    store: &S,
    rules: &mut R,
    branch: &IdBranch<S::Id>,
    given: Option<IdGiven<S::Id>>,
) -> Result<Option<IdGiven<S::Id>>, NoMemory>
    requires ready { R.ready rules.old store.now }
    requires held { BranchHeld (S.held store.now) branch.now }
    requires given { GivenHeld (S.held store.now) (S.tree store.now) given }
    ensures ready { OnOk result (R.ready rules.new store.now) }
    ensures first { IfOk result (λ first. option_map (given_of (S.tree store.now)) first ≡ first_put (branch_of (S.tree store.now) branch.now) (with_given (option_map (given_of (S.tree store.now)) given) [])) }
    ensures held { IfOk result (GivenHeld (S.held store.now) (S.tree store.now)) }
{
    match given {
        None => Ok(None),
        Some(given) => {
            let can = can_put(alloc, store, rules, branch, &given)?;
            if !can {
                return Ok(None);
            }
            Ok(Some(given))
        }
    }
}
