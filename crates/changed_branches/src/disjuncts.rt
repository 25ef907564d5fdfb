// A disjunct that would close the branch is removed.
ghost use Rattle.std.specs.Prelude.{◌≡◌, ◌+◌, ◌<◌, ◌++◌, take, drop, map, length, OnOk, IfOk};
ghost use Rattle.qed_terms.specs.Nodes.{kids_of};
ghost use Rattle.qed_terms.specs.Store.{KeepsOlder};
ghost use Rattle.branches.specs.Branch.{IsOr};
ghost use Rattle.branches.specs.Steps.{Tried};
ghost use Rattle.branches.specs.Ids.{branch_of, branch_made, BranchHeld, MadeHeld};
ghost use Rattle.branch_changes.specs.Changes.{Removes, rest_of_or};

use crate::closing::first_removal;
use crate::moves::without;
use branch_changes::ChangeRules;
use branches::in_place;
use qed_terms::{Head, IdBranch, TermStore};
use std::alloc::Global;
use wp_base::NoMemory;

/// What is left of a disjunction without one of its disjuncts.
fn left_of_or<S: TermStore>(
    alloc: Global,
    store: &mut S,
    id: S::Id,
    disjunct: usize,
) -> Result<S::Id, NoMemory>
    requires held { S.held store.old id }
    requires or { IsOr (S.tree store.old id) }
    requires within { disjunct < length (kids_of (S.tree store.old id)) }
    ensures older { OnOk result (KeepsOlder (S.held store.old) (S.held store.new) (S.tree store.old) (S.tree store.new)) }
    ensures held { IfOk result (λ left. S.held store.new left) }
    ensures left { IfOk result (λ left. S.tree store.new left ≡ rest_of_or (take disjunct (kids_of (S.tree store.old id)) ++ drop (disjunct + 1) (kids_of (S.tree store.old id)))) }
{
    let rest = without(alloc, store.kids(id), disjunct)?;
    let rest = rest.into_vec();
    if rest.len() == 0 {
        let left = store.make(Head::False, rest.as_slice())?;
        return Ok(left);
    }
    if rest.len() == 1 {
        return Ok(rest[0]);
    }
    let left = store.make(Head::Or, rest.as_slice())?;
    Ok(left)
}

/// The first disjunction that waits with a disjunct that would close the branch loses the first such disjunct.
pub fn remove_disjunct<S: TermStore, R: ChangeRules<S>>(
    alloc: Global,
    store: &mut S,
    rules: &mut R,
    branch: &IdBranch<S::Id>,
) -> Result<Option<IdBranch<S::Id>>, NoMemory>
    requires ready { R.ready rules.old store.old }
    requires held { BranchHeld (S.held store.old) branch.now }
    ensures ready { OnOk result (R.ready rules.new store.new) }
    ensures older { OnOk result (KeepsOlder (S.held store.old) (S.held store.new) (S.tree store.old) (S.tree store.new)) }
    ensures held { IfOk result (MadeHeld (S.held store.new)) }
    ensures tried { IfOk result (λ made. Tried (Removes R.closed) (branch_of (S.tree store.old) branch.now) (branch_made (S.tree store.new) made)) }
{
    let removal = first_removal(alloc, &*store, rules, branch)?;
    match removal {
        None => Ok(None),
        Some(removal) => {
            let id = branch.waiting.as_slice()[removal.at];
            let left = left_of_or(alloc, store, id, removal.disjunct)?;
            let made = in_place(alloc, branch, removal.at, left)?;
            Ok(Some(made))
        }
    }
}
