// A term put in the places of a variable.
ghost use Rattle.std.specs.Prelude.{◌≡◌, true, if◌then◌else◌, OnOk, IfOk};
ghost use Rattle.qed_terms.specs.Store.{KeepsOlder};
ghost use Rattle.branch_changes.specs.Givens.{may_stand_for, put};
ghost use Rattle.branch_changes.specs.Ids.{given_of};

use crate::heads::{binds, is_body, is_place};
use branch_changes::IdGiven;
use qed_terms::TermStore;
use std::alloc::Global;
use wp_base::NoMemory;

/// The id of the term or the formula with the term in the places of the variable.
#[cycle(put)]
pub fn put_in<S: TermStore>(
    alloc: Global,
    store: &mut S,
    given: &IdGiven<S::Id>,
    id: S::Id,
) -> Result<S::Id, NoMemory>
    requires term { S.held store.old given.now.term }
    requires stands { may_stand_for given.now.sort (S.tree store.old given.now.term) ≡ true }
    requires held { S.held store.old id }
    ensures older { OnOk result (KeepsOlder (S.held store.old) (S.held store.new) (S.tree store.old) (S.tree store.new)) }
    ensures held { IfOk result (λ made. S.held store.new made) }
    ensures put { IfOk result (λ made. S.tree store.new made ≡ put (given_of (S.tree store.old) given.now) (S.tree store.old id)) }
{
    let head = store.head(id).copy(alloc)?;
    if is_place(given.name.bytes(), given.sort, &head) {
        return Ok(given.term);
    }
    let bound = binds(given.name.bytes(), given.sort, &head);
    let before = store.kids(id);
    let count = before.len();
    let mut kids = Vec::with_capacity(alloc, count)?;
    for at in 0..count {
        let current = store.kids(id);
        let kid = current[at];
        let made = put_kid(alloc, store, given, is_body(bound, at), kid)?;
        kids.push(made)?;
    }
    let whole = store.make(head, kids.as_slice())?;
    Ok(whole)
}

// The kid itself where it is kept.
#[cycle(put)]
fn put_kid<S: TermStore>(
    alloc: Global,
    store: &mut S,
    given: &IdGiven<S::Id>,
    kept: bool,
    id: S::Id,
) -> Result<S::Id, NoMemory>
    requires term { S.held store.old given.now.term }
    requires stands { may_stand_for given.now.sort (S.tree store.old given.now.term) ≡ true }
    requires held { S.held store.old id }
    ensures older { OnOk result (KeepsOlder (S.held store.old) (S.held store.new) (S.tree store.old) (S.tree store.new)) }
    ensures held { IfOk result (λ made. S.held store.new made) }
    ensures put { IfOk result (λ made. S.tree store.new made ≡ (if kept then S.tree store.old id else put (given_of (S.tree store.old) given.now) (S.tree store.old id))) }
{
    if kept {
        return Ok(id);
    }
    let made = put_in(alloc, store, given, id)?;
    Ok(made)
}
