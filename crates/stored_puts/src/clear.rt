// Where a term may be put in the places of a variable.
ghost use Rattle.std.specs.Prelude.{◌≡◌};
ghost use Rattle.branch_changes.specs.Givens.{may_put};
ghost use Rattle.branch_changes.specs.Ids.{given_of};
ghost use Rattle.stored_puts.specs.Kids.{clear_at, covers};

use crate::free::is_free;
use crate::heads::{binds, is_hidden, is_unclear_there, is_under};
use branch_changes::IdGiven;
use qed_terms::{Head, Sort, TermStore};

/// Whether the head is a quantifier over a name of the term.
fn covers<S: TermStore>(store: &S, term: S::Id, head: &Head) -> bool
    requires { S.held store.now term }
    ensures { result ≡ covers (S.tree store.now term) head.now }
{
    match head {
        Head::Forall(name) | Head::Exists(name) => { is_free(store, name.bytes(), Sort::Int, term) }
        Head::Num(_)
        | Head::Var(_, _)
        | Head::Term(_)
        | Head::Ite
        | Head::App(_)
        | Head::Form(_)
        | Head::True
        | Head::False
        | Head::Not
        | Head::And
        | Head::Or
        | Head::Imp
        | Head::Iff => false,
    }
}

// Whether no quantifier around a place of the variable binds a name of the term, where `under` says that one around the node does.
fn is_clear<S: TermStore>(store: &S, given: &IdGiven<S::Id>, under: bool, id: S::Id) -> bool
    requires term { S.held store.now given.now.term }
    requires held { S.held store.now id }
    ensures { result ≡ clear_at given.now.sort under given.now.name (S.tree store.now given.now.term) (S.tree store.now id) }
{
    let head = store.head(id);
    let name = given.name.bytes();
    if is_hidden(name, given.sort, head, under) {
        return false;
    }
    let bound = binds(name, given.sort, head);
    let covered = covers(store, given.term, head);
    let kids = store.kids(id);
    for at in 0..kids.len() {
        let clear = is_clear(store, given, is_under(covered, at, under), kids[at]);
        if is_unclear_there(bound, at, clear) {
            return false;
        }
    }
    true
}

/// Whether a term may be put in the places of a variable.
pub fn may_put<S: TermStore>(store: &S, given: &IdGiven<S::Id>, id: S::Id) -> bool
    requires term { S.held store.now given.now.term }
    requires held { S.held store.now id }
    ensures { result ≡ may_put (given_of (S.tree store.now) given.now) (S.tree store.now id) }
{
    match given.sort {
        Sort::Int | Sort::Memory => is_clear(store, given, false, id),
        Sort::Table => false,
    }
}
