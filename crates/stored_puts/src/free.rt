// Free names of what a store holds.
ghost use Rattle.std.specs.Prelude.{◌≡◌};
ghost use Rattle.qed_terms.specs.Free.{is_free};

use crate::heads::{binds, is_free_there, is_this};
use qed_terms::{Sort, TermStore};

/// Whether a name of a sort is free in a term or a formula.
pub fn is_free<S: TermStore>(store: &S, name: &[u8], sort: Sort, id: S::Id) -> bool
    requires { S.held store.now id }
    ensures { result ≡ is_free name.now sort (S.tree store.now id) }
{
    let head = store.head(id);
    if is_this(name, sort, head) {
        return true;
    }
    let bound = binds(name, sort, head);
    let kids = store.kids(id);
    for at in 0..kids.len() {
        let free = is_free(store, name, sort, kids[at]);
        if is_free_there(bound, at, free) {
            return true;
        }
    }
    false
}
