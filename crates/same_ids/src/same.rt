// Whether two ids stand for one tree.
ghost use Rattle.std.specs.Prelude.{◌≡◌};
ghost use Rattle.qed_terms.specs.Order.{same, same_head};

use qed_terms::{Head, TermStore};

fn same_head(left: &Head, right: &Head) -> bool
    ensures { result ≡ same_head left.now right.now }
{
    left == right
}

/// Whether two ids stand for the same tree.
#[tactic(auto, using(crate::proofs::Alike::alike_laws))]
pub fn is_same<S: TermStore>(store: &S, left: S::Id, right: S::Id) -> bool
    requires left { S.held store.now left }
    requires right { S.held store.now right }
    ensures { result ≡ same (S.tree store.now left) (S.tree store.now right) }
{
    if !same_head(store.head(left), store.head(right)) {
        return false;
    }
    let kids = store.kids(left);
    let others = store.kids(right);
    if kids.len() != others.len() {
        return false;
    }
    for at in 0..kids.len() {
        if !is_same(store, kids[at], others[at]) {
            return false;
        }
    }
    true
}
