// Whether a name stands in a branch.
ghost use Rattle.std.specs.Prelude.{◌≡◌, map, All};
ghost use Rattle.std.specs.Str.{bytes_eq};
ghost use Rattle.branches.specs.Ids.{branch_of, BranchHeld};
ghost use Rattle.branch_changes.specs.NewNames.{is_named, is_in, is_among, is_in_branch};

use qed_terms::{Head, IdBranch, TermStore};

fn is_same(name: &[u8], other: &[u8]) -> bool
    ensures { result ≡ bytes_eq name.now other.now }
{
    name == other
}

/// Whether a head is a variable of this name, or binds it.
fn is_named(name: &[u8], head: &Head) -> bool
    ensures { result ≡ is_named name.now head.now }
{
    match head {
        Head::Var(other, _) => is_same(name, other.bytes()),
        Head::Forall(other) => is_same(name, other.bytes()),
        Head::Exists(other) => is_same(name, other.bytes()),
        _ => false,
    }
}

/// Whether the name stands in a term or a formula, free or bound.
fn is_in<S: TermStore>(store: &S, name: &[u8], id: S::Id) -> bool
    requires { S.held store.now id }
    ensures { result ≡ is_in name.now (S.tree store.now id) }
{
    if is_named(name, store.head(id)) {
        return true;
    }
    let kids = store.kids(id);
    for at in 0..kids.len() {
        if is_in(store, name, kids[at]) {
            return true;
        }
    }
    false
}

/// Whether it stands in one of some formulas.
fn is_among<S: TermStore>(store: &S, name: &[u8], ids: &[S::Id]) -> bool
    requires { All (S.held store.now) ids.now }
    ensures { result ≡ is_among name.now (map (S.tree store.now) ids.now) }
{
    for at in 0..ids.len() {
        if is_in(store, name, ids[at]) {
            return true;
        }
    }
    false
}

/// Whether it stands in the branch.
pub fn is_in_branch<S: TermStore>(store: &S, name: &[u8], branch: &IdBranch<S::Id>) -> bool
    requires { BranchHeld (S.held store.now) branch.now }
    ensures { result ≡ is_in_branch name.now (branch_of (S.tree store.now) branch.now) }
{
    is_among(store, name, branch.literals.as_slice())
        || is_among(store, name, branch.waiting.as_slice())
}
