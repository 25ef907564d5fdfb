// Whether a name is free in a term of a store.
ghost use Rattle.std.specs.Prelude.{◌≡◌, ◌<◌, ◌≤◌, false, length, take, map, All};
ghost use Rattle.std.specs.Str.{bytes_eq};
ghost use Rattle.qed_terms.specs.Free.{is_this, binds, is_free};
ghost use Rattle.qed_terms.specs.Tree.{head_of, size};
ghost use Rattle.equality_variables.specs.Names.{free_in};

use crate::heads::is_same;
use qed_terms::{Head, Sort, TermStore};

fn same_name(name: &[u8], other: &[u8]) -> bool
    ensures { result ≡ bytes_eq name.now other.now }
{
    name == other
}

/// Whether the head is this name.
fn is_this(name: &[u8], sort: Sort, head: &Head) -> bool
    ensures { result ≡ is_this name.now sort head.now }
{
    match head {
        Head::Var(other, own) => same_name(name, other.bytes()) && is_same(sort, *own),
        _ => false,
    }
}

/// Whether it binds this name.
fn binds(name: &[u8], sort: Sort, head: &Head) -> bool
    ensures { result ≡ binds name.now sort head.now }
{
    match head {
        Head::Forall(other) => same_name(name, other.bytes()) && is_same(sort, Sort::Int),
        Head::Exists(other) => same_name(name, other.bytes()) && is_same(sort, Sort::Int),
        _ => false,
    }
}

fn first_two<I: Copy + Drop>(items: &[I]) -> &[I]
    requires { 2 ≤ length items.now }
    ensures { result.now ≡ take 2 items.now }
{
    &items[..2]
}

/// The kids in which the head doesn't bind the name: all of them, or the bounds of a quantifier.
fn open_kids<'a, S: TermStore>(store: &'a S, name: &[u8], sort: Sort, id: S::Id) -> &'a [S::Id]
    requires { S.held store.now id }
    ensures held { All (S.held store.now) result.now }
    ensures smaller { All (λ k. size (S.tree store.now k) < size (S.tree store.now id)) result.now }
    ensures open { is_this name.now sort (head_of (S.tree store.now id)) ≡ false → is_free name.now sort (S.tree store.now id) ≡ free_in name.now sort (map (S.tree store.now) result.now) }
{
    let kids = store.kids(id);
    if binds(name, sort, store.head(id)) {
        return first_two(kids);
    }
    kids
}

/// Whether the name is free in a term or a formula.
pub fn is_free<S: TermStore>(store: &S, name: &[u8], sort: Sort, id: S::Id) -> bool
    requires { S.held store.now id }
    ensures { result ≡ is_free name.now sort (S.tree store.now id) }
{
    if is_this(name, sort, store.head(id)) {
        return true;
    }
    let kids = open_kids(store, name, sort, id);
    for at in 0..kids.len() {
        if is_free(store, name, sort, kids[at]) {
            return true;
        }
    }
    false
}
