// Whether a typed annotation is over plain integers (ACSL 2.2).
ghost use Rattle.std.specs.Prelude.{◌≡◌, ℕ, suc, ◌&&◌, if◌then◌else◌};
ghost use Rattle.acsl_trees.specs.Tree.{trees_of, view_tree, view_trees};
ghost use Rattle.plain_annotations.specs.Plain as spec;
ghost use Rattle.plain_trees.specs.Around.{Reaches};
ghost use Rattle.plain_trees.specs.View.{view_place};

use crate::nodes::{Place, node_fits};
use crate::roles::{is_binder, is_read, role_of};
use acsl_trees::Tree;

// One name more is around.
#[tactic(auto, using(crate::proofs::Counting::around_laws))]
fn inside(around: u64) -> u64
    ensures { (d : ℕ) → Reaches around d → Reaches result (suc d) }
{
    if around < 4_294_967_296 {
        around + 1
    } else {
        around
    }
}

// How many names are around a kid. A name is bound in the last kid of a binder.
fn around_kid(in_binder: bool, is_last: bool, around: u64) -> u64
    ensures { (d : ℕ) → Reaches around d → Reaches result (if in_binder && is_last then suc d else d) }
{
    if in_binder && is_last {
        inside(around)
    } else {
        around
    }
}

#[cycle(plain_trees)]
#[tactic(auto, using(crate::proofs::Walking::tree_laws))]
fn is_plain_under(tree: &Tree, place: Place, takes: &[Option<usize>], around: u64) -> bool
    ensures { (d : ℕ) → Reaches around d → result ≡ spec.is_plain (view_place place takes.now) d (view_tree tree.now) }
{
    let kids = tree.kids.as_slice();
    let fits = node_fits(place, takes, around, tree.head, kids);
    if !fits {
        return false;
    }
    let role = role_of(tree.head);
    if is_read(role) {
        return true;
    }
    are_plain_under(kids, place, takes, around, is_binder(role))
}

#[cycle(plain_trees)]
#[tactic(auto, using(crate::proofs::Walking::kid_laws))]
fn are_plain_under(
    kids: &[Tree],
    place: Place,
    takes: &[Option<usize>],
    around: u64,
    in_binder: bool,
) -> bool
    ensures { (d : ℕ) → Reaches around d → result ≡ spec.are_plain (view_place place takes.now) d in_binder (trees_of (view_trees kids.now)) }
{
    for at in 0..kids.len() {
        let names = around_kid(in_binder, at + 1 == kids.len(), around);
        let fits = is_plain_under(&kids[at], place, takes, names);
        if !fits {
            return false;
        }
    }
    true
}

/// Whether an annotation is over plain integers, where these may be named, and logic functions that take so many integers, by their numbers.
#[tactic(auto, using(crate::proofs::Counting::none_around))]
pub(crate) fn is_plain(place: Place, takes: &[Option<usize>], tree: &Tree) -> bool
    ensures { result ≡ spec.is_plain (view_place place takes.now) 0 (view_tree tree.now) }
{
    is_plain_under(tree, place, takes, 0)
}
