// Whether two annotations are one tree.
ghost use Rattle.std.specs.Prelude.{◌≡◌};
ghost use Rattle.acsl_trees.specs.Tree.{trees_of, view_tree, view_trees};
ghost use Rattle.binder_names.specs.Trees as spec;

use crate::keys::is_same_head;
use acsl_trees::Tree;

/// Whether two trees are the same.
#[cycle(same_trees)]
#[tactic(auto, using(crate::proofs::Comparing::tree_laws))]
pub(crate) fn is_same_tree(left: &Tree, right: &Tree) -> bool
    ensures { result ≡ spec.same_tree (view_tree left.now) (view_tree right.now) }
{
    let same = is_same_head(left.head, right.head);
    if !same {
        return false;
    }
    are_same_trees(left.kids.as_slice(), right.kids.as_slice())
}

#[cycle(same_trees)]
#[tactic(auto, using(crate::proofs::Comparing::kid_laws))]
fn are_same_trees(left: &[Tree], right: &[Tree]) -> bool
    ensures { result ≡ spec.same_trees (trees_of (view_trees left.now)) (trees_of (view_trees right.now)) }
{
    if left.len() != right.len() {
        return false;
    }
    for at in 0..left.len().min(right.len()) {
        let same = is_same_tree(&left[at], &right[at]);
        if !same {
            return false;
        }
    }
    true
}
