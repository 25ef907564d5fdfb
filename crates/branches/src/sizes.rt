// How large a branch is.
ghost use Rattle.std.specs.Prelude.{◌≡◌, ◌↔◌, ◌<◌, map, All, IsTrue};
ghost use Rattle.qed_terms.specs.Nodes.{room_after};
ghost use Rattle.qed_terms.specs.Tree.{size};
ghost use Rattle.branches.specs.Branch.{nodes, nodes_of};
ghost use Rattle.branches.specs.Expansion.{node_limit};
ghost use Rattle.branches.specs.Ids.{branch_of, BranchHeld};

use qed_terms::{IdBranch, TermStore};

// The nodes that a branch may have.
const NODE_LIMIT: usize = 20_000;

/// What is left of the room for nodes after those of a formula; none where it has more.
fn room_after<S: TermStore>(store: &S, id: S::Id, room: usize) -> Option<usize>
    requires { S.held store.now id }
    ensures { result ≡ room_after room (size (S.tree store.now id)) }
{
    if room == 0 {
        return None;
    }
    let kids = store.kids(id);
    let mut left = room - 1;
    for at in 0..kids.len() {
        match room_after(store, kids[at], left) {
            Some(rest) => left = rest,
            None => return None,
        }
    }
    Some(left)
}

/// What is left of it after those of several formulas.
fn room_after_all<S: TermStore>(store: &S, ids: &[S::Id], room: usize) -> Option<usize>
    requires { All (S.held store.now) ids.now }
    ensures { result ≡ room_after room (nodes_of (map (S.tree store.now) ids.now)) }
{
    let mut left = room;
    for at in 0..ids.len() {
        match room_after(store, ids[at], left) {
            Some(rest) => left = rest,
            None => return None,
        }
    }
    Some(left)
}

/// Whether a branch has more nodes than one may have. No more are counted.
pub fn is_large<S: TermStore>(store: &S, branch: &IdBranch<S::Id>) -> bool
    requires { BranchHeld (S.held store.now) branch.now }
    ensures { IsTrue result ↔ (node_limit < nodes (branch_of (S.tree store.now) branch.now)) }
{
    match room_after_all(store, branch.literals.as_slice(), NODE_LIMIT) {
        None => true,
        Some(room) => match room_after_all(store, branch.waiting.as_slice(), room) {
            None => true,
            Some(_) => false,
        },
    }
}
