// Accesses to cells: loads, and the relations on cells, by the ids of a store.
ghost use Rattle.std.specs.Prelude.{◌≡◌, All, map, option_map, IfSome, IfOk};
ghost use Rattle.instance_rows.specs.Accesses.{access_at, accesses_in};
ghost use Rattle.branch_accesses.specs.Heads.{accessed_kind, asked_kind, is_load};
ghost use Rattle.branch_accesses.specs.Ids.{access_of, AccessHeld};

use crate::loads::put_some;
use crate::names::kind_under;
use drawn_instances::three_kids;
use qed_terms::{FormOp, Head, TermOp, TermStore};
use std::alloc::Global;
use wp_base::{CellKind, NoMemory};

/// An access to a cell of a kind: its block and its offset.
#[derive(Clone, Copy)]
pub struct IdAccess<I> {
    pub kind: CellKind,
    pub block: I,
    pub offset: I,
}

fn asked_kind(op: &FormOp) -> Option<CellKind>
    ensures { result ≡ asked_kind op.now }
{
    match op {
        FormOp::Read(kind) => Some(*kind),
        FormOp::Write(kind) => Some(*kind),
        _ => None,
    }
}

/// The kind of the cell to which a head over three kids is an access. `first` is the first of them.
fn accessed_kind<S: TermStore>(store: &S, head: &Head, first: S::Id) -> Option<CellKind>
    requires { S.held store.now first }
    ensures { result ≡ accessed_kind head.now (S.tree store.now first) }
{
    match head {
        Head::Term(TermOp::Load) => kind_under(store, first),
        Head::Form(op) => asked_kind(op),
        _ => None,
    }
}

/// The access that a node is.
#[tactic(auto, using(crate::proofs::LoadLaws::access_laws))]
pub fn access_at<S: TermStore>(store: &S, id: S::Id) -> Option<IdAccess<S::Id>>
    requires { S.held store.now id }
    ensures access { option_map (access_of (S.tree store.now)) result ≡ access_at (S.tree store.now id) }
    ensures held { IfSome result (AccessHeld (S.held store.now)) }
{
    match three_kids(store, id) {
        Some((first, block, offset)) => match accessed_kind(store, store.head(id), first) {
            Some(kind) => Some(IdAccess {
                kind,
                block,
                offset,
            }),
            None => None,
        },
        None => None,
    }
}

/// The accesses among some nodes.
pub fn accesses_in<S: TermStore>(
    alloc: Global,
    store: &S,
    nodes: &[S::Id],
) -> Result<Vec<IdAccess<S::Id>>, NoMemory>
    requires { All (S.held store.now) nodes.now }
    ensures accesses { IfOk result (λ accesses. map (access_of (S.tree store.now)) accesses.items ≡ accesses_in (map (S.tree store.now) nodes.now)) }
    ensures held { IfOk result (λ accesses. All (AccessHeld (S.held store.now)) accesses.items) }
{
    let mut accesses = Vec::new(alloc);
    for node in nodes {
        put_some(&mut accesses, access_at(store, *node))?;
    }
    Ok(accesses)
}
