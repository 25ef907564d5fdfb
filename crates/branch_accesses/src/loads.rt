// Loads, by the ids of a store.
ghost use Rattle.std.specs.Prelude.{◌≡◌, ◌++◌, All, map, option_map, option_to_list, IfSome, OnOk, IfOk};
ghost use Rattle.instance_rows.specs.Accesses.{load_at, loads_in};
ghost use Rattle.branch_accesses.specs.Heads.{is_load};
ghost use Rattle.branch_accesses.specs.Ids.{load_of, LoadHeld};

use drawn_instances::three_kids;
use qed_terms::{Head, TermOp, TermStore};
use std::alloc::Global;
use wp_base::NoMemory;

/// A load: its memory, and the block and the offset of its address.
#[derive(Clone, Copy)]
pub struct IdLoad<I> {
    pub memory: I,
    pub block: I,
    pub offset: I,
}

fn is_load(head: &Head) -> bool
    ensures { result ≡ is_load head.now }
{
    match head {
        Head::Term(TermOp::Load) => true,
        _ => false,
    }
}

/// The load that a node is.
#[tactic(auto, using(crate::proofs::LoadLaws::load_laws))]
pub fn load_at<S: TermStore>(store: &S, id: S::Id) -> Option<IdLoad<S::Id>>
    requires { S.held store.now id }
    ensures load { option_map (load_of (S.tree store.now)) result ≡ load_at (S.tree store.now id) }
    ensures held { IfSome result (LoadHeld (S.held store.now)) }
{
    if !is_load(store.head(id)) {
        return None;
    }
    match three_kids(store, id) {
        Some((memory, block, offset)) => Some(IdLoad {
            memory,
            block,
            offset,
        }),
        None => None,
    }
}

/// Puts an item behind others, where there is one.
pub fn put_some<T: Copy + Drop>(out: &mut Vec<T>, item: Option<T>) -> Result<(), NoMemory>
    ensures { OnOk result (out.new.items ≡ out.old.items ++ option_to_list item) }
{
    if let Some(item) = item {
        out.push(item)?;
    }
    Ok(())
}

/// The loads among some nodes.
pub fn loads_in<S: TermStore>(
    alloc: Global,
    store: &S,
    nodes: &[S::Id],
) -> Result<Vec<IdLoad<S::Id>>, NoMemory>
    requires { All (S.held store.now) nodes.now }
    ensures loads { IfOk result (λ loads. map (load_of (S.tree store.now)) loads.items ≡ loads_in (map (S.tree store.now) nodes.now)) }
    ensures held { IfOk result (λ loads. All (LoadHeld (S.held store.now)) loads.items) }
{
    let mut loads = Vec::new(alloc);
    for node in nodes {
        put_some(&mut loads, load_at(store, *node))?;
    }
    Ok(loads)
}
