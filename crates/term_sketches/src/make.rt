// Sketches put into a store.
ghost use Rattle.std.specs.Prelude.{◌≡◌, ◌++◌, true, map, All, OnOk, IfOk};
ghost use Rattle.qed_terms.specs.Store.{KeepsOlder, is_well_formed, over};
ghost use Rattle.term_sketches.specs.Sketches.{sketch_tree, slots};

use crate::sketch::Sketch;
use qed_terms::{Head, TermStore};
use std::alloc::Global;
use stored_normals::fits_over;
use wp_base::{List, NoMemory};

fn may_hold<S: TermStore>(store: &S, head: &Head, kids: &[S::Id]) -> bool
    requires { All (S.held store.now) kids.now }
    ensures { result ≡ true → is_well_formed (over head.now (map (S.tree store.now) kids.now)) ≡ true }
{
    fits_over(store, head, kids)
}

/// The id of a head over these ids. Where it isn't well formed no store may hold it: the answer is then `NoMemory`, though memory may be left.
/// Rows draw no such formula.
pub fn make_node<S: TermStore>(
    alloc: Global,
    store: &mut S,
    head: &Head,
    kids: &[S::Id],
) -> Result<S::Id, NoMemory>
    requires { All (S.held store.old) kids.now }
    ensures older { OnOk result (KeepsOlder (S.held store.old) (S.held store.new) (S.tree store.old) (S.tree store.new)) }
    ensures held { IfOk result (λ id. S.held store.new id) }
    ensures stands { IfOk result (λ id. S.tree store.new id ≡ over head.now (map (S.tree store.old) kids.now)) }
{
    if !may_hold(&*store, head, kids) {
        return Err(NoMemory);
    }
    let head = head.copy(alloc)?;
    let id = store.make(head, kids)?;
    Ok(id)
}

// The id in a slot; `true` behind the last one.
#[tactic(auto, using(crate::proofs::Made::made_laws))]
fn make_slot<S: TermStore>(
    alloc: Global,
    store: &mut S,
    ids: &[S::Id],
    at: usize,
) -> Result<S::Id, NoMemory>
    requires { All (S.held store.old) ids.now }
    ensures older { OnOk result (KeepsOlder (S.held store.old) (S.held store.new) (S.tree store.old) (S.tree store.new)) }
    ensures held { IfOk result (λ id. S.held store.new id) }
    ensures stands { IfOk result (λ id. S.tree store.new id ≡ slots (map (S.tree store.old) ids.now) at) }
{
    if at < ids.len() {
        Ok(ids[at])
    } else {
        let id = make_node(alloc, store, &Head::True, &[])?;
        Ok(id)
    }
}

/// The id of a sketch with these ids in its slots.
#[tactic(auto, using(crate::proofs::Made::made_laws, crate::proofs::Drawn::sketch_tree_Over, crate::proofs::Drawn::sketch_tree_Slot))]
pub fn make_sketch<S: TermStore>(
    alloc: Global,
    store: &mut S,
    ids: &[S::Id],
    sketch: &Sketch,
) -> Result<S::Id, NoMemory>
    requires { All (S.held store.old) ids.now }
    ensures older { OnOk result (KeepsOlder (S.held store.old) (S.held store.new) (S.tree store.old) (S.tree store.new)) }
    ensures held { IfOk result (λ id. S.held store.new id) }
    ensures stands { IfOk result (λ id. S.tree store.new id ≡ sketch_tree (slots (map (S.tree store.old) ids.now)) sketch.now) }
{
    match sketch {
        Sketch::Slot(at) => {
            let id = make_slot(alloc, store, ids, *at)?;
            Ok(id)
        }
        Sketch::Over(head, parts) => {
            let mut made = Vec::with_capacity(alloc, parts.len())?;
            let parts = parts.as_slice();
            for part in parts {
                let id = make_sketch(alloc, store, ids, part)?;
                made.push(id)?;
            }
            let id = make_node(alloc, store, head, made.as_slice())?;
            Ok(id)
        }
    }
}

/// Puts the ids of these sketches behind others.
#[tactic(auto, using(crate::proofs::Made::made_laws))]
pub fn make_all<S: TermStore>(
    alloc: Global,
    store: &mut S,
    ids: &[S::Id],
    sketches: &List<Sketch>,
    out: &mut Vec<S::Id>,
) -> Result<(), NoMemory>
    requires ids_held { All (S.held store.old) ids.now }
    requires out_held { All (S.held store.old) out.old.items }
    ensures older { OnOk result (KeepsOlder (S.held store.old) (S.held store.new) (S.tree store.old) (S.tree store.new)) }
    ensures held { OnOk result (All (S.held store.new) out.new.items) }
    ensures stand { OnOk result (map (S.tree store.new) out.new.items ≡ map (S.tree store.old) out.old.items ++ map (sketch_tree (slots (map (S.tree store.old) ids.now))) sketches.now) }
{
    let parts = sketches.as_slice();
    for part in parts {
        let id = make_sketch(alloc, store, ids, part)?;
        out.push(id)?;
    }
    Ok(())
}
