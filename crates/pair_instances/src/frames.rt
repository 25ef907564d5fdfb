// The row at a frame, and a load of its second memory.
ghost use Rattle.std.specs.Prelude.{◌≡◌, ◌≤◌, ℕ, List, Some, None, length, drop, IfOk, MatchOption};
ghost use Rattle.qed_memories.specs.Memories.{load_tree};
ghost use Rattle.qed_terms.specs.Tree as tree;
ghost use Rattle.qed_terms.specs.Tree.{Tree, trees_of};
ghost use Rattle.term_sketches.specs.Sketches.{slots, Draws};
ghost use Rattle.instance_rows.specs.PairRows as pairs;
ghost use Rattle.drawn_instances.specs.Drawn.{AreDrawn};
ghost use Rattle.pair_instances.specs.Facts.{framed_shapes, row_of_pair};

use crate::regions::put_regions;
use branch_accesses::load_at;
use drawn_instances::{Instances, instances_of, no_instances, two_ids};
use qed_terms::{FormOp, Head, Shape, TermOp, TermStore};
use same_ids::is_same;
use std::alloc::Global;
use term_sketches::{Draft, equal, over, over_all, slot};
use wp_base::{List, NoMemory};

/// The shapes of the regions of a frame.
#[tactic(auto, unfolding(crate::specs::Facts::framed_shapes))]
fn framed_shapes(head: &Head) -> Option<&List<Shape>>
    ensures { MatchOption result (framed_shapes head.now ≡ None) (λ shapes. framed_shapes head.now ≡ Some shapes.now) }
{
    match head {
        Head::Form(op) => match op {
            FormOp::Frame(shapes) => Some(shapes),
            _ => None,
        },
        _ => None,
    }
}

fn load(alloc: Global, memory: usize) -> Draft
    ensures { (f : ℕ → Tree) → Draws f result (load_tree (f memory) (f 0) (f 1)) }
{
    over(
        alloc,
        Head::Term(TermOp::Load),
        [slot(memory), slot(0), slot(1)],
    )
}

/// That the loads of the two memories agree.
fn agree(alloc: Global) -> Draft
    ensures { (f : ℕ → Tree) → Draws f result (tree.equal (load_tree (f 2) (f 0) (f 1)) (load_tree (f 3) (f 0) (f 1))) }
{
    equal(alloc, load(alloc, 2), load(alloc, 3))
}

/// That the address lies in a region, or the loads agree: over so many slots.
fn agreement(alloc: Global, shapes: &[Shape], count: usize) -> Draft
    requires { 4 ≤ count }
    ensures { (us : List Tree) → length us ≡ count → Draws (slots us) result (pairs.agreement shapes.now (trees_of (drop 4 us)) (slots us 2) (slots us 3) (slots us 0) (slots us 1)) }
{
    let mut parts = List::new(alloc);
    put_regions(alloc, shapes, count, &mut parts)?;
    let part = agree(alloc)?;
    parts.push(part)?;
    Ok(over_all(Head::Or, parts))
}

/// At a frame, and a load of its second memory: the address lies in a region, or the loads agree.
pub fn frame_of_load<S: TermStore>(
    alloc: Global,
    store: &S,
    first: S::Id,
    second: S::Id,
) -> Result<Instances<S::Id>, NoMemory>
    requires first { S.held store.now first }
    requires second { S.held store.now second }
    ensures { IfOk result (λ made. AreDrawn (S.held store.now) (S.tree store.now) made.ids.items made.formulas (row_of_pair pairs.frame_of_load (S.tree store.now first) (S.tree store.now second))) }
{
    let Some(shapes) = framed_shapes(store.head(first)) else {
        return Ok(no_instances(alloc));
    };
    let Some(load) = load_at(store, second) else {
        return Ok(no_instances(alloc));
    };
    let kids = store.kids(first);
    if kids.len() < 2 {
        return Ok(no_instances(alloc));
    }
    if !is_same(store, kids[1], load.memory) {
        return Ok(no_instances(alloc));
    }
    let mut ids = two_ids(alloc, load.block, load.offset)?;
    ids.extend_from_slice(kids)?;
    let count = ids.len();
    let made = instances_of(alloc, ids, [agreement(alloc, shapes.as_slice(), count)])?;
    Ok(made)
}
