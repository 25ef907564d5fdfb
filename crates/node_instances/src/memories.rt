// The row at a load over a store.
ghost use Rattle.std.specs.Prelude.{◌≡◌, ℕ, [], ◌∷◌, IfOk};
ghost use Rattle.qed_terms.specs.Tree.{Tree};
ghost use Rattle.qed_memories.specs.Memories.{load_tree, store_tree};
ghost use Rattle.term_sketches.specs.Sketches.{Draws};
ghost use Rattle.instance_rows.specs.Rows as rows;
ghost use Rattle.drawn_instances.specs.Drawn.{AreDrawn, row_at};

use drawn_instances::{
    Instances, Seen, four_kids, instances_of, look, no_instances, three_ids, three_kids,
};
use qed_terms::{Head, TermOp, TermStore};
use std::alloc::Global;
use term_sketches::{Draft, and_of, equal, not_of, or_of, over, slot};
use wp_base::NoMemory;

/// What a memory has at an address.
pub fn load(alloc: Global, memory: Draft, block: usize, offset: usize) -> Draft
    ensures { (f : ℕ → Tree) → (m : Tree) → Draws f memory m → Draws f result (load_tree m (f block) (f offset)) }
{
    over(
        alloc,
        Head::Term(TermOp::Load),
        [memory, slot(block), slot(offset)],
    )
}

// A memory with a value at an address.
fn store_over(alloc: Global, memory: usize, block: usize, offset: usize, value: usize) -> Draft
    ensures { (f : ℕ → Tree) → Draws f result (store_tree (f memory) (f block) (f offset) (f value)) }
{
    over(
        alloc,
        Head::Term(TermOp::Store),
        [slot(memory), slot(block), slot(offset), slot(value)],
    )
}

// A value that is stored at an address, in these slots, and another address.
#[derive(Clone, Copy)]
struct Stored {
    memory: usize,
    block: usize,
    offset: usize,
    value: usize,
    at_block: usize,
    at_offset: usize,
}

// What a memory that was written has at the other address.
fn load_of(alloc: Global, at: Stored) -> Draft
    ensures { (f : ℕ → Tree) → Draws f result (load_tree (store_tree (f at.memory) (f at.block) (f at.offset) (f at.value)) (f at.at_block) (f at.at_offset)) }
{
    let written = store_over(alloc, at.memory, at.block, at.offset, at.value);
    load(alloc, written, at.at_block, at.at_offset)
}

fn load_by_address(alloc: Global, at: Stored) -> Draft
    ensures { (f : ℕ → Tree) → Draws f result (rows.load_by_address (f at.memory) (f at.block) (f at.offset) (f at.value) (f at.at_block) (f at.at_offset)) }
{
    let same = and_of(
        alloc,
        [
            equal(alloc, slot(at.block), slot(at.at_block)),
            equal(alloc, slot(at.offset), slot(at.at_offset)),
            equal(alloc, load_of(alloc, at), slot(at.value)),
        ],
    );
    let elsewhere = or_of(
        alloc,
        [
            not_of(alloc, equal(alloc, slot(at.block), slot(at.at_block))),
            not_of(alloc, equal(alloc, slot(at.offset), slot(at.at_offset))),
        ],
    );
    let below = load(alloc, slot(at.memory), at.at_block, at.at_offset);
    let other = and_of(alloc, [elsewhere, equal(alloc, load_of(alloc, at), below)]);
    or_of(alloc, [same, other])
}

fn six_ids<I: Copy>(
    alloc: Global,
    first: I,
    second: I,
    third: I,
    fourth: I,
    fifth: I,
    sixth: I,
) -> Result<Vec<I>, NoMemory>
    ensures { IfOk result (λ ids. ids.items ≡ first ∷ second ∷ third ∷ fourth ∷ fifth ∷ sixth ∷ []) }
{
    let mut ids = three_ids(alloc, first, second, third)?;
    ids.push(fourth)?;
    ids.push(fifth)?;
    ids.push(sixth)?;
    Ok(ids)
}

/// At a load over a store: the value at its address, elsewhere what lies below.
#[tactic(auto, using(crate::proofs::MemoryLaws::load_laws, drawn_instances::proofs::DrawnLaws::instance_laws))]
pub fn load_of_store<S: TermStore>(
    alloc: Global,
    store: &S,
    id: S::Id,
) -> Result<Instances<S::Id>, NoMemory>
    requires { S.held store.now id }
    ensures { IfOk result (λ made. AreDrawn (S.held store.now) (S.tree store.now) made.ids.items made.formulas (row_at rows.load_of_store (S.tree store.now id))) }
{
    let Seen::Load = look(store, id) else {
        return Ok(no_instances(alloc));
    };
    let Some((written, at_block, at_offset)) = three_kids(store, id) else {
        return Ok(no_instances(alloc));
    };
    let Seen::Store = look(store, written) else {
        return Ok(no_instances(alloc));
    };
    let Some((memory, block, offset, value)) = four_kids(store, written) else {
        return Ok(no_instances(alloc));
    };
    let at = Stored {
        memory: 0,
        block: 1,
        offset: 2,
        value: 3,
        at_block: 4,
        at_offset: 5,
    };
    let ids = six_ids(alloc, memory, block, offset, value, at_block, at_offset)?;
    let made = instances_of(alloc, ids, [load_by_address(alloc, at)])?;
    Ok(made)
}
