// The row at a literal that a memory is well formed, and a load of that memory: the range of what is loaded.
ghost use Rattle.std.specs.Prelude.{◌≡◌, ◌⊎◌, ℕ, option_map, IfSome, IfOk};
ghost use Rattle.qed_memories.specs.Memories.{load_tree};
ghost use Rattle.qed_terms.specs.Tree.{Tree, head_of, kids_in};
ghost use Rattle.term_sketches.specs.Sketches.{Draws};
ghost use Rattle.instance_rows.specs.PairRows as pairs;
ghost use Rattle.drawn_instances.specs.Drawn.{AreDrawn};
ghost use Rattle.pair_instances.specs.Facts.{row_of_pair};
ghost use Rattle.pair_instances.specs.Formed.{cell_range, formed, formed_cell, formed_of, FormedHeld};

use block_instances::count;
use branch_accesses::load_at;
use drawn_instances::{Instances, instances_of, no_instances, three_ids, three_kids, two_kids};
use node_instances::{between, load, range_of};
use qed_terms::{FormOp, Head, TermStore};
use same_ids::is_same;
use std::alloc::Global;
use term_sketches::{Draft, and_of, at_most, less, number, slot};
use wp_base::{CellKind, Kind, NoMemory};

/// A memory that is said to be well formed, the table, and what its cells are.
#[derive(Clone, Copy)]
pub struct IdFormed<I> {
    pub cell: CellKind,
    pub table: I,
    pub memory: I,
}

fn formed_cell(head: &Head) -> Option<CellKind>
    ensures { result ≡ formed_cell head.now }
{
    match head {
        Head::Form(FormOp::WellFormed(cell)) => Some(*cell),
        _ => None,
    }
}

/// What a node says to be well formed.
#[tactic(auto, using(crate::proofs::RangeRow::formed_laws))]
fn formed_at<S: TermStore>(store: &S, id: S::Id) -> Option<IdFormed<S::Id>>
    requires { S.held store.now id }
    ensures formed { option_map (formed_of (S.tree store.now)) result ≡ formed (head_of (S.tree store.now id)) (kids_in (S.tree store.now id)) }
    ensures held { IfSome result (FormedHeld (S.held store.now)) }
{
    match formed_cell(store.head(id)) {
        Some(cell) => match cell {
            CellKind::Of(_) => match two_kids(store, id) {
                Some((table, memory)) => Some(IdFormed {
                    cell,
                    table,
                    memory,
                }),
                None => None,
            },
            CellKind::Ptr => match three_kids(store, id) {
                Some((table, memory, _)) => Some(IdFormed {
                    cell,
                    table,
                    memory,
                }),
                None => None,
            },
        },
        None => None,
    }
}

// ---- over a block, an offset, a memory and a table

fn loaded(alloc: Global) -> Draft
    ensures { (f : ℕ → Tree) → Draws f result (load_tree (f 2) (f 0) (f 1)) }
{
    load(alloc, slot(2), 0, 1)
}

#[tactic(auto, using(drawn_instances::proofs::NumberLaws::number_kept))]
fn kind_range(alloc: Global, long_bits: u8, kind: Kind) -> Draft
    requires { (long_bits ≡ 32) ⊎ (long_bits ≡ 64) }
    ensures { (f : ℕ → Tree) → Draws f result (pairs.kind_range long_bits kind (load_tree (f 2) (f 0) (f 1))) }
{
    let range = range_of(long_bits, kind);
    let low = number(alloc, range.low);
    let high = number(alloc, range.high);
    between(alloc, low, high, loaded(alloc), loaded(alloc))
}

fn block_range(alloc: Global) -> Draft
    ensures { (f : ℕ → Tree) → Draws f result (pairs.block_range (f 3) (load_tree (f 2) (f 0) (f 1))) }
{
    let zero = number(alloc, 0);
    and_of(
        alloc,
        [
            at_most(alloc, zero, loaded(alloc)),
            less(alloc, loaded(alloc), count(alloc, 3)),
        ],
    )
}

fn cell_range(alloc: Global, long_bits: u8, cell: CellKind) -> Draft
    requires { (long_bits ≡ 32) ⊎ (long_bits ≡ 64) }
    ensures { (f : ℕ → Tree) → Draws f result (cell_range long_bits cell (f 3) (f 2) (f 0) (f 1)) }
{
    match cell {
        CellKind::Of(kind) => kind_range(alloc, long_bits, kind),
        CellKind::Ptr => block_range(alloc),
    }
}

/// At a memory that is well formed, and a load of it: the range of what is loaded. `long` has 32 or 64 bits.
pub fn range_of_load<S: TermStore>(
    alloc: Global,
    store: &S,
    long_bits: u8,
    first: S::Id,
    second: S::Id,
) -> Result<Instances<S::Id>, NoMemory>
    requires first { S.held store.now first }
    requires second { S.held store.now second }
    requires width { (long_bits ≡ 32) ⊎ (long_bits ≡ 64) }
    ensures { IfOk result (λ made. AreDrawn (S.held store.now) (S.tree store.now) made.ids.items made.formulas (row_of_pair (pairs.range_of_load long_bits) (S.tree store.now first) (S.tree store.now second))) }
{
    let Some(formed) = formed_at(store, first) else {
        return Ok(no_instances(alloc));
    };
    let Some(load) = load_at(store, second) else {
        return Ok(no_instances(alloc));
    };
    if !is_same(store, formed.memory, load.memory) {
        return Ok(no_instances(alloc));
    }
    let mut ids = three_ids(alloc, load.block, load.offset, formed.memory)?;
    ids.push(formed.table)?;
    let made = instances_of(alloc, ids, [cell_range(alloc, long_bits, formed.cell)])?;
    Ok(made)
}
