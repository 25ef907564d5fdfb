// What a block of a layout answers.
ghost use Rattle.std.specs.Prelude.{◌≡◌, ℕ, pos, length, map, IfOk};
ghost use Rattle.wp_base.specs.Blocks.{same_cell};
ghost use Rattle.qed_terms.specs.Tree as tree;
ghost use Rattle.qed_terms.specs.Tree.{Tree};
ghost use Rattle.qed_memories.specs.Memories.{are_at_places, cell_count, has_cell_tree, is_at_place, layout_answer};
ghost use Rattle.term_sketches.specs.Sketches.{Draws, sketch_tree};
ghost use Rattle.block_instances.specs.Asking.{asked_head, asked_rest};

use crate::questions::Asked;
use qed_terms::{Head, TermOp};
use std::alloc::Global;
use term_sketches::{
    Draft, Sketch, and_of, at_most, equal, less, number, operation, over, over_all, slot,
};
use wp_base::{CellKind, Layout, List, NoMemory};

#[tactic(auto, using(qed_memories::proofs::Cells::is_same_cell, qed_memories::proofs::Cells::other_cell))]
fn same_cell(left: CellKind, right: CellKind) -> bool
    ensures { result ≡ same_cell left right }
{
    left == right
}

fn as_number(count: usize) -> i128
    ensures { result ≡ pos count }
{
    count as i128
}

#[tactic(auto, using(drawn_instances::proofs::NumberLaws::number_kept))]
fn number_of(alloc: Global, count: usize) -> Draft
    ensures { (f : ℕ → Tree) → Draws f result (tree.num (pos count)) }
{
    number(alloc, as_number(count))
}

// How many cells an element has.
#[tactic(auto, using(drawn_instances::proofs::NumberLaws::number_kept))]
fn number_in_element(alloc: Global, layout: &Layout) -> Draft
    ensures { (f : ℕ → Tree) → Draws f result (tree.num (pos (length layout.now.cells))) }
{
    number(alloc, as_number(layout.cells.len()))
}

// How many cells a block has.
fn cell_count(layout: &Layout) -> i128
    ensures { result ≡ pos (cell_count layout.now) }
{
    i128::from(layout.count) * layout.cells.len() as i128
}

#[tactic(auto, using(drawn_instances::proofs::NumberLaws::number_kept))]
fn number_of_cells(alloc: Global, layout: &Layout) -> Draft
    ensures { (f : ℕ → Tree) → Draws f result (tree.num (pos (cell_count layout.now))) }
{
    number(alloc, cell_count(layout))
}

fn never(alloc: Global) -> Draft
    ensures { (f : ℕ → Tree) → Draws f result tree.false_tree }
{
    over(alloc, Head::False, [])
}

fn always(alloc: Global) -> Draft
    ensures { (f : ℕ → Tree) → Draws f result tree.true_tree }
{
    over(alloc, Head::True, [])
}

// Whether an offset lies in a block of this layout, at this place of an element.
fn at_place(alloc: Global, layout: &Layout, offset: usize, place: usize) -> Draft
    ensures { (f : ℕ → Tree) → Draws f result (is_at_place (cell_count layout.now) (length layout.now.cells) (f offset) place) }
{
    let rest = operation(
        alloc,
        TermOp::Mod,
        slot(offset),
        number_in_element(alloc, layout),
    );
    and_of(
        alloc,
        [
            at_most(alloc, number(alloc, 0), slot(offset)),
            less(alloc, slot(offset), number_of_cells(alloc, layout)),
            equal(alloc, rest, number_of(alloc, place)),
        ],
    )
}

// One for each place of the kind.
#[tactic(auto, using(crate::proofs::LayoutLaws::place_here, crate::proofs::LayoutLaws::place_skipped, crate::proofs::LayoutLaws::places_done))]
fn at_places(
    alloc: Global,
    layout: &Layout,
    kind: CellKind,
    offset: usize,
) -> Result<List<Sketch>, NoMemory>
    ensures { IfOk result (λ made. (f : ℕ → Tree) → map (sketch_tree f) made ≡ are_at_places (cell_count layout.now) (length layout.now.cells) kind (f offset) 0 layout.now.cells) }
{
    let mut places = List::new(alloc);
    let mut place = 0;
    while place < layout.cells.len() {
        if same_cell(kind, layout.cells.as_slice()[place]) {
            places.push(at_place(alloc, layout, offset, place)?)?;
        }
        place += 1;
    }
    Ok(places)
}

// Whether a block of this layout has a cell of this kind at an offset.
#[tactic(auto, using(crate::proofs::LayoutLaws::cells_drawn, crate::proofs::LayoutLaws::no_memory_drawn))]
fn has_cell(alloc: Global, layout: &Layout, kind: CellKind, offset: usize) -> Draft
    ensures { (f : ℕ → Tree) → Draws f result (has_cell_tree layout.now kind (f offset)) }
{
    let places = at_places(alloc, layout, kind, offset)?;
    Ok(over_all(Head::Or, places))
}

/// What a block of a layout answers.
pub fn layout_answer(alloc: Global, layout: &Layout, what: Asked, offset: usize) -> Draft
    ensures { (f : ℕ → Tree) → Draws f result (layout_answer layout.now (asked_head what) (asked_rest what (f offset))) }
{
    match what {
        Asked::Read(kind) => has_cell(alloc, layout, kind, offset),
        Asked::Write(kind) => {
            if layout.writable {
                has_cell(alloc, layout, kind, offset)
            } else {
                never(alloc)
            }
        }
        Asked::Live => always(alloc),
        Asked::Length => number_of_cells(alloc, layout),
    }
}
