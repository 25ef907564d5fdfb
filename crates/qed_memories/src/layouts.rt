// What a block of a layout answers.
ghost use Rattle.std.specs.Prelude.{◌≡◌, pos, length, IfOk};
ghost use Rattle.wp_base.specs.Blocks.{same_cell};
ghost use Rattle.qed_terms.specs.Tree.{node, two, num, at_most, less, equal, false_tree};
ghost use Rattle.qed_terms.specs.View.{formula_tree, term_tree};
ghost use Rattle.qed_terms.specs.declared.head.Head.TheVariants as h;
ghost use Rattle.qed_terms.specs.declared.head.TermOp.TheVariants as op;
ghost use Rattle.qed_memories.specs.Memories.{is_at_place, are_at_places, cell_count, has_cell_tree};

use qed_terms::{FormOp, Formula, Term, TermOp};
use std::alloc::Global;
use wp_base::{CellKind, Layout, List, NoMemory};

#[tactic(auto, using(crate::proofs::Cells::is_same_cell, crate::proofs::Cells::other_cell))]
fn same_cell(left: CellKind, right: CellKind) -> bool
    ensures { result ≡ same_cell left right }
{
    left == right
}

/// How many cells a block has.
pub fn cell_count(layout: &Layout) -> i128
    ensures { result ≡ pos (cell_count layout.now) }
{
    i128::from(layout.count) * layout.cells.len() as i128
}

fn is_from_start(alloc: Global, offset: &Term) -> Result<Formula, NoMemory>
    ensures { IfOk result (λ formula. formula_tree formula ≡ at_most (num (pos 0)) (term_tree offset.now)) }
{
    let offset = offset.copy(alloc)?;
    Formula::relation(alloc, FormOp::AtMost, Term::number(0), offset)
}

fn is_before_end(alloc: Global, offset: &Term, cells: i128) -> Result<Formula, NoMemory>
    ensures { IfOk result (λ formula. formula_tree formula ≡ less (term_tree offset.now) (num cells)) }
{
    let offset = offset.copy(alloc)?;
    Formula::relation(alloc, FormOp::Less, offset, Term::number(cells))
}

// The place in its element is this one.
fn has_place(
    alloc: Global,
    offset: &Term,
    element: usize,
    place: usize,
) -> Result<Formula, NoMemory>
    ensures { IfOk result (λ formula. formula_tree formula ≡ equal (node (h.Term op.Mod) (two (term_tree offset.now) (num (pos element)))) (num (pos place))) }
{
    let offset = offset.copy(alloc)?;
    let rest = Term::over(alloc, TermOp::Mod, offset, Term::number(element as i128))?;
    Formula::relation(alloc, FormOp::Equal, rest, Term::number(place as i128))
}

// Whether the offset lies in a block of this layout, at this place of an element.
#[tactic(auto, using(qed_terms::proofs::Equations::tree_laws))]
fn is_at_place(
    alloc: Global,
    layout: &Layout,
    offset: &Term,
    place: usize,
) -> Result<Formula, NoMemory>
    ensures { IfOk result (λ formula. formula_tree formula ≡ is_at_place (cell_count layout.now) (length layout.now.cells) (term_tree offset.now) place) }
{
    let mut parts = List::new(alloc);
    parts.push(is_from_start(alloc, offset)?)?;
    parts.push(is_before_end(alloc, offset, cell_count(layout))?)?;
    parts.push(has_place(alloc, offset, layout.cells.len(), place)?)?;
    Ok(Formula::And(parts))
}

/// Whether a block of this layout has a cell of this kind at the offset.
#[tactic(auto, using(qed_terms::proofs::Equations::tree_laws, crate::proofs::Cells::place_here, crate::proofs::Cells::place_skipped, crate::proofs::Cells::places_done))]
pub fn has_cell(
    alloc: Global,
    layout: &Layout,
    kind: CellKind,
    offset: &Term,
) -> Result<Formula, NoMemory>
    ensures { IfOk result (λ formula. formula_tree formula ≡ has_cell_tree layout.now kind (term_tree offset.now)) }
{
    let mut places = List::new(alloc);
    let mut place = 0;
    while place < layout.cells.len() {
        if same_cell(kind, layout.cells.as_slice()[place]) {
            places.push(is_at_place(alloc, layout, offset, place)?)?;
        }
        place += 1;
    }
    Ok(Formula::Or(places))
}
