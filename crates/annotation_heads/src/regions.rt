// Sets of addresses with what stands at each (ACSL 2.3.4).
ghost use Rattle.std.specs.Prelude.{◌≡◌, IfOk};
ghost use Rattle.acsl_encode.specs.Encode as spec;
ghost use Rattle.acsl_encode.specs.Readings.{address, elements, region};
ghost use Rattle.annotation_heads.specs.View.{view_terms};
ghost use Rattle.qed_terms.specs.Tree.{Tree};
ghost use Rattle.qed_terms.specs.View.{term_tree};
ghost use Rattle.term_drafts.specs.Drafts.{TermIs};

use crate::pointers::element_at;
use crate::ranges::one_more;
use crate::terms::{Pointer, Set, Terms};
use qed_terms::{Term, TermOp};
use std::alloc::Global;
use term_drafts::{TermDraft, both, copied, number, over, ready};
use wp_base::{CellKind, List, NoMemory};

// So many cells further on.
#[tactic(auto, using(term_drafts::proofs::Drafted::draft_laws, crate::proofs::Given::no_further, crate::proofs::Given::some_further))]
fn behind(alloc: Global, count: usize, offset: &Term) -> TermDraft
    ensures { TermIs result (spec.further count (term_tree offset.now)) }
{
    if count == 0 {
        let made = copied(alloc, offset)?;
        return Ok(made);
    }
    let Ok(cells) = i128::try_from(count) else {
        return Err(NoMemory);
    };
    let made = over(alloc, TermOp::Add, copied(alloc, offset), number(cells))?;
    Ok(made)
}

// Cells of a block, where there was memory for its ends.
#[tactic(auto, using(term_drafts::proofs::Drafted::draft_laws))]
fn cells_between(
    cells: List<CellKind>,
    block: TermDraft,
    low: TermDraft,
    high: TermDraft,
) -> Result<Terms, NoMemory>
    ensures { (b l h : Tree) → TermIs block b → TermIs low l → TermIs high h → IfOk result (λ made. view_terms made ≡ region cells b l h) }
{
    let (block, ends) = both(block, both(low, high))?;
    let (low, high) = ends;
    Ok(Terms::Region(cells, block, low, high))
}

fn object(alloc: Global, cells: List<CellKind>, pointer: Pointer) -> Result<Terms, NoMemory>
    ensures { IfOk result (λ made. view_terms made ≡ spec.region_of cells (address (term_tree pointer.block) (term_tree pointer.offset))) }
{
    let Pointer { block, offset } = pointer;
    let high = behind(alloc, cells.len(), &offset);
    let made = cells_between(cells, ready(block), ready(offset), high)?;
    Ok(made)
}

// From one element up to behind another one.
fn some_elements(
    alloc: Global,
    cells: List<CellKind>,
    pointer: Pointer,
    size: u32,
    low: Term,
    high: Term,
) -> Result<Terms, NoMemory>
    ensures { IfOk result (λ made. view_terms made ≡ region cells (term_tree pointer.block) (spec.element_at (term_tree pointer.offset) size (term_tree low)) (spec.element_at (term_tree pointer.offset) size (spec.one_more (term_tree high)))) }
{
    let Pointer { block, offset } = pointer;
    let low = element_at(alloc, &offset, size, ready(low));
    let high = element_at(alloc, &offset, size, one_more(alloc, high));
    let made = cells_between(cells, ready(block), low, high)?;
    Ok(made)
}

#[tactic(auto, using(crate::proofs::Paired::region_laws))]
fn elements_of(
    alloc: Global,
    cells: List<CellKind>,
    pointer: Pointer,
    size: u32,
    low: Term,
    high: Term,
) -> Result<Terms, NoMemory>
    ensures { IfOk result (λ made. view_terms made ≡ spec.region_of cells (elements (term_tree pointer.block) (term_tree pointer.offset) size (term_tree low) (term_tree high))) }
{
    if size as usize == cells.len() {
        let made = some_elements(alloc, cells, pointer, size, low, high)?;
        return Ok(made);
    }
    Ok(Terms::Nothing)
}

/// What stands at the addresses of a set, by the cells of an element.
#[tactic(auto, using(crate::proofs::Paired::set_laws))]
pub fn region_of(alloc: Global, cells: List<CellKind>, terms: Terms) -> Result<Terms, NoMemory>
    ensures { IfOk result (λ made. view_terms made ≡ spec.region_of cells (view_terms terms)) }
{
    match terms.into_set() {
        Set::Object(pointer) => {
            let made = object(alloc, cells, pointer)?;
            Ok(made)
        }
        Set::Elements(pointer, size, low, high) => {
            let made = elements_of(alloc, cells, pointer, size, low, high)?;
            Ok(made)
        }
        Set::Nothing => Ok(Terms::Nothing),
    }
}
