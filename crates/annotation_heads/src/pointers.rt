// Pointers and addresses (ACSL 2.2.3, 2.7).
ghost use Rattle.std.specs.Prelude.{◌≡◌, ◌==◌, None, pos, map, IfOk, if◌then◌else◌};
ghost use Rattle.acsl_encode.specs.Encode as spec;
ghost use Rattle.acsl_encode.specs.Readings.{address, integer, truth};
ghost use Rattle.std.specs.Option.{option_map};
ghost use Rattle.annotation_heads.specs.Pairs.{pair, view_pointers};
ghost use Rattle.annotation_heads.specs.View.{view_pointer, view_terms};
ghost use Rattle.qed_terms.specs.Tree.{Tree, equal, num};
ghost use Rattle.qed_terms.specs.declared.head.TermOp.TheVariants as op;
ghost use Rattle.qed_terms.specs.View.{term_tree};
ghost use Rattle.term_drafts.specs.Drafts.{FormulaIs, TermIs};

use crate::arithmetic::comparison;
use crate::pairs::{Both, both_integers, both_pointers, first_kid, first_kids, moving_pointer};
use crate::terms::{Pointer, Terms};
use qed_terms::{FormOp, Term, TermOp};
use std::alloc::Global;
use term_drafts::{
    FormulaDraft, TermDraft, both, conjunction, copied, negation, number, over, ready, relation,
};
use typed_prog::Comparison;
use wp_base::{List, NoMemory};

// So many elements.
#[tactic(auto, using(term_drafts::proofs::Drafted::draft_laws))]
fn times(alloc: Global, size: u32, term: TermDraft) -> TermDraft
    ensures { (t : Tree) → TermIs term t → TermIs result (spec.times size t) }
{
    let term = term?;
    if size == 1 {
        return Ok(term);
    }
    let made = over(alloc, TermOp::Mul, number(i128::from(size)), ready(term))?;
    Ok(made)
}

// A number of cells further on.
#[tactic(auto, using(term_drafts::proofs::Drafted::draft_laws, crate::proofs::Given::no_further, crate::proofs::Given::some_further))]
fn further(alloc: Global, cells: u32, offset: Term) -> TermDraft
    ensures { TermIs result (spec.further cells (term_tree offset)) }
{
    if cells == 0 {
        return Ok(offset);
    }
    let made = over(alloc, TermOp::Add, ready(offset), number(i128::from(cells)))?;
    Ok(made)
}

/// Where the element with this number is.
pub fn element_at(alloc: Global, offset: &Term, size: u32, number: TermDraft) -> TermDraft
    ensures { (t : Tree) → TermIs number t → TermIs result (spec.element_at (term_tree offset.now) size t) }
{
    over(
        alloc,
        TermOp::Add,
        copied(alloc, offset),
        times(alloc, size, number),
    )
}

/// A pointer, where there was memory for it.
#[tactic(auto, using(term_drafts::proofs::Drafted::draft_laws))]
pub fn pointer_at(block: TermDraft, offset: TermDraft) -> Result<Terms, NoMemory>
    ensures { (b o : Tree) → TermIs block b → TermIs offset o → IfOk result (λ made. view_terms made ≡ address b o) }
{
    let (block, offset) = both(block, offset)?;
    Ok(Terms::Address(Pointer { block, offset }))
}

fn field_of(alloc: Global, cells: u32, pointer: Pointer) -> Result<Terms, NoMemory>
    ensures { IfOk result (λ made. view_terms made ≡ address (term_tree pointer.block) (spec.further cells (term_tree pointer.offset))) }
{
    let Pointer { block, offset } = pointer;
    let made = pointer_at(ready(block), further(alloc, cells, offset))?;
    Ok(made)
}

/// A field of the object at an address.
#[tactic(auto, using(crate::proofs::Given::given_laws))]
pub fn field(alloc: Global, cells: u32, kids: List<Terms>) -> Result<Terms, NoMemory>
    ensures { IfOk result (λ made. view_terms made ≡ spec.with_one (λ p. address p.block (spec.further cells p.offset)) (spec.as_pointer (spec.first (map view_terms kids)))) }
{
    let Some(pointer) = first_kid(kids).into_pointer() else {
        return Ok(Terms::Nothing);
    };
    let made = field_of(alloc, cells, pointer)?;
    Ok(made)
}

fn moving(minus: bool) -> TermOp
    ensures { result ≡ (if minus then op.Sub else op.Add) }
{
    if minus { TermOp::Sub } else { TermOp::Add }
}

#[tactic(auto, using(crate::proofs::Paired::moved_so))]
fn moved_by(
    alloc: Global,
    minus: bool,
    size: u32,
    pointer: Pointer,
    number: Term,
) -> Result<Terms, NoMemory>
    ensures { IfOk result (λ made. view_terms made ≡ spec.moved minus size (view_pointer pointer) (term_tree number)) }
{
    let Pointer { block, offset } = pointer;
    let cells = times(alloc, size, ready(number));
    let offset = over(alloc, moving(minus), ready(offset), cells);
    let made = pointer_at(ready(block), offset)?;
    Ok(made)
}

/// A pointer that is moved by so many elements.
#[tactic(auto, using(crate::proofs::Paired::both_laws))]
pub fn moved(alloc: Global, minus: bool, size: u32, kids: List<Terms>) -> Result<Terms, NoMemory>
    ensures { IfOk result (λ made. view_terms made ≡ spec.with_two (spec.moved minus size) (spec.as_pointer (spec.first (map view_terms kids))) (spec.as_integer (spec.second (map view_terms kids)))) }
{
    let kids = first_kids(kids);
    let Some(both) = moving_pointer(alloc, kids.first, kids.second)? else {
        return Ok(Terms::Nothing);
    };
    let made = moved_by(alloc, minus, size, both.first, both.second)?;
    Ok(made)
}

/// Addresses behind a pointer, from one number to another one.
#[tactic(auto, using(crate::proofs::Paired::reached_laws))]
pub fn reached(alloc: Global, size: u32, kids: List<Terms>) -> Result<Terms, NoMemory>
    ensures { IfOk result (λ made. view_terms made ≡ spec.reached size (spec.as_pointer (spec.first (map view_terms kids))) (spec.as_integer (spec.second (map view_terms kids))) (spec.as_integer (spec.third (map view_terms kids)))) }
{
    let kids = first_kids(kids);
    let Some(ends) = both_integers(alloc, kids.second, kids.third)? else {
        return Ok(Terms::Nothing);
    };
    match kids.first.into_pointer() {
        Some(pointer) => Ok(Terms::Elements(pointer, size, ends.first, ends.second)),
        None => Ok(Terms::Nothing),
    }
}

// Cells as elements of so many cells.
#[tactic(auto, using(term_drafts::proofs::Drafted::draft_laws))]
fn elements_in(alloc: Global, size: u32, cells: TermDraft) -> TermDraft
    ensures { (t : Tree) → TermIs cells t → TermIs result (if size == 1 then t else spec.op_two op.Div t (num (pos size))) }
{
    let cells = cells?;
    if size == 1 {
        return Ok(cells);
    }
    let made = over(alloc, TermOp::Div, ready(cells), number(i128::from(size)))?;
    Ok(made)
}

fn difference_of(alloc: Global, size: u32, left: Pointer, right: Pointer) -> TermDraft
    ensures { TermIs result (spec.difference size (view_pointer left) (view_pointer right)) }
{
    let cells = over(alloc, TermOp::Sub, ready(left.offset), ready(right.offset));
    elements_in(alloc, size, cells)
}

// The pointers that the first two kids come to.
fn two_pointers(kids: List<Terms>) -> Option<Both<Pointer, Pointer>>
    ensures { option_map view_pointers result ≡ pair (spec.as_pointer (spec.first (map view_terms kids))) (spec.as_pointer (spec.second (map view_terms kids))) }
{
    let kids = first_kids(kids);
    both_pointers(kids.first, kids.second)
}

/// How many elements lie between two pointers.
#[tactic(auto, using(crate::proofs::Paired::both_laws, term_drafts::proofs::Drafted::draft_laws))]
pub fn difference(alloc: Global, size: u32, kids: List<Terms>) -> Result<Terms, NoMemory>
    ensures { IfOk result (λ made. view_terms made ≡ spec.with_two (λ p q. integer None (spec.difference size p q)) (spec.as_pointer (spec.first (map view_terms kids))) (spec.as_pointer (spec.second (map view_terms kids)))) }
{
    let Some(both) = two_pointers(kids) else {
        return Ok(Terms::Nothing);
    };
    let term = difference_of(alloc, size, both.first, both.second)?;
    Ok(Terms::Integer(None, term))
}

fn equal(alloc: Global, left: Term, right: Term) -> FormulaDraft
    ensures { FormulaIs result (equal (term_tree left) (term_tree right)) }
{
    relation(alloc, FormOp::Equal, ready(left), ready(right))
}

fn same_pointer(alloc: Global, left: Pointer, right: Pointer) -> FormulaDraft
    ensures { FormulaIs result (spec.same_pointer (view_pointer left) (view_pointer right)) }
{
    let blocks = equal(alloc, left.block, right.block);
    let offsets = equal(alloc, left.offset, right.offset);
    conjunction(alloc, blocks, offsets)
}

/// How two pointers compare.
#[tactic(auto, using(term_drafts::proofs::Drafted::draft_laws))]
pub fn pointer_comparison(
    alloc: Global,
    how: Comparison,
    left: Pointer,
    right: Pointer,
) -> FormulaDraft
    ensures { FormulaIs result (spec.pointer_comparison how (view_pointer left) (view_pointer right)) }
{
    match how {
        Comparison::Equal => {
            let made = same_pointer(alloc, left, right)?;
            Ok(made)
        }
        Comparison::NotEqual => {
            let made = negation(alloc, same_pointer(alloc, left, right))?;
            Ok(made)
        }
        Comparison::Less | Comparison::AtMost | Comparison::Greater | Comparison::AtLeast => {
            let made = comparison(alloc, how, left.offset, right.offset)?;
            Ok(made)
        }
    }
}

/// Whether two pointers compare so.
#[tactic(auto, using(crate::proofs::Paired::both_laws, term_drafts::proofs::Drafted::draft_laws))]
pub fn pointers_compared(
    alloc: Global,
    how: Comparison,
    kids: List<Terms>,
) -> Result<Terms, NoMemory>
    ensures { IfOk result (λ made. view_terms made ≡ spec.with_two (λ p q. truth (spec.pointer_comparison how p q)) (spec.as_pointer (spec.first (map view_terms kids))) (spec.as_pointer (spec.second (map view_terms kids)))) }
{
    let Some(both) = two_pointers(kids) else {
        return Ok(Terms::Nothing);
    };
    let formula = pointer_comparison(alloc, how, both.first, both.second)?;
    Ok(Terms::Truth(formula))
}
