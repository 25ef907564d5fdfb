// Terms of pointers (C11 6.5.6, 6.5.8, 6.5.9).
ghost use Rattle.qed_terms.specs.Tree.{Tree};
ghost use Rattle.term_drafts.specs.Drafts.{FormulaIs, TermIs};
ghost use Rattle.value_terms.specs.Readings.{Term, as_pointer, block_term, number_term, offset_term, term_at};
ghost use Rattle.value_terms.specs.Terms as spec;
ghost use Rattle.memory_values.specs.Drafts.{ValueIs};
ghost use Rattle.memory_values.specs.View.{view_terms};

use crate::drafts::equal;
use crate::integers::comparison;
use crate::terms::{
    ValueDraft, ValueTerm, operand, operand_block, operand_number, operand_offset, parts,
    pointer_value,
};
use qed_terms::TermOp;
use std::alloc::Global;
use term_drafts::{FormulaDraft, TermDraft, conjunction, negation, number, over};
use typed_prog::Comparison;

// So many cells, for an index of elements of this size.
fn scaled(alloc: Global, size: u32, index: TermDraft) -> TermDraft
    ensures { (t : Tree) → TermIs index t → TermIs result (spec.scaled size t) }
{
    if size == 1 {
        index
    } else {
        over(alloc, TermOp::Mul, number(i128::from(size)), index)
    }
}

// The block of a pointer, and its offset with so many cells.
fn beside(alloc: Global, op: TermOp, pointer: ValueDraft, cells: TermDraft) -> ValueDraft
    ensures { (a : Term) (t : Tree) → ValueIs pointer a → TermIs cells t → ValueIs result (as_pointer (block_term a) (spec.of_two op (offset_term a) t)) }
{
    let (block, offset) = parts(pointer);
    pointer_value(block, over(alloc, op, offset, cells))
}

/// A pointer so many elements further on, or back.
pub(crate) fn moved(
    alloc: Global,
    minus: bool,
    size: u32,
    pointer: ValueDraft,
    index: TermDraft,
) -> ValueDraft
    ensures { (a i : Term) → ValueIs pointer a → TermIs index (number_term i) → ValueIs result (spec.moved_term minus size a i) }
{
    let cells = scaled(alloc, size, index);
    if minus {
        beside(alloc, TermOp::Sub, pointer, cells)
    } else {
        beside(alloc, TermOp::Add, pointer, cells)
    }
}

// The pointer that a value is, whatever it is.
fn rebuilt(pointer: ValueDraft) -> ValueDraft
    ensures { (a : Term) → ValueIs pointer a → ValueIs result (as_pointer (block_term a) (offset_term a)) }
{
    let (block, offset) = parts(pointer);
    pointer_value(block, offset)
}

/// A field, whose first cell has this offset.
#[tactic(auto, using(crate::proofs::Slotted::first_field, crate::proofs::Slotted::later_field))]
pub(crate) fn field(alloc: Global, offset: u32, pointer: ValueDraft) -> ValueDraft
    ensures { (a : Term) → ValueIs pointer a → ValueIs result (spec.field_term offset a) }
{
    if offset == 0 {
        rebuilt(pointer)
    } else {
        beside(alloc, TermOp::Add, pointer, number(i128::from(offset)))
    }
}

// ---- two operands

// A comparison of their offsets.
fn offsets_compared(alloc: Global, how: Comparison, terms: &[ValueTerm]) -> FormulaDraft
    ensures { FormulaIs result (spec.comparison how (offset_term (term_at (view_terms terms.now) 0)) (offset_term (term_at (view_terms terms.now) 1))) }
{
    let left = operand_offset(alloc, terms, 0);
    let right = operand_offset(alloc, terms, 1);
    comparison(alloc, how, left, right)
}

// Both lead to one cell.
fn same_pointer(alloc: Global, terms: &[ValueTerm]) -> FormulaDraft
    ensures { FormulaIs result (spec.same_pointer_term (term_at (view_terms terms.now) 0) (term_at (view_terms terms.now) 1)) }
{
    let blocks = equal(
        alloc,
        operand_block(alloc, terms, 0),
        operand_block(alloc, terms, 1),
    );
    let offsets = equal(
        alloc,
        operand_offset(alloc, terms, 0),
        operand_offset(alloc, terms, 1),
    );
    conjunction(alloc, blocks, offsets)
}

/// A comparison of two pointers; one of order is of their offsets.
pub(crate) fn pointer_comparison(
    alloc: Global,
    how: Comparison,
    terms: &[ValueTerm],
) -> FormulaDraft
    ensures { FormulaIs result (spec.pointer_comparison how (term_at (view_terms terms.now) 0) (term_at (view_terms terms.now) 1)) }
{
    match how {
        Comparison::Equal => same_pointer(alloc, terms),
        Comparison::NotEqual => negation(alloc, same_pointer(alloc, terms)),
        Comparison::Less => offsets_compared(alloc, Comparison::Less, terms),
        Comparison::AtMost => offsets_compared(alloc, Comparison::AtMost, terms),
        Comparison::Greater => offsets_compared(alloc, Comparison::Greater, terms),
        Comparison::AtLeast => offsets_compared(alloc, Comparison::AtLeast, terms),
    }
}

/// The difference of two pointers to elements of so many cells.
pub(crate) fn difference(alloc: Global, size: u32, terms: &[ValueTerm]) -> TermDraft
    ensures { TermIs result (spec.difference_term size (term_at (view_terms terms.now) 0) (term_at (view_terms terms.now) 1)) }
{
    let left = operand_offset(alloc, terms, 0);
    let right = operand_offset(alloc, terms, 1);
    let cells = over(alloc, TermOp::Sub, left, right);
    if size == 1 {
        cells
    } else {
        over(alloc, TermOp::Div, cells, number(i128::from(size)))
    }
}

/// Moved by the integer, which is the second operand or the first.
pub(crate) fn moved_operand(
    alloc: Global,
    index_first: bool,
    minus: bool,
    size: u32,
    terms: &[ValueTerm],
) -> ValueDraft
    ensures { ValueIs result (spec.moved_terms index_first minus size (view_terms terms.now)) }
{
    if index_first {
        let index = operand_number(alloc, terms, 0);
        moved(alloc, minus, size, operand(alloc, terms, 1), index)
    } else {
        let index = operand_number(alloc, terms, 1);
        moved(alloc, minus, size, operand(alloc, terms, 0), index)
    }
}
