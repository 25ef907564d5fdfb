// Terms and items of operations, behind those of their operands.
ghost use Rattle.std.specs.Prelude.{not};
ghost use Rattle.c_runs.specs.Operators.{comparing, is_order as is_order_of, overflow, pointing};
ghost use Rattle.c_runs.specs.Values.{kind_at as kind_at_of};
ghost use Rattle.qed_terms.specs.Tree.{not_of};
ghost use Rattle.qed_terms.specs.declared.head.TermOp.TheVariants as term_ops;
ghost use Rattle.c_runs.specs.Checks.{second_constant as second_constant_of};
ghost use Rattle.typed_prog.specs.Tree.{values_of};
ghost use Rattle.typed_prog.specs.View.{view_values};
ghost use Rattle.value_terms.specs.Readings as readings;
ghost use Rattle.value_terms.specs.Terms as spec;
ghost use Rattle.value_terms.specs.Words as words;
ghost use Rattle.memory_values.specs.Drafts.{Pushes, ValueIs};
ghost use Rattle.memory_values.specs.View.{facts_in, shape_in, view_reading, view_terms};
ghost use Rattle.wp_base.specs.Kinds.{is_signed as is_signed_of};

use crate::accesses::{push_address, push_comparing, push_pointing, push_read};
use crate::integers::{arithmetic, comparison, converted, first_kind, is_signed, kind_at, unary};
use crate::items::Item;
use crate::objects::{address, read};
use crate::pointers::{difference, moved_operand, pointer_comparison};
use crate::ranges::{push_arithmetic, push_held, push_range};
use crate::readings::Reading;
use crate::terms::{
    ValueDraft, ValueTerm, number_value, operand, operand_condition, operand_number, test_value,
};
use program_trees::Facts;
use qed_terms::TermOp;
use std::alloc::Global;
use term_drafts::{negation, over_one};
use typed_prog::{Arithmetic, Comparison, CoreType, Op, Value};
use value_facts::{is_order, second_constant};
use wp_base::{Kind, Line, NoMemory};

// ---- terms

fn not_term(alloc: Global, terms: &[ValueTerm]) -> ValueDraft
    ensures { ValueIs result (readings.as_test (not_of (readings.condition (readings.term_at (view_terms terms.now) 0)))) }
{
    test_value(negation(alloc, operand_condition(alloc, terms, 0)))
}

fn unary_term(alloc: Global, kind: Kind, op: TermOp, terms: &[ValueTerm]) -> ValueDraft
    ensures { ValueIs result (readings.as_number (spec.within_term kind (spec.of_one op (readings.number_term (readings.term_at (view_terms terms.now) 0))))) }
{
    let term = operand_number(alloc, terms, 0);
    number_value(unary(alloc, kind, op, term))
}

fn arithmetic_term(alloc: Global, kind: Kind, op: Arithmetic, terms: &[ValueTerm]) -> ValueDraft
    ensures { ValueIs result (readings.as_number (spec.arithmetic_term kind op (readings.number_term (readings.term_at (view_terms terms.now) 0)) (readings.number_term (readings.term_at (view_terms terms.now) 1)))) }
{
    let left = operand_number(alloc, terms, 0);
    let right = operand_number(alloc, terms, 1);
    number_value(arithmetic(alloc, kind, op, left, right))
}

fn comparison_term(alloc: Global, how: Comparison, terms: &[ValueTerm]) -> ValueDraft
    ensures { ValueIs result (readings.as_test (spec.comparison how (readings.number_term (readings.term_at (view_terms terms.now) 0)) (readings.number_term (readings.term_at (view_terms terms.now) 1)))) }
{
    let left = operand_number(alloc, terms, 0);
    let right = operand_number(alloc, terms, 1);
    test_value(comparison(alloc, how, left, right))
}

fn converted_term(
    alloc: Global,
    facts: &Facts,
    ty: &CoreType,
    operands: &[Value],
    terms: &[ValueTerm],
) -> ValueDraft
    ensures { ValueIs result (readings.as_number (spec.converted_term facts.now.model (kind_at_of ty.now) (spec.first_kind (values_of (view_values operands.now))) (readings.number_term (readings.term_at (view_terms terms.now) 0)))) }
{
    let term = operand_number(alloc, terms, 0);
    let (to, from) = (kind_at(ty), first_kind(operands));
    number_value(converted(alloc, facts.model, to, from, term))
}

/// The term of an operation of this type on operands of these terms.
#[tactic(auto, unfolding(value_terms::specs::Terms::op_term))]
pub(crate) fn op_term(
    alloc: Global,
    reading: Reading,
    ty: &CoreType,
    op: &Op,
    operands: &[Value],
    terms: &[ValueTerm],
) -> ValueDraft
    ensures { let p = facts_in reading.entry in let xs = (shape_in reading.entry).variables in let r = view_reading reading.entry in ValueIs result (spec.op_term p xs r ty.now op.now (values_of (view_values operands.now)) (view_terms terms.now)) }
{
    match op {
        Op::Read(path) => read(alloc, reading, ty, path, terms),
        Op::Address(path, _) => address(alloc, reading, path, terms),
        Op::Decay(path, _) => address(alloc, reading, path, terms),
        Op::Negate => unary_term(alloc, kind_at(ty), TermOp::Neg, terms),
        Op::Complement => unary_term(alloc, kind_at(ty), TermOp::BitNot, terms),
        Op::Not => not_term(alloc, terms),
        Op::Arithmetic(op) => arithmetic_term(alloc, kind_at(ty), *op, terms),
        Op::Compare(how) => comparison_term(alloc, *how, terms),
        Op::ComparePointers(how) => test_value(pointer_comparison(alloc, *how, terms)),
        Op::Offset {
            minus,
            index_first,
            size,
            ..
        } => moved_operand(alloc, *index_first, *minus, *size, terms),
        Op::Difference { size } => number_value(difference(alloc, *size, terms)),
        Op::Convert => converted_term(alloc, reading.facts, ty, operands, terms),
        Op::Requalify => operand(alloc, terms, 0),
        Op::Cast => converted_term(alloc, reading.facts, ty, operands, terms),
    }
}

// ---- items

#[tactic(auto, using(crate::proofs::Adding::asked_laws))]
fn push_negated(
    alloc: Global,
    facts: &Facts,
    ty: &CoreType,
    line: Line,
    terms: &[ValueTerm],
    out: &mut Vec<Item>,
) -> Result<(), NoMemory>
    ensures { let k = kind_at_of ty.now in Pushes result out.old.items out.new.items (words.asked_if (is_signed_of k) overflow line (words.held_term facts.now.model k (spec.of_one term_ops.Neg (readings.number_term (readings.term_at (view_terms terms.now) 0))))) }
{
    let kind = kind_at(ty);
    if is_signed(kind) {
        let term = operand_number(alloc, terms, 0);
        let negated = over_one(alloc, TermOp::Neg, term);
        push_held(alloc, facts.model, kind, line, negated, out)
    } else {
        Ok(())
    }
}

fn push_complement(
    alloc: Global,
    facts: &Facts,
    ty: &CoreType,
    terms: &[ValueTerm],
    out: &mut Vec<Item>,
) -> Result<(), NoMemory>
    ensures { let k = kind_at_of ty.now in Pushes result out.old.items out.new.items (words.range_facts facts.now.model k (spec.within_term k (spec.of_one term_ops.BitNot (readings.number_term (readings.term_at (view_terms terms.now) 0))))) }
{
    let kind = kind_at(ty);
    let term = operand_number(alloc, terms, 0);
    let complement = unary(alloc, kind, TermOp::BitNot, term);
    push_range(alloc, facts.model, kind, complement, out)
}

fn push_operator(
    alloc: Global,
    facts: &Facts,
    value: &Value,
    op: Arithmetic,
    operands: &[Value],
    terms: &[ValueTerm],
    out: &mut Vec<Item>,
) -> Result<(), NoMemory>
    ensures { Pushes result out.old.items out.new.items (words.arithmetic_items facts.now.model (kind_at_of value.now.ty) value.now.line op (second_constant_of (values_of (view_values operands.now))) (readings.number_term (readings.term_at (view_terms terms.now) 0)) (readings.number_term (readings.term_at (view_terms terms.now) 1))) }
{
    let (kind, line) = (kind_at(&value.ty), value.line);
    let second = second_constant(operands);
    push_arithmetic(alloc, facts.model, kind, line, op, second, terms, out)
}

// Pointers are put in order.
#[tactic(auto, using(crate::proofs::Adding::asked_laws))]
fn push_ordered(
    alloc: Global,
    reading: Reading,
    how: Comparison,
    line: Line,
    terms: &[ValueTerm],
    out: &mut Vec<Item>,
) -> Result<(), NoMemory>
    ensures { let p = facts_in reading.entry in let r = view_reading reading.entry in Pushes result out.old.items out.new.items (words.asked_if (is_order_of how) comparing line (words.comparing_term p r (readings.term_at (view_terms terms.now) 0) (readings.term_at (view_terms terms.now) 1))) }
{
    if is_order(how) {
        push_comparing(alloc, reading, line, terms, out)
    } else {
        Ok(())
    }
}

// A pointer that isn't followed at once.
#[tactic(auto, using(crate::proofs::Adding::asked_laws))]
fn push_moved(
    alloc: Global,
    reading: Reading,
    accessed: bool,
    line: Line,
    index_first: bool,
    minus: bool,
    size: u32,
    terms: &[ValueTerm],
    out: &mut Vec<Item>,
) -> Result<(), NoMemory>
    ensures { let p = facts_in reading.entry in let r = view_reading reading.entry in Pushes result out.old.items out.new.items (words.asked_if (not accessed) pointing line (words.pointing_term p r (spec.moved_terms index_first minus size (view_terms terms.now)))) }
{
    if accessed {
        Ok(())
    } else {
        let moved = moved_operand(alloc, index_first, minus, size, terms);
        push_pointing(alloc, reading, line, moved, out)
    }
}

/// The items of the operation of a value, on operands of these terms.
#[tactic(auto, using(crate::proofs::Adding::pushes_none), unfolding(value_terms::specs::Words::op_items, value_terms::specs::Terms::op_term))]
pub(crate) fn push_op(
    alloc: Global,
    reading: Reading,
    value: &Value,
    op: &Op,
    operands: &[Value],
    terms: &[ValueTerm],
    out: &mut Vec<Item>,
) -> Result<(), NoMemory>
    ensures { let p = facts_in reading.entry in let xs = (shape_in reading.entry).variables in let r = view_reading reading.entry in Pushes result out.old.items out.new.items (words.op_items p xs r value.now.ty value.now.line op.now (values_of (view_values operands.now)) (view_terms terms.now)) }
{
    let ty = &value.ty;
    let line = value.line;
    match op {
        Op::Read(path) => push_read(alloc, reading, ty, path, terms, out),
        Op::Address(path, accessed) => push_address(alloc, reading, *accessed, path, terms, out),
        Op::Decay(path, accessed) => push_address(alloc, reading, *accessed, path, terms, out),
        Op::Negate => push_negated(alloc, reading.facts, ty, line, terms, out),
        Op::Complement => push_complement(alloc, reading.facts, ty, terms, out),
        Op::Arithmetic(op) => push_operator(alloc, reading.facts, value, *op, operands, terms, out),
        Op::ComparePointers(how) => push_ordered(alloc, reading, *how, line, terms, out),
        Op::Offset {
            minus,
            index_first,
            size,
            accessed,
        } => push_moved(
            alloc,
            reading,
            *accessed,
            line,
            *index_first,
            *minus,
            *size,
            terms,
            out,
        ),
        Op::Difference { .. } => push_comparing(alloc, reading, line, terms, out),
        Op::Not => Ok(()),
        Op::Compare(_) => Ok(()),
        Op::Convert => Ok(()),
        Op::Requalify => Ok(()),
        Op::Cast => Ok(()),
    }
}
