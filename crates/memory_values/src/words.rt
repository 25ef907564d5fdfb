// Expressions: their terms, and what their evaluation meets, in order (C11 6.5). What the recursion goes down stands first.
ghost use Rattle.std.specs.Prelude.{◌≡◌, ◌++◌, ℕ, map, pos, List, IfOk, OnOk};
ghost use Rattle.memory_steps.specs.Forms.{Slots};
ghost use Rattle.memory_values.specs.OverSlots.{IsLevel, fill_item, fill_term, leaf_reading};
ghost use Rattle.memory_values.specs.View.{Made, MadeAll, facts_in, shape_in, slots_in, table_in, view_items, view_reading, view_term, view_terms};
ghost use Rattle.qed_terms.specs.Tree.{num};
ghost use Rattle.typed_prog.specs.Tree.{values_of};
ghost use Rattle.typed_prog.specs.View.{view_value, view_values};
ghost use Rattle.value_terms.specs.Readings as readings;
ghost use Rattle.value_terms.specs.Terms as spec;
ghost use Rattle.value_terms.specs.Words as words;

use crate::items::Item;
use crate::leaves::temporary;
use crate::operations::{op_term, push_op};
use crate::readings::Reading;
use crate::terms::ValueTerm;
use qed_terms::Term;
use std::alloc::Global;
use typed_prog::{Op, Value, ValueNode};
use wp_base::NoMemory;

// An operation, whose operands have these terms.
#[tactic(auto, using(crate::proofs::Making::draft_made))]
fn applied(
    alloc: Global,
    reading: Reading,
    value: &Value,
    op: &Op,
    operands: &[Value],
    terms: &[ValueTerm],
    items: &mut Vec<Item>,
) -> Result<ValueTerm, NoMemory>
    ensures { let p = facts_in reading.entry in let xs = (shape_in reading.entry).variables in let r = view_reading reading.entry in let es = values_of (view_values operands.now) in IfOk result (λ made. Made items.old.items items.new.items made (spec.op_term p xs r value.now.ty op.now es (view_terms terms.now)) (words.op_items p xs r value.now.ty value.now.line op.now es (view_terms terms.now))) }
{
    push_op(alloc, reading, value, op, operands, terms, items)?;
    let made = op_term(alloc, reading, &value.ty, op, operands, terms)?;
    Ok(made)
}

// What stands for no value of a core program.
fn nothing() -> ValueTerm
    ensures { view_term result ≡ readings.as_number (num (pos 0)) }
{
    ValueTerm::Number(Term::number(0))
}

#[cycle(words)]
fn make(
    value: &Value,
    alloc: Global,
    reading: Reading,
    items: &mut Vec<Item>,
) -> Result<ValueTerm, NoMemory>
    ensures { let p = facts_in reading.entry in let xs = (shape_in reading.entry).variables in let r = view_reading reading.entry in IfOk result (λ made. Made items.old.items items.new.items made (spec.term_of p xs r (view_value value.now)) (words.word_of p xs r (view_value value.now))) }
{
    match &value.node {
        ValueNode::Constant(number) => Ok(ValueTerm::Number(Term::number(*number))),
        ValueNode::Null => Ok(ValueTerm::Pointer(Term::number(0), Term::number(0))),
        ValueNode::Temporary(number) => {
            let made = temporary(alloc, reading, *number)?;
            Ok(made)
        }
        ValueNode::Apply(op, operands) => {
            let operands = operands.as_slice();
            let terms = make_all(operands, alloc, reading, items)?;
            let terms = terms.as_slice();
            let made = applied(alloc, reading, value, op, operands, terms, items)?;
            Ok(made)
        }
        ValueNode::Logic(_, _, _) => Ok(nothing()),
        ValueNode::Choose(_, _, _) => Ok(nothing()),
        ValueNode::Effect(_, _) => Ok(nothing()),
    }
}

// Operands, one after the other.
#[cycle(words)]
#[tactic(auto, using(crate::proofs::Making::operand_laws))]
fn make_all(
    values: &[Value],
    alloc: Global,
    reading: Reading,
    items: &mut Vec<Item>,
) -> Result<Vec<ValueTerm>, NoMemory>
    ensures { let p = facts_in reading.entry in let xs = (shape_in reading.entry).variables in let r = view_reading reading.entry in let es = values_of (view_values values.now) in IfOk result (λ made. MadeAll items.old.items items.new.items made.items (spec.terms_of p xs r es) (words.words p xs r es)) }
{
    let mut terms = Vec::new(alloc);
    for value in values {
        let term = make(value, alloc, reading, items)?;
        terms.push(term)?;
    }
    Ok(terms)
}

/// The terms of an expression. What its evaluation meets is pushed: each check with its formula, and what is known behind these.
pub fn word_of(
    alloc: Global,
    reading: Reading,
    value: &Value,
    items: &mut Vec<Item>,
) -> Result<ValueTerm, NoMemory>
    ensures term { let r = reading.entry in let p = facts_in r in let s = shape_in r in (ss : List Slots) (l : ℕ) → IsLevel ss l (slots_in r) (table_in r) → IfOk result (λ made. view_term made ≡ fill_term ss (spec.term_of p s.variables (leaf_reading p s l) (view_value value.now))) }
    ensures items { let r = reading.entry in let p = facts_in r in let s = shape_in r in (ss : List Slots) (l : ℕ) → IsLevel ss l (slots_in r) (table_in r) → OnOk result (view_items items.new.items ≡ view_items items.old.items ++ map (fill_item ss) (words.word_of p s.variables (leaf_reading p s l) (view_value value.now))) }
{
    let made = make(value, alloc, reading, items)?;
    Ok(made)
}

/// The terms of operands, and what their evaluation meets.
pub fn words_of(
    alloc: Global,
    reading: Reading,
    values: &[Value],
    items: &mut Vec<Item>,
) -> Result<Vec<ValueTerm>, NoMemory>
    ensures terms { let r = reading.entry in let p = facts_in r in let s = shape_in r in (ss : List Slots) (l : ℕ) → IsLevel ss l (slots_in r) (table_in r) → IfOk result (λ made. view_terms made.items ≡ map (fill_term ss) (spec.terms_of p s.variables (leaf_reading p s l) (values_of (view_values values.now)))) }
    ensures items { let r = reading.entry in let p = facts_in r in let s = shape_in r in (ss : List Slots) (l : ℕ) → IsLevel ss l (slots_in r) (table_in r) → OnOk result (view_items items.new.items ≡ view_items items.old.items ++ map (fill_item ss) (words.words p s.variables (leaf_reading p s l) (values_of (view_values values.now)))) }
{
    let made = make_all(values, alloc, reading, items)?;
    Ok(made)
}
