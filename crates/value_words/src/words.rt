// Expressions: their terms, and what their evaluation meets, in order (C11 6.5). What the recursion goes down stands first.
ghost use Rattle.std.specs.Prelude.{◌≡◌, ◌++◌, ◌∷◌, map, pos, List, IfOk, OnOk};
ghost use Rattle.core_trees.specs.View.{view_variables};
ghost use Rattle.program_trees.specs.View.{view_facts};
ghost use Rattle.qed_terms.specs.Tree.{num};
ghost use Rattle.qed_terms.specs.View.{term_tree};
ghost use Rattle.typed_prog.specs.Tree.{values_of};
ghost use Rattle.typed_prog.specs.View.{view_value, view_values};
ghost use Rattle.value_terms.specs.Readings as readings;
ghost use Rattle.value_terms.specs.Terms as spec;
ghost use Rattle.value_terms.specs.Words as words;
ghost use Rattle.value_words.specs.Drafts.{ValueIs};
ghost use Rattle.value_words.specs.OverSlots.{fill_item, fill_term, leaf_reading, reading_of};
ghost use Rattle.value_words.specs.View.{Made, MadeAll, view_items, view_term, view_terms};
ghost use Rattle.walk_steps.specs.Forms.{Slots};

use crate::items::Item;
use crate::objects::in_slot;
use crate::operations::{op_term, push_op};
use crate::slots::{sizes_of, temp_slot};
use crate::terms::{ValueDraft, ValueTerm, number_value};
use core_trees::FunctionVariable;
use program_trees::Facts;
use qed_terms::Term;
use std::alloc::Global;
use typed_prog::{Op, Value, ValueNode};
use wp_base::NoMemory;

// The term in the slot of a temporary.
#[tactic(auto, using(crate::proofs::Drafted::no_value), unfolding(crate::specs::OverSlots::slot_reading))]
fn temporary(
    alloc: Global,
    facts: &Facts,
    variables: &[FunctionVariable],
    slots: &[Term],
    number: u32,
) -> ValueDraft
    ensures { ValueIs result ((reading_of (view_facts facts.now) (view_variables variables.now) (map term_tree slots.now)).temporaries number) }
{
    let slot = temp_slot(sizes_of(facts, variables), number)?;
    number_value(in_slot(alloc, slots, slot))
}

// An operation, whose operands have these terms.
#[tactic(auto, using(crate::proofs::Making::draft_made))]
fn applied(
    alloc: Global,
    facts: &Facts,
    variables: &[FunctionVariable],
    slots: &[Term],
    value: &Value,
    op: &Op,
    operands: &[Value],
    terms: &[ValueTerm],
    items: &mut Vec<Item>,
) -> Result<ValueTerm, NoMemory>
    ensures { let p = view_facts facts.now in let xs = view_variables variables.now in let r = reading_of p xs (map term_tree slots.now) in let es = values_of (view_values operands.now) in IfOk result (λ made. Made items.old.items items.new.items made (spec.op_term p xs r value.now.ty op.now es (view_terms terms.now)) (words.op_items p xs r value.now.ty value.now.line op.now es (view_terms terms.now))) }
{
    push_op(
        alloc, facts, variables, slots, value, op, operands, terms, items,
    )?;
    let made = op_term(
        alloc, facts, variables, slots, &value.ty, op, operands, terms,
    )?;
    Ok(made)
}

// What stands for no value of a core program.
fn nothing() -> ValueTerm
    ensures { view_term result ≡ readings.as_number (num (pos 0)) }
{
    ValueTerm::Number(Term::number(0))
}

#[cycle(words)]
fn make(
    value: &Value,
    alloc: Global,
    facts: &Facts,
    variables: &[FunctionVariable],
    slots: &[Term],
    items: &mut Vec<Item>,
) -> Result<ValueTerm, NoMemory>
    ensures { let p = view_facts facts.now in let xs = view_variables variables.now in let r = reading_of p xs (map term_tree slots.now) in IfOk result (λ made. Made items.old.items items.new.items made (spec.term_of p xs r (view_value value.now)) (words.word_of p xs r (view_value value.now))) }
{
    match &value.node {
        ValueNode::Constant(number) => Ok(ValueTerm::Number(Term::number(*number))),
        ValueNode::Null => Ok(ValueTerm::Pointer(Term::number(0), Term::number(0))),
        ValueNode::Temporary(number) => {
            let made = temporary(alloc, facts, variables, slots, *number)?;
            Ok(made)
        }
        ValueNode::Apply(op, operands) => {
            let operands = operands.as_slice();
            let terms = make_all(operands, alloc, facts, variables, slots, items)?;
            let terms = terms.as_slice();
            let made = applied(
                alloc, facts, variables, slots, value, op, operands, terms, items,
            )?;
            Ok(made)
        }
        ValueNode::Logic(_, _, _) => Ok(nothing()),
        ValueNode::Choose(_, _, _) => Ok(nothing()),
        ValueNode::Effect(_, _) => Ok(nothing()),
    }
}

// Operands, one after the other.
#[cycle(words)]
#[tactic(auto, using(crate::proofs::Making::operand_laws))]
fn make_all(
    values: &[Value],
    alloc: Global,
    facts: &Facts,
    variables: &[FunctionVariable],
    slots: &[Term],
    items: &mut Vec<Item>,
) -> Result<Vec<ValueTerm>, NoMemory>
    ensures { let p = view_facts facts.now in let xs = view_variables variables.now in let r = reading_of p xs (map term_tree slots.now) in let es = values_of (view_values values.now) in IfOk result (λ made. MadeAll items.old.items items.new.items made.items (spec.terms_of p xs r es) (words.words p xs r es)) }
{
    let mut terms = Vec::new(alloc);
    for value in values {
        let term = make(value, alloc, facts, variables, slots, items)?;
        terms.push(term)?;
    }
    Ok(terms)
}

/// The terms of an expression. What its evaluation meets is pushed: each check with its formula, and what is known behind these.
pub fn word_of(
    alloc: Global,
    facts: &Facts,
    variables: &[FunctionVariable],
    slots: &[Term],
    value: &Value,
    items: &mut Vec<Item>,
) -> Result<ValueTerm, NoMemory>
    ensures term { (olds : List Slots) → let p = view_facts facts.now in let xs = view_variables variables.now in IfOk result (λ made. view_term made ≡ fill_term (map term_tree slots.now ∷ olds) (spec.term_of p xs (leaf_reading p xs) (view_value value.now))) }
    ensures items { (olds : List Slots) → let p = view_facts facts.now in let xs = view_variables variables.now in OnOk result (view_items items.new.items ≡ view_items items.old.items ++ map (fill_item (map term_tree slots.now ∷ olds)) (words.word_of p xs (leaf_reading p xs) (view_value value.now))) }
{
    let made = make(value, alloc, facts, variables, slots, items)?;
    Ok(made)
}

/// The terms of operands, and what their evaluation meets.
pub fn words_of(
    alloc: Global,
    facts: &Facts,
    variables: &[FunctionVariable],
    slots: &[Term],
    values: &[Value],
    items: &mut Vec<Item>,
) -> Result<Vec<ValueTerm>, NoMemory>
    ensures terms { (olds : List Slots) → let p = view_facts facts.now in let xs = view_variables variables.now in IfOk result (λ made. view_terms made.items ≡ map (fill_term (map term_tree slots.now ∷ olds)) (spec.terms_of p xs (leaf_reading p xs) (values_of (view_values values.now)))) }
    ensures items { (olds : List Slots) → let p = view_facts facts.now in let xs = view_variables variables.now in OnOk result (view_items items.new.items ≡ view_items items.old.items ++ map (fill_item (map term_tree slots.now ∷ olds)) (words.words p xs (leaf_reading p xs) (values_of (view_values values.now)))) }
{
    let made = make_all(values, alloc, facts, variables, slots, items)?;
    Ok(made)
}
