// The ranges of variables by their kinds (C11 5.2.4.2.1).
ghost use Rattle.std.specs.Prelude.{◌≡◌, ◌∷◌, ◌++◌, ℕ, List, [], map, IfOk, OnOk};
ghost use Rattle.core_trees.specs.View.{view_variable, view_variables};
ghost use Rattle.function_walks.specs.Entry.{Behind};
ghost use Rattle.plain_states.specs.Scopes.{kind_of as kind_in};
ghost use Rattle.program_steps.specs.Starting as spec;
ghost use Rattle.plain_runs.specs.Fitting.{Shape};
ghost use Rattle.program_steps.specs.Terms.{Texts};
ghost use Rattle.program_trees.specs.View.{view_facts};
ghost use Rattle.qed_terms.specs.Meaning as sense;
ghost use Rattle.qed_terms.specs.Tree.{at_most as at_most_of, num};
ghost use Rattle.qed_terms.specs.View.{formula_tree, term_tree};
ghost use Rattle.value_words.specs.OverSlots.{slot_term};
ghost use Rattle.walk_frames.specs.View.{facts_in, shape_in, variables_in};
ghost use Rattle.wp_base.specs.declared.kinds.Kind.{Kind as Integer};

use c_kinds::{Range, range};
use core_trees::FunctionVariable;
use program_trees::Facts;
use qed_terms::{FormOp, Formula, Term};
use std::alloc::Global;
use value_words::{local_value, read_slot, value_slot};
use walk_frames::{Frame, sizes_in};
use wp_base::{CellKind, Kind, NoMemory};

/// The kind of a variable that holds an integer.
pub(crate) fn kind_of(variable: &FunctionVariable) -> Kind
    ensures { result ≡ kind_in (view_variable variable.now) }
{
    match variable.layout.cells.get(0) {
        Some(CellKind::Of(kind)) => *kind,
        Some(CellKind::Ptr) => Kind::Int,
        None => Kind::Int,
    }
}

// `low <= slot`.
fn at_least(alloc: Global, held: Range, slots: &[Term], slot: usize) -> Result<Formula, NoMemory>
    ensures { IfOk result (λ made. formula_tree made ≡ at_most_of (num held.low) (slot_term (map term_tree slots.now) slot)) }
{
    let term = read_slot(alloc, slots, slot)?;
    Formula::relation(alloc, FormOp::AtMost, Term::number(held.low), term)
}

// `slot <= high`.
fn up_to(alloc: Global, held: Range, slots: &[Term], slot: usize) -> Result<Formula, NoMemory>
    ensures { IfOk result (λ made. formula_tree made ≡ at_most_of (slot_term (map term_tree slots.now) slot) (num held.high)) }
{
    let term = read_slot(alloc, slots, slot)?;
    Formula::relation(alloc, FormOp::AtMost, term, Term::number(held.high))
}

// What a slot holds is of the variable's kind.
fn put_range(
    alloc: Global,
    facts: &Facts,
    variable: &FunctionVariable,
    slot: usize,
    slots: &[Term],
    known: &mut Vec<Formula>,
) -> Result<(), NoMemory>
    ensures { (m : sense.World) (s : Shape) (texts : Texts) → OnOk result (Behind (map term_tree slots.now ∷ []) (map formula_tree known.old.items) (map formula_tree known.new.items) (spec.range_trees m (view_facts facts.now) s texts (kind_in (view_variable variable.now)) slot)) }
{
    let held = range(facts.model, kind_of(variable));
    known.push(at_least(alloc, held, slots, slot)?)?;
    known.push(up_to(alloc, held, slots, slot)?)?;
    Ok(())
}

/// What the variables of the file hold is of their kinds.
pub(crate) fn put_file_ranges(
    alloc: Global,
    facts: &Facts,
    slots: &[Term],
    known: &mut Vec<Formula>,
) -> Result<(), NoMemory>
    ensures { (m : sense.World) (s : Shape) (texts : Texts) → OnOk result (Behind (map term_tree slots.now ∷ []) (map formula_tree known.old.items) (map formula_tree known.new.items) (spec.file_ranges m (view_facts facts.now) s texts 0 (view_facts facts.now).globals)) }
{
    for (number, variable) in facts.globals.as_slice().iter().enumerate() {
        let slot = value_slot(number)?;
        put_range(alloc, facts, variable, slot, slots, known)?;
    }
    Ok(())
}

/// What the parameters hold is of their kinds.
pub(crate) fn put_param_ranges<'a>(
    alloc: Global,
    frame: Frame<'a>,
    params: u32,
    slots: &[Term],
    known: &mut Vec<Formula>,
) -> Result<(), NoMemory>
    ensures { (m : sense.World) (k : ℕ → Integer) (texts : Texts) → OnOk result (Behind (map term_tree slots.now ∷ []) (map formula_tree known.old.items) (map formula_tree known.new.items) (spec.param_ranges m (facts_in frame.entry) (shape_in frame.entry k) texts params 0 (variables_in frame.entry))) }
{
    let mut number: u32 = 0;
    for variable in frame.variables.as_slice() {
        if number >= params {
            return Ok(());
        }
        let slot = local_value(sizes_in(frame), number)?;
        put_range(alloc, frame.facts, variable, slot, slots, known)?;
        number += 1;
    }
    Ok(())
}
