// What expressions read: variables and temporaries by their kinds, flags, homes, the table of blocks and memories.
ghost use Rattle.std.specs.Prelude.{◌≡◌, slice_get};
ghost use Rattle.core_trees.specs.View.{view_variable, view_variables};
ghost use Rattle.memory_words.specs.Shapes.{kind_of as spec_kind};
ghost use Rattle.memory_values.specs.Drafts.{ValueIs};
ghost use Rattle.memory_values.specs.OverSlots.{integer_at, kind_at, memory_at, two_at, variable_at};
ghost use Rattle.memory_values.specs.View.{sizes_in, slots_in, view_place, view_reading};
ghost use Rattle.term_drafts.specs.Drafts.{TermIs};

use crate::readings::Reading;
use crate::slots::{Place, read_integer, read_memory, read_table, sizes_of, slot_of};
use crate::terms::{ValueDraft, number_value, pointer_value};
use core_trees::FunctionVariable;
use std::alloc::Global;
use term_drafts::{TermDraft, number};
use typed_prog::Variable;
use wp_base::{CellKind, Kind};

// ---- places

// The integer in a place.
#[tactic(auto, using(crate::proofs::Drafted::draft_laws))]
fn integer(alloc: Global, reading: Reading, place: Place) -> TermDraft
    ensures { let r = reading.entry in TermIs result (integer_at (sizes_in r) (slots_in r) (view_place place)) }
{
    let at = slot_of(sizes_of(reading), place)?;
    let made = read_integer(alloc, reading.slots, at)?;
    Ok(made)
}

// The memory in a place.
#[tactic(auto, using(crate::proofs::Drafted::draft_laws))]
fn memory(alloc: Global, reading: Reading, place: Place) -> TermDraft
    ensures { let r = reading.entry in TermIs result (memory_at (sizes_in r) (slots_in r) (view_place place)) }
{
    let at = slot_of(sizes_of(reading), place)?;
    let made = read_memory(alloc, reading.slots, at)?;
    Ok(made)
}

// An integer in the first place, or a pointer in both.
fn of_kind(
    alloc: Global,
    reading: Reading,
    kind: CellKind,
    first: Place,
    second: Place,
) -> ValueDraft
    ensures { let r = reading.entry in ValueIs result (two_at (sizes_in r) (slots_in r) kind (view_place first) (view_place second)) }
{
    match kind {
        CellKind::Of(_) => number_value(integer(alloc, reading, first)),
        CellKind::Ptr => pointer_value(
            integer(alloc, reading, first),
            integer(alloc, reading, second),
        ),
    }
}

// ---- variables

// The kind of what a variable holds that no pointer leads to.
#[tactic(auto, using(crate::proofs::Slotted::first_cell, crate::proofs::Slotted::no_cell))]
fn kind_of(variable: &FunctionVariable) -> CellKind
    ensures { result ≡ spec_kind (view_variable variable.now) }
{
    let cells = variable.layout.cells.as_slice();
    if cells.is_empty() {
        CellKind::Ptr
    } else {
        cells[0]
    }
}

// What a variable holds that no pointer leads to; one that isn't there holds 0.
fn variable(
    alloc: Global,
    reading: Reading,
    variables: &[FunctionVariable],
    number_of: u32,
    is: Variable,
) -> ValueDraft
    ensures { let r = reading.entry in ValueIs result (variable_at (sizes_in r) (slots_in r) is (slice_get (view_variables variables.now) number_of)) }
{
    match variables.get(number_of as usize) {
        Some(variable) => {
            let kind = kind_of(variable);
            of_kind(alloc, reading, kind, Place::Value(is), Place::Offset(is))
        }
        None => number_value(number(0)),
    }
}

/// A variable of the file.
#[tactic(auto, unfolding(crate::specs::OverSlots::slot_reading))]
pub(crate) fn global(alloc: Global, reading: Reading, number: u32) -> ValueDraft
    ensures { ValueIs result ((view_reading reading.entry).globals number) }
{
    let variables = reading.facts.globals.as_slice();
    variable(alloc, reading, variables, number, Variable::Global(number))
}

/// A variable of the function.
#[tactic(auto, unfolding(crate::specs::OverSlots::slot_reading))]
pub(crate) fn local(alloc: Global, reading: Reading, number: u32) -> ValueDraft
    ensures { ValueIs result ((view_reading reading.entry).locals number) }
{
    let variables = reading.variables;
    variable(alloc, reading, variables, number, Variable::Local(number))
}

/// Whether a variable of the function was set.
#[tactic(auto, unfolding(crate::specs::OverSlots::slot_reading))]
pub(crate) fn flag(alloc: Global, reading: Reading, number: u32) -> TermDraft
    ensures { TermIs result ((view_reading reading.entry).flags number) }
{
    integer(alloc, reading, Place::Flag(Variable::Local(number)))
}

/// The block of a variable of the function.
#[tactic(auto, unfolding(crate::specs::OverSlots::slot_reading))]
pub(crate) fn home_block(alloc: Global, reading: Reading, number: u32) -> TermDraft
    ensures { TermIs result ((view_reading reading.entry).homes number) }
{
    integer(alloc, reading, Place::Value(Variable::Local(number)))
}

// ---- temporaries

// The kind of a temporary; one that isn't there counts as an `int`.
fn temporary_kind(kinds: &[CellKind], number: u32) -> CellKind
    ensures { result ≡ kind_at kinds.now number }
{
    match kinds.get(number as usize) {
        Some(kind) => *kind,
        None => CellKind::Of(Kind::Int),
    }
}

/// A temporary.
#[tactic(auto, unfolding(crate::specs::OverSlots::slot_reading))]
pub(crate) fn temporary(alloc: Global, reading: Reading, number: u32) -> ValueDraft
    ensures { ValueIs result ((view_reading reading.entry).temporaries number) }
{
    let kind = temporary_kind(reading.temporaries, number);
    let second = Place::TemporaryOffset(number);
    of_kind(alloc, reading, kind, Place::Temporary(number), second)
}

// ---- blocks

/// The table of blocks.
#[tactic(auto, using(crate::proofs::Drafted::draft_laws), unfolding(crate::specs::OverSlots::slot_reading))]
pub(crate) fn table(alloc: Global, reading: Reading) -> TermDraft
    ensures { TermIs result (view_reading reading.entry).table }
{
    let made = read_table(alloc, reading.table)?;
    Ok(made)
}

/// The memory of the cells of a kind of integers.
#[tactic(auto, unfolding(crate::specs::OverSlots::slot_reading))]
pub(crate) fn number_memory(alloc: Global, reading: Reading, kind: Kind) -> TermDraft
    ensures { TermIs result ((view_reading reading.entry).numbers kind) }
{
    memory(alloc, reading, Place::Numbers(kind))
}

/// That of the blocks in the cells of pointers.
#[tactic(auto, unfolding(crate::specs::OverSlots::slot_reading))]
pub(crate) fn block_memory(alloc: Global, reading: Reading) -> TermDraft
    ensures { TermIs result (view_reading reading.entry).blocks }
{
    memory(alloc, reading, Place::Blocks)
}

/// And of the offsets.
#[tactic(auto, unfolding(crate::specs::OverSlots::slot_reading))]
pub(crate) fn offset_memory(alloc: Global, reading: Reading) -> TermDraft
    ensures { TermIs result (view_reading reading.entry).offsets }
{
    memory(alloc, reading, Place::Offsets)
}
