// Objects: where a way leads, and the terms of what stands there (C11 6.3.2.1, 6.5.2, 6.5.3.2).
ghost use Rattle.std.specs.Prelude.{◌≡◌, false, negsuc, pos, slice_get, suc, None};
ghost use Rattle.c_runs.specs.Objects as objects;
ghost use Rattle.c_runs.specs.Program as spec_program;
ghost use Rattle.c_runs.specs.States.{home_from};
ghost use Rattle.core_trees.specs.View.{view_variables};
ghost use Rattle.memory_values.specs.Drafts.{ValueIs};
ghost use Rattle.memory_values.specs.View.{facts_in, shape_in, view_reading, view_term, view_terms};
ghost use Rattle.qed_terms.specs.Tree.{Tree};
ghost use Rattle.term_drafts.specs.Drafts.{TermIs};
ghost use Rattle.value_terms.specs.Readings as readings;
ghost use Rattle.value_terms.specs.Terms as spec;

use crate::drafts::over_all;
use crate::leaves::{block_memory, global, home_block, local, number_memory, offset_memory};
use crate::pointers::{field, moved};
use crate::readings::Reading;
use crate::terms::{
    ValueDraft, ValueTerm, number_value, operand, operand_number, parts, pointer_value,
};
use core_trees::FunctionVariable;
use qed_terms::TermOp;
use std::alloc::Global;
use term_drafts::{TermDraft, number};
use typed_prog::{CoreType, Path, Root, Step, Variable};
use wp_base::{CellKind, Kind};

// ---- variables

fn is_plain_at(variables: &[FunctionVariable], number: u32) -> bool
    ensures { result ≡ objects.is_plain_in (slice_get (view_variables variables.now) number) }
{
    match variables.get(number as usize) {
        Some(variable) => variable.is_plain,
        None => false,
    }
}

/// The variable of the function that no pointer leads to, if the way begins at one.
pub(crate) fn plain_root(variables: &[FunctionVariable], root: Root) -> Option<u32>
    ensures { result ≡ objects.plain_root (view_variables variables.now) root }
{
    match root {
        Root::Variable(Variable::Local(number)) => {
            if is_plain_at(variables, number) {
                Some(number)
            } else {
                None
            }
        }
        Root::Variable(Variable::Global(_)) => None,
        Root::Pointed(_) => None,
    }
}

/// The variable of the file that no pointer leads to, if the way begins at one.
pub(crate) fn plain_global(globals: &[FunctionVariable], root: Root) -> Option<u32>
    ensures { result ≡ readings.plain_global (view_variables globals.now) root }
{
    match root {
        Root::Variable(Variable::Global(number)) => {
            if is_plain_at(globals, number) {
                Some(number)
            } else {
                None
            }
        }
        Root::Variable(Variable::Local(_)) => None,
        Root::Pointed(_) => None,
    }
}

// The number of the block of a variable that no pointer leads to, behind so many of them.
fn hidden_block(plains: u32) -> i128
    ensures { result ≡ negsuc plains }
{
    -1 - i128::from(plains)
}

// That of another one, behind so many of those.
fn open_block(blocks: u32) -> i128
    ensures { result ≡ pos (suc blocks) }
{
    1 + i128::from(blocks)
}

// The block of a variable of the file.
#[tactic(auto, using(crate::proofs::Homes::home_laws))]
fn home_of(globals: &[FunctionVariable], number: u32) -> i128
    ensures { result ≡ home_from 0 0 (view_variables globals.now) number }
{
    let mut blocks = 0u32;
    let mut plains = 0u32;
    let mut left = number;
    for variable in globals {
        if left == 0 {
            return if variable.is_plain {
                hidden_block(plains)
            } else {
                open_block(blocks)
            };
        }
        left -= 1;
        if variable.is_plain {
            plains += 1;
        } else {
            blocks += 1;
        }
    }
    0
}

// Where the object of a variable begins.
fn home(alloc: Global, reading: Reading, variable: Variable) -> TermDraft
    ensures { let r = reading.entry in TermIs result (spec.home_term (facts_in r) (view_reading r) variable) }
{
    match variable {
        Variable::Global(at) => number(home_of(reading.facts.globals.as_slice(), at)),
        Variable::Local(at) => home_block(alloc, reading, at),
    }
}

// ---- ways

// Where a way begins.
fn start(alloc: Global, reading: Reading, root: Root, terms: &[ValueTerm]) -> ValueDraft
    ensures { let r = reading.entry in ValueIs result (spec.start_term (facts_in r) (view_reading r) root (view_terms terms.now)) }
{
    match root {
        Root::Variable(variable) => pointer_value(home(alloc, reading, variable), number(0)),
        Root::Pointed(at) => operand(alloc, terms, at as usize),
    }
}

// So many elements further on, as an operand says.
fn indexed(
    alloc: Global,
    terms: &[ValueTerm],
    index: u32,
    size: u32,
    pointer: ValueTerm,
) -> ValueDraft
    ensures { ValueIs result (spec.moved_term false size (view_term pointer) (readings.term_at (view_terms terms.now) index)) }
{
    let index = operand_number(alloc, terms, index as usize);
    moved(alloc, false, size, Ok(pointer), index)
}

// One step further.
fn stepped(alloc: Global, terms: &[ValueTerm], step: &Step, pointer: ValueTerm) -> ValueDraft
    ensures { (p : spec_program.Facts) (r : readings.Reading) → ValueIs result (spec.stepped_term p r (view_terms terms.now) step.now (view_term pointer)) }
{
    match step {
        Step::Field { offset, .. } => field(alloc, *offset, Ok(pointer)),
        Step::Element { operand, size, .. } => indexed(alloc, terms, *operand, *size, pointer),
        Step::Moved { operand, size } => indexed(alloc, terms, *operand, *size, pointer),
    }
}

/// Where a way leads.
#[tactic(auto, using(crate::proofs::Homes::way_laws, crate::proofs::Drafted::draft_laws))]
pub(crate) fn address(
    alloc: Global,
    reading: Reading,
    path: &Path,
    terms: &[ValueTerm],
) -> ValueDraft
    ensures { let r = reading.entry in ValueIs result (spec.address_term (facts_in r) (view_reading r) path.now (view_terms terms.now)) }
{
    let mut pointer = start(alloc, reading, path.root, terms)?;
    for step in path.steps.as_slice() {
        pointer = stepped(alloc, terms, step, pointer)?;
    }
    Ok(pointer)
}

// ---- what stands there

/// The cell of a scalar of this type.
pub(crate) fn cell_of(ty: &CoreType) -> CellKind
    ensures { result ≡ objects.cell_of ty.now }
{
    match ty.kind() {
        Some(kind) => CellKind::Of(kind),
        None => CellKind::Ptr,
    }
}

/// What stands in a memory where a way leads.
pub(crate) fn load(
    alloc: Global,
    reading: Reading,
    memory: TermDraft,
    path: &Path,
    terms: &[ValueTerm],
) -> TermDraft
    ensures { let p = facts_in reading.entry in let r = view_reading reading.entry in (m : Tree) → TermIs memory m → TermIs result (spec.load_term p r m (spec.address_term p r path.now (view_terms terms.now))) }
{
    let (block, offset) = parts(address(alloc, reading, path, terms));
    over_all(alloc, TermOp::Load, [memory, block, offset])
}

/// The block that a pointer there leads to.
pub(crate) fn load_block(
    alloc: Global,
    reading: Reading,
    path: &Path,
    terms: &[ValueTerm],
) -> TermDraft
    ensures { let p = facts_in reading.entry in let r = view_reading reading.entry in TermIs result (spec.load_term p r r.blocks (spec.address_term p r path.now (view_terms terms.now))) }
{
    load(alloc, reading, block_memory(alloc, reading), path, terms)
}

// And the offset.
fn load_offset(alloc: Global, reading: Reading, path: &Path, terms: &[ValueTerm]) -> TermDraft
    ensures { let p = facts_in reading.entry in let r = view_reading reading.entry in TermIs result (spec.load_term p r r.offsets (spec.address_term p r path.now (view_terms terms.now))) }
{
    load(alloc, reading, offset_memory(alloc, reading), path, terms)
}

/// An integer of the kind there.
pub(crate) fn load_number(
    alloc: Global,
    reading: Reading,
    kind: Kind,
    path: &Path,
    terms: &[ValueTerm],
) -> TermDraft
    ensures { let p = facts_in reading.entry in let r = view_reading reading.entry in TermIs result (spec.load_term p r (r.numbers kind) (spec.address_term p r path.now (view_terms terms.now))) }
{
    load(
        alloc,
        reading,
        number_memory(alloc, reading, kind),
        path,
        terms,
    )
}

// What stands where a way leads.
fn reached(
    alloc: Global,
    reading: Reading,
    ty: &CoreType,
    path: &Path,
    terms: &[ValueTerm],
) -> ValueDraft
    ensures { let p = facts_in reading.entry in let r = view_reading reading.entry in ValueIs result (spec.cell_term p r None ty.now path.now (view_terms terms.now)) }
{
    match cell_of(ty) {
        CellKind::Of(kind) => number_value(load_number(alloc, reading, kind, path, terms)),
        CellKind::Ptr => pointer_value(
            load_block(alloc, reading, path, terms),
            load_offset(alloc, reading, path, terms),
        ),
    }
}

// What stands in an object of the file, or where a pointer leads.
fn cell(
    alloc: Global,
    reading: Reading,
    ty: &CoreType,
    path: &Path,
    terms: &[ValueTerm],
) -> ValueDraft
    ensures { let p = facts_in reading.entry in let r = view_reading reading.entry in ValueIs result (spec.cell_term p r (readings.plain_global p.globals path.now.root) ty.now path.now (view_terms terms.now)) }
{
    match plain_global(reading.facts.globals.as_slice(), path.root) {
        Some(number) => global(alloc, reading, number),
        None => reached(alloc, reading, ty, path, terms),
    }
}

/// What is read at the end of a way.
pub(crate) fn read(
    alloc: Global,
    reading: Reading,
    ty: &CoreType,
    path: &Path,
    terms: &[ValueTerm],
) -> ValueDraft
    ensures { let p = facts_in reading.entry in let xs = (shape_in reading.entry).variables in let r = view_reading reading.entry in ValueIs result (spec.read_term p r (objects.plain_root xs path.now.root) ty.now path.now (view_terms terms.now)) }
{
    match plain_root(reading.variables, path.root) {
        Some(number) => local(alloc, reading, number),
        None => cell(alloc, reading, ty, path, terms),
    }
}
