// Objects: where a way leads, and the terms of what stands there (C11 6.3.2.1, 6.5.2, 6.5.3.2).
ghost use Rattle.std.specs.Prelude.{◌≡◌, ◌∷◌, [], ℕ, false, map, negsuc, pos, slice_get, suc, List, None};
ghost use Rattle.c_runs.specs.Objects as objects;
ghost use Rattle.c_runs.specs.Program as spec_program;
ghost use Rattle.c_runs.specs.States.{home_from};
ghost use Rattle.core_trees.specs.View.{view_variables};
ghost use Rattle.program_trees.specs.View.{view_facts};
ghost use Rattle.program_steps.specs.Terms.{unused_memory, unused_table};
ghost use Rattle.qed_terms.specs.Tree.{node, stop};
ghost use Rattle.qed_terms.specs.View.{term_tree};
ghost use Rattle.qed_terms.specs.declared.head.Head.TheVariants as head;
ghost use Rattle.term_drafts.specs.Drafts.{TermIs};
ghost use Rattle.value_terms.specs.Readings as readings;
ghost use Rattle.value_terms.specs.Terms as spec;
ghost use Rattle.value_words.specs.Drafts.{ValueIs};
ghost use Rattle.value_words.specs.OverSlots.{reading_of, slot_term};
ghost use Rattle.value_words.specs.View.{view_term, view_terms};
ghost use Rattle.walk_steps.specs.Forms.{Slots};

use crate::drafts::over_all;
use crate::pointers::{field, moved};
use crate::slots::{local_value, read_slot, sizes_of, value_slot};
use crate::terms::{
    ValueDraft, ValueTerm, number_value, operand, operand_number, parts, pointer_value,
};
use core_trees::FunctionVariable;
use program_trees::Facts;
use qed_terms::{Sort, Term, TermOp};
use std::alloc::Global;
use term_drafts::{TermDraft, number};
use typed_prog::{CoreType, Path, Root, Step, Variable};
use wp_base::{CellKind, NoMemory, Str};

/// The name that stands for a memory and for the table of blocks, which plain expressions don't read.
const UNUSED: &[u8] = b"a";

// ---- variables

fn is_plain_at(variables: &[FunctionVariable], number: u32) -> bool
    ensures { result ≡ objects.is_plain_in (slice_get (view_variables variables.now) number) }
{
    match variables.get(number as usize) {
        Some(variable) => variable.is_plain,
        None => false,
    }
}

/// The variable of the function that no pointer leads to, if the way begins at one.
pub(crate) fn plain_root(variables: &[FunctionVariable], root: Root) -> Option<u32>
    ensures { result ≡ objects.plain_root (view_variables variables.now) root }
{
    match root {
        Root::Variable(Variable::Local(number)) => {
            if is_plain_at(variables, number) {
                Some(number)
            } else {
                None
            }
        }
        Root::Variable(Variable::Global(_)) => None,
        Root::Pointed(_) => None,
    }
}

/// The variable of the file that no pointer leads to, if the way begins at one.
pub(crate) fn plain_global(globals: &[FunctionVariable], root: Root) -> Option<u32>
    ensures { result ≡ readings.plain_global (view_variables globals.now) root }
{
    match root {
        Root::Variable(Variable::Global(number)) => {
            if is_plain_at(globals, number) {
                Some(number)
            } else {
                None
            }
        }
        Root::Variable(Variable::Local(_)) => None,
        Root::Pointed(_) => None,
    }
}

// The number of the block of a variable that no pointer leads to, behind so many of them.
fn hidden_block(plains: u32) -> i128
    ensures { result ≡ negsuc plains }
{
    -1 - i128::from(plains)
}

// That of another one, behind so many of those.
fn open_block(blocks: u32) -> i128
    ensures { result ≡ pos (suc blocks) }
{
    1 + i128::from(blocks)
}

// The block of a variable of the file.
#[tactic(auto, using(crate::proofs::Homes::home_laws))]
fn home_of(globals: &[FunctionVariable], number: u32) -> i128
    ensures { result ≡ home_from 0 0 (view_variables globals.now) number }
{
    let mut blocks = 0u32;
    let mut plains = 0u32;
    let mut left = number;
    for variable in globals {
        if left == 0 {
            return if variable.is_plain {
                hidden_block(plains)
            } else {
                open_block(blocks)
            };
        }
        left -= 1;
        if variable.is_plain {
            plains += 1;
        } else {
            blocks += 1;
        }
    }
    0
}

// Where the object of a variable begins.
#[tactic(auto, unfolding(crate::specs::OverSlots::slot_reading))]
fn home(facts: &Facts, variable: Variable) -> TermDraft
    ensures { (xs : List spec_program.Variable) (ts : Slots) → TermIs result (spec.home_term (view_facts facts.now) (reading_of (view_facts facts.now) xs ts) variable) }
{
    match variable {
        Variable::Global(at) => number(home_of(facts.globals.as_slice(), at)),
        Variable::Local(_) => number(0),
    }
}

// ---- ways

// Where a way begins.
fn start(alloc: Global, facts: &Facts, root: Root, terms: &[ValueTerm]) -> ValueDraft
    ensures { (xs : List spec_program.Variable) (ts : Slots) → ValueIs result (spec.start_term (view_facts facts.now) (reading_of (view_facts facts.now) xs ts) root (view_terms terms.now)) }
{
    match root {
        Root::Variable(variable) => pointer_value(home(facts, variable), number(0)),
        Root::Pointed(at) => operand(alloc, terms, at as usize),
    }
}

// So many elements further on, as an operand says.
fn indexed(
    alloc: Global,
    terms: &[ValueTerm],
    index: u32,
    size: u32,
    pointer: ValueTerm,
) -> ValueDraft
    ensures { ValueIs result (spec.moved_term false size (view_term pointer) (readings.term_at (view_terms terms.now) index)) }
{
    let index = operand_number(alloc, terms, index as usize);
    moved(alloc, false, size, Ok(pointer), index)
}

// One step further.
fn stepped(alloc: Global, terms: &[ValueTerm], step: &Step, pointer: ValueTerm) -> ValueDraft
    ensures { (p : spec_program.Facts) (r : readings.Reading) → ValueIs result (spec.stepped_term p r (view_terms terms.now) step.now (view_term pointer)) }
{
    match step {
        Step::Field { offset, .. } => field(alloc, *offset, Ok(pointer)),
        Step::Element { operand, size, .. } => indexed(alloc, terms, *operand, *size, pointer),
        Step::Moved { operand, size } => indexed(alloc, terms, *operand, *size, pointer),
    }
}

/// Where a way leads.
#[tactic(auto, using(crate::proofs::Homes::way_laws, crate::proofs::Drafted::draft_laws))]
pub(crate) fn address(alloc: Global, facts: &Facts, path: &Path, terms: &[ValueTerm]) -> ValueDraft
    ensures { (xs : List spec_program.Variable) (ts : Slots) → ValueIs result (spec.address_term (view_facts facts.now) (reading_of (view_facts facts.now) xs ts) path.now (view_terms terms.now)) }
{
    let mut pointer = start(alloc, facts, path.root, terms)?;
    for step in path.steps.as_slice() {
        pointer = stepped(alloc, terms, step, pointer)?;
    }
    Ok(pointer)
}

// ---- what stands there

/// The cell of a scalar of this type.
pub(crate) fn cell_of(ty: &CoreType) -> CellKind
    ensures { result ≡ objects.cell_of ty.now }
{
    match ty.kind() {
        Some(kind) => CellKind::Of(kind),
        None => CellKind::Ptr,
    }
}

// A name of this sort, where no slot stands for what is read.
#[tactic(auto, using(crate::proofs::Drafted::draft_laws, qed_terms::proofs::Equations::tree_laws))]
fn unused(alloc: Global, sort: Sort) -> TermDraft
    ensures { TermIs result (node (head.Var (97 ∷ []) sort) stop) }
{
    let name = Str::from_bytes(alloc, UNUSED)?;
    Ok(Term::Var(name, sort))
}

/// The table of blocks, which no slot stands for.
pub(crate) fn table(alloc: Global) -> TermDraft
    ensures { TermIs result unused_table }
{
    unused(alloc, Sort::Table)
}

// A memory, which no slot stands for.
fn memory(alloc: Global) -> TermDraft
    ensures { TermIs result unused_memory }
{
    unused(alloc, Sort::Memory)
}

/// What stands in a cell where a way leads, in a memory that no slot stands for.
pub(crate) fn load(alloc: Global, facts: &Facts, path: &Path, terms: &[ValueTerm]) -> TermDraft
    ensures { (xs : List spec_program.Variable) (ts : Slots) → let p = view_facts facts.now in let r = reading_of p xs ts in TermIs result (spec.load_term p r unused_memory (spec.address_term p r path.now (view_terms terms.now))) }
{
    let (block, offset) = parts(address(alloc, facts, path, terms));
    over_all(alloc, TermOp::Load, [memory(alloc), block, offset])
}

/// The term in a slot.
#[tactic(auto, using(crate::proofs::Drafted::draft_laws))]
pub(crate) fn in_slot(alloc: Global, slots: &[Term], at: usize) -> TermDraft
    ensures { (slot : ℕ) → at ≡ slot → TermIs result (slot_term (map term_tree slots.now) slot) }
{
    let made = read_slot(alloc, slots, at)?;
    Ok(made)
}

// The term in the slot of a variable of the file.
#[tactic(auto, using(crate::proofs::Drafted::no_value), unfolding(crate::specs::OverSlots::slot_reading))]
fn global(alloc: Global, slots: &[Term], number: u32) -> ValueDraft
    ensures { (p : spec_program.Facts) (xs : List spec_program.Variable) → ValueIs result ((reading_of p xs (map term_tree slots.now)).globals number) }
{
    let slot = value_slot(number as usize)?;
    number_value(in_slot(alloc, slots, slot))
}

// That of a variable of the function.
#[tactic(auto, using(crate::proofs::Drafted::no_value), unfolding(crate::specs::OverSlots::slot_reading))]
fn local(
    alloc: Global,
    facts: &Facts,
    variables: &[FunctionVariable],
    slots: &[Term],
    number: u32,
) -> ValueDraft
    ensures { ValueIs result ((reading_of (view_facts facts.now) (view_variables variables.now) (map term_tree slots.now)).locals number) }
{
    let slot = local_value(sizes_of(facts, variables), number)?;
    number_value(in_slot(alloc, slots, slot))
}

// What stands where a way leads.
fn reached(
    alloc: Global,
    facts: &Facts,
    ty: &CoreType,
    path: &Path,
    terms: &[ValueTerm],
) -> ValueDraft
    ensures { (xs : List spec_program.Variable) (ts : Slots) → ValueIs result (spec.cell_term (view_facts facts.now) (reading_of (view_facts facts.now) xs ts) None ty.now path.now (view_terms terms.now)) }
{
    match cell_of(ty) {
        CellKind::Of(_) => number_value(load(alloc, facts, path, terms)),
        CellKind::Ptr => pointer_value(
            load(alloc, facts, path, terms),
            load(alloc, facts, path, terms),
        ),
    }
}

// What stands in an object of the file, or where a pointer leads.
fn cell(
    alloc: Global,
    facts: &Facts,
    slots: &[Term],
    ty: &CoreType,
    path: &Path,
    terms: &[ValueTerm],
) -> ValueDraft
    ensures { (xs : List spec_program.Variable) → ValueIs result (spec.cell_term (view_facts facts.now) (reading_of (view_facts facts.now) xs (map term_tree slots.now)) (readings.plain_global (view_facts facts.now).globals path.now.root) ty.now path.now (view_terms terms.now)) }
{
    match plain_global(facts.globals.as_slice(), path.root) {
        Some(number) => global(alloc, slots, number),
        None => reached(alloc, facts, ty, path, terms),
    }
}

/// What is read at the end of a way.
pub(crate) fn read(
    alloc: Global,
    facts: &Facts,
    variables: &[FunctionVariable],
    slots: &[Term],
    ty: &CoreType,
    path: &Path,
    terms: &[ValueTerm],
) -> ValueDraft
    ensures { ValueIs result (spec.read_term (view_facts facts.now) (reading_of (view_facts facts.now) (view_variables variables.now) (map term_tree slots.now)) (objects.plain_root (view_variables variables.now) path.now.root) ty.now path.now (view_terms terms.now)) }
{
    match plain_root(variables, path.root) {
        Some(number) => local(alloc, facts, variables, slots, number),
        None => cell(alloc, facts, slots, ty, path, terms),
    }
}
