// Items of objects and pointers, behind those of the operands of their ways (C11 6.5.2.1, 6.5.3.2, 6.5.6, 6.5.8).
ghost use Rattle.std.specs.Prelude.{◌≡◌, ◌∷◌, [], ◌||◌, ℕ, not, pos, None};
ghost use Rattle.c_runs.specs.Objects as objects;
ghost use Rattle.c_runs.specs.Operators.{access, comparing, init, pointing};
ghost use Rattle.c_runs.specs.Program as spec_program;
ghost use Rattle.core_trees.specs.View.{view_variables};
ghost use Rattle.memory_values.specs.Drafts.{Pushes, ValueIs};
ghost use Rattle.memory_values.specs.View.{facts_in, shape_in, view_reading, view_term, view_terms};
ghost use Rattle.qed_terms.specs.Tree.{Tree, at_most as at_most_of, equal as equal_of, less as less_of, node, num, two};
ghost use Rattle.qed_terms.specs.declared.head.FormOp.TheVariants as form_ops;
ghost use Rattle.qed_terms.specs.declared.head.Head.TheVariants as head;
ghost use Rattle.qed_terms.specs.declared.head.TermOp.TheVariants as term_ops;
ghost use Rattle.c_runs.specs.Checks.{here};
ghost use Rattle.term_drafts.specs.Drafts.{FormulaIs, TermIs};
ghost use Rattle.value_terms.specs.Places.{write_term};
ghost use Rattle.value_terms.specs.Readings as readings;
ghost use Rattle.value_terms.specs.Terms.{address_term, load_term, of_one as of_one_of};
ghost use Rattle.value_terms.specs.Words as spec;

use crate::drafts::{all, at_most, equal, less, relation_of_all};
use crate::items::{Item, push_asked, push_known};
use crate::leaves::{flag, table};
use crate::objects::{address, cell_of, load_block, load_number, plain_global, plain_root};
use crate::ranges::{is_below, push_range};
use crate::readings::Reading;
use crate::terms::{
    ValueDraft, ValueTerm, block_of, offset_of, operand_block, operand_offset, parts,
};
use check_lists::Undefined;
use core_trees::FunctionVariable;
use qed_terms::{FormOp, TermOp};
use std::alloc::Global;
use term_drafts::{FormulaDraft, TermDraft, number, over, over_one, relation};
use typed_prog::{CoreType, Path, Step};
use value_facts::is_pointed;
use wp_base::{CellKind, Line, NoMemory};

// ---- formulas

// The block is live.
fn live(alloc: Global, reading: Reading, block: TermDraft) -> FormulaDraft
    ensures { (b : Tree) → TermIs block b → FormulaIs result (node (head.Form form_ops.Live) (two (view_reading reading.entry).table b)) }
{
    relation(alloc, FormOp::Live, table(alloc, reading), block)
}

// The offset is at least 0, and at most the length of the block.
fn from_start(alloc: Global, offset: TermDraft) -> FormulaDraft
    ensures { (o : Tree) → TermIs offset o → FormulaIs result (at_most_of (num (pos 0)) o) }
{
    at_most(alloc, number(0), offset)
}

fn to_end(alloc: Global, reading: Reading, offset: TermDraft, block: TermDraft) -> FormulaDraft
    ensures { (o b : Tree) → TermIs offset o → TermIs block b → FormulaIs result (at_most_of o (node (head.Term term_ops.Len) (two (view_reading reading.entry).table b))) }
{
    let length = over(alloc, TermOp::Len, table(alloc, reading), block);
    at_most(alloc, offset, length)
}

// The pointer leads to a cell of a live block or right behind the last one.
fn points_well(alloc: Global, reading: Reading, pointer: &ValueTerm) -> FormulaDraft
    ensures { let r = reading.entry in FormulaIs result (spec.pointing_term (facts_in r) (view_reading r) (view_term pointer.now)) }
{
    let live = live(alloc, reading, block_of(alloc, pointer));
    let start = from_start(alloc, offset_of(alloc, pointer));
    let offset = offset_of(alloc, pointer);
    let end = to_end(alloc, reading, offset, block_of(alloc, pointer));
    all(alloc, [live, start, end])
}

// The pointer that was made does.
#[tactic(auto, using(crate::proofs::Drafted::draft_laws, crate::proofs::Seeing::pointing_as))]
fn made_well(alloc: Global, reading: Reading, pointer: ValueDraft) -> FormulaDraft
    ensures { let r = reading.entry in (a : readings.Term) → ValueIs pointer a → FormulaIs result (spec.pointing_term (facts_in r) (view_reading r) a) }
{
    let pointer = pointer?;
    points_well(alloc, reading, &pointer)
}

// Both operands lead into one live object, or right behind it.
fn are_comparable(alloc: Global, reading: Reading, terms: &[ValueTerm]) -> FormulaDraft
    ensures { let r = reading.entry in FormulaIs result (spec.comparing_term (facts_in r) (view_reading r) (readings.term_at (view_terms terms.now) 0) (readings.term_at (view_terms terms.now) 1)) }
{
    let left = operand_block(alloc, terms, 0);
    let same = equal(alloc, left, operand_block(alloc, terms, 1));
    let live = live(alloc, reading, operand_block(alloc, terms, 0));
    let start = from_start(alloc, operand_offset(alloc, terms, 0));
    let left = operand_offset(alloc, terms, 0);
    let end = to_end(alloc, reading, left, operand_block(alloc, terms, 0));
    let other_start = from_start(alloc, operand_offset(alloc, terms, 1));
    let right = operand_offset(alloc, terms, 1);
    let other_end = to_end(alloc, reading, right, operand_block(alloc, terms, 0));
    all(alloc, [same, live, start, end, other_start, other_end])
}

// The cell exists, and is of the kind of this type.
fn is_cell(alloc: Global, reading: Reading, ty: &CoreType, pointer: ValueDraft) -> FormulaDraft
    ensures { let r = reading.entry in (a : readings.Term) → ValueIs pointer a → FormulaIs result (spec.access_term (facts_in r) (view_reading r) (objects.cell_of ty.now) a) }
{
    let (block, offset) = parts(pointer);
    let op = FormOp::Read(cell_of(ty));
    relation_of_all(alloc, op, [table(alloc, reading), block, offset])
}

// The cell exists, and may be written.
fn is_written(alloc: Global, reading: Reading, ty: &CoreType, pointer: ValueDraft) -> FormulaDraft
    ensures { let r = reading.entry in (a : readings.Term) → ValueIs pointer a → FormulaIs result (write_term (facts_in r) (view_reading r) (objects.cell_of ty.now) a) }
{
    let (block, offset) = parts(pointer);
    let op = FormOp::Write(cell_of(ty));
    relation_of_all(alloc, op, [table(alloc, reading), block, offset])
}

// How many blocks were made.
fn count(alloc: Global, reading: Reading) -> TermDraft
    ensures { TermIs result (of_one_of term_ops.Count (view_reading reading.entry).table) }
{
    over_one(alloc, TermOp::Count, table(alloc, reading))
}

// ---- items

// The index of a declared array.
#[tactic(auto, using(crate::proofs::Adding::pushes_none, crate::proofs::Adding::index_pushes))]
fn push_step(
    alloc: Global,
    step: &Step,
    terms: &[ValueTerm],
    out: &mut Vec<Item>,
) -> Result<(), NoMemory>
    ensures { (p : spec_program.Facts) (r : readings.Reading) (n : ℕ) → Pushes result out.old.items out.new.items (spec.index_items p r (view_terms terms.now) n (step.now ∷ [])) }
{
    match step {
        Step::Element {
            operand,
            count,
            line,
            ..
        } => {
            let below = is_below(alloc, terms, *operand as usize, *count);
            push_asked(Undefined::Index, *line, below, out)
        }
        Step::Field { .. } => Ok(()),
        Step::Moved { .. } => Ok(()),
    }
}

/// The index of each declared array on a way.
#[tactic(auto, using(crate::proofs::Adding::wants))]
pub(crate) fn push_indices(
    alloc: Global,
    path: &Path,
    terms: &[ValueTerm],
    out: &mut Vec<Item>,
) -> Result<(), NoMemory>
    ensures { (p : spec_program.Facts) (r : readings.Reading) → Pushes result out.old.items out.new.items (spec.index_items p r (view_terms terms.now) 0 path.now.steps) }
{
    for step in path.steps.as_slice() {
        push_step(alloc, step, terms, out)?;
    }
    Ok(())
}

// What a pointer leads to is a cell of the kind.
#[tactic(auto, using(crate::proofs::Adding::asked_laws))]
fn push_access(
    alloc: Global,
    reading: Reading,
    ty: &CoreType,
    path: &Path,
    terms: &[ValueTerm],
    out: &mut Vec<Item>,
) -> Result<(), NoMemory>
    ensures { let p = facts_in reading.entry in let r = view_reading reading.entry in Pushes result out.old.items out.new.items (spec.asked_if (objects.is_pointed path.now.root) access path.now.line (spec.access_term p r (objects.cell_of ty.now) (address_term p r path.now (view_terms terms.now)))) }
{
    if is_pointed(path.root) {
        let exists = is_cell(alloc, reading, ty, address(alloc, reading, path, terms));
        push_asked(Undefined::Access, path.line, exists, out)
    } else {
        Ok(())
    }
}

/// And one that may be written.
#[tactic(auto, using(crate::proofs::Adding::asked_laws))]
pub(crate) fn push_write(
    alloc: Global,
    reading: Reading,
    ty: &CoreType,
    path: &Path,
    terms: &[ValueTerm],
    out: &mut Vec<Item>,
) -> Result<(), NoMemory>
    ensures { let p = facts_in reading.entry in let r = view_reading reading.entry in Pushes result out.old.items out.new.items (spec.asked_if (objects.is_pointed path.now.root) access path.now.line (write_term p r (objects.cell_of ty.now) (address_term p r path.now (view_terms terms.now)))) }
{
    if is_pointed(path.root) {
        let may = is_written(alloc, reading, ty, address(alloc, reading, path, terms));
        push_asked(Undefined::Access, path.line, may, out)
    } else {
        Ok(())
    }
}

// A pointer that stands there leads to a block that was made, or is null.
#[tactic(auto, using(crate::proofs::Adding::wants))]
fn push_made(
    alloc: Global,
    reading: Reading,
    path: &Path,
    terms: &[ValueTerm],
    out: &mut Vec<Item>,
) -> Result<(), NoMemory>
    ensures { let p = facts_in reading.entry in let r = view_reading reading.entry in let block = load_term p r r.blocks (address_term p r path.now (view_terms terms.now)) in Pushes result out.old.items out.new.items (spec.known (at_most_of (num (pos 0)) block) ∷ spec.known (less_of block (of_one_of term_ops.Count r.table)) ∷ []) }
{
    let block = load_block(alloc, reading, path, terms);
    push_known(at_most(alloc, number(0), block), out)?;
    let block = load_block(alloc, reading, path, terms);
    push_known(less(alloc, block, count(alloc, reading)), out)
}

// What stands where a way leads is of its kind.
fn push_there(
    alloc: Global,
    reading: Reading,
    ty: &CoreType,
    path: &Path,
    terms: &[ValueTerm],
    out: &mut Vec<Item>,
) -> Result<(), NoMemory>
    ensures { let p = facts_in reading.entry in let r = view_reading reading.entry in Pushes result out.old.items out.new.items (spec.facts_by p r None ty.now path.now (view_terms terms.now)) }
{
    match cell_of(ty) {
        CellKind::Of(kind) => {
            let held = load_number(alloc, reading, kind, path, terms);
            push_range(alloc, reading.facts.model, kind, held, out)
        }
        CellKind::Ptr => push_made(alloc, reading, path, terms, out),
    }
}

// What is known of what is read; a variable of the file that no pointer leads to is known from the start.
#[tactic(auto, using(crate::proofs::Adding::pushes_none))]
fn push_facts(
    alloc: Global,
    reading: Reading,
    ty: &CoreType,
    path: &Path,
    terms: &[ValueTerm],
    out: &mut Vec<Item>,
) -> Result<(), NoMemory>
    ensures { let p = facts_in reading.entry in let r = view_reading reading.entry in Pushes result out.old.items out.new.items (spec.facts_by p r (readings.plain_global p.globals path.now.root) ty.now path.now (view_terms terms.now)) }
{
    match plain_global(reading.facts.globals.as_slice(), path.root) {
        Some(_) => Ok(()),
        None => push_there(alloc, reading, ty, path, terms, out),
    }
}

// A read of what no variable of the function is that no pointer leads to.
#[tactic(auto, using(crate::proofs::Adding::wants))]
fn push_reached(
    alloc: Global,
    reading: Reading,
    ty: &CoreType,
    path: &Path,
    terms: &[ValueTerm],
    out: &mut Vec<Item>,
) -> Result<(), NoMemory>
    ensures { let p = facts_in reading.entry in let xs = (shape_in reading.entry).variables in let r = view_reading reading.entry in Pushes result out.old.items out.new.items (spec.read_items p r None xs ty.now path.now (view_terms terms.now)) }
{
    push_indices(alloc, path, terms, out)?;
    push_access(alloc, reading, ty, path, terms, out)?;
    push_facts(alloc, reading, ty, path, terms, out)
}

fn has_value(variables: &[FunctionVariable], number: u32) -> bool
    ensures { result ≡ objects.has_value (view_variables variables.now) number }
{
    match variables.get(number as usize) {
        Some(variable) => variable.has_value,
        None => false,
    }
}

// That a variable was set.
fn is_set(alloc: Global, reading: Reading, variable: u32) -> FormulaDraft
    ensures { FormulaIs result (equal_of ((view_reading reading.entry).flags variable) (num (pos 1))) }
{
    equal(alloc, flag(alloc, reading, variable), number(1))
}

// A read of a variable of the function that no pointer leads to.
#[tactic(auto, using(crate::proofs::Adding::asked_laws))]
fn push_set(
    alloc: Global,
    reading: Reading,
    variable: u32,
    line: Line,
    out: &mut Vec<Item>,
) -> Result<(), NoMemory>
    ensures { let xs = (shape_in reading.entry).variables in Pushes result out.old.items out.new.items (spec.asked_if (not (objects.has_value xs variable)) init line (equal_of ((view_reading reading.entry).flags variable) (num (pos 1)))) }
{
    if has_value(reading.variables, variable) {
        Ok(())
    } else {
        let set = is_set(alloc, reading, variable);
        push_asked(Undefined::Init, line, set, out)
    }
}

/// The items of a read.
pub(crate) fn push_read(
    alloc: Global,
    reading: Reading,
    ty: &CoreType,
    path: &Path,
    terms: &[ValueTerm],
    out: &mut Vec<Item>,
) -> Result<(), NoMemory>
    ensures { let p = facts_in reading.entry in let xs = (shape_in reading.entry).variables in let r = view_reading reading.entry in Pushes result out.old.items out.new.items (spec.read_items p r (objects.plain_root xs path.now.root) xs ty.now path.now (view_terms terms.now)) }
{
    match plain_root(reading.variables, path.root) {
        Some(variable) => push_set(alloc, reading, variable, path.line, out),
        None => push_reached(alloc, reading, ty, path, terms, out),
    }
}

/// A pointer is made.
pub(crate) fn push_pointing(
    alloc: Global,
    reading: Reading,
    line: Line,
    pointer: ValueDraft,
    out: &mut Vec<Item>,
) -> Result<(), NoMemory>
    ensures { let r = reading.entry in (a : readings.Term) → ValueIs pointer a → Pushes result out.old.items out.new.items (spec.asked (here pointing line) (spec.pointing_term (facts_in r) (view_reading r) a) ∷ []) }
{
    let well = made_well(alloc, reading, pointer);
    push_asked(Undefined::Pointing, line, well, out)
}

// Whether a pointer needs a check: it isn't followed at once, and its way has steps.
fn is_asked(accessed: bool, path: &Path) -> bool
    ensures { result ≡ not (accessed || objects.is_sure path.now.steps) }
{
    if accessed {
        false
    } else {
        path.steps.len() != 0
    }
}

/// The items of a pointer to an object, which is at once followed or not.
#[tactic(auto, using(crate::proofs::Adding::asked_laws))]
pub(crate) fn push_address(
    alloc: Global,
    reading: Reading,
    accessed: bool,
    path: &Path,
    terms: &[ValueTerm],
    out: &mut Vec<Item>,
) -> Result<(), NoMemory>
    ensures { let p = facts_in reading.entry in let r = view_reading reading.entry in Pushes result out.old.items out.new.items (spec.address_items p r accessed path.now (view_terms terms.now)) }
{
    if is_asked(accessed, path) {
        let address = address(alloc, reading, path, terms);
        push_pointing(alloc, reading, path.line, address, out)
    } else {
        Ok(())
    }
}

/// Two pointers are compared.
pub(crate) fn push_comparing(
    alloc: Global,
    reading: Reading,
    line: Line,
    terms: &[ValueTerm],
    out: &mut Vec<Item>,
) -> Result<(), NoMemory>
    ensures { let r = reading.entry in Pushes result out.old.items out.new.items (spec.asked (here comparing line) (spec.comparing_term (facts_in r) (view_reading r) (readings.term_at (view_terms terms.now) 0) (readings.term_at (view_terms terms.now) 1)) ∷ []) }
{
    let comparable = are_comparable(alloc, reading, terms);
    push_asked(Undefined::Comparing, line, comparable, out)
}
