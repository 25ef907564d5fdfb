// Items of objects and pointers, behind those of the operands of their ways (C11 6.5.2.1, 6.5.3.2, 6.5.6, 6.5.8).
ghost use Rattle.std.specs.Prelude.{◌≡◌, ◌∷◌, [], ◌||◌, ℕ, not, map, pos, List, None};
ghost use Rattle.c_runs.specs.Objects as objects;
ghost use Rattle.c_runs.specs.Operators.{access, comparing, init, pointing};
ghost use Rattle.c_runs.specs.Program as spec_program;
ghost use Rattle.core_trees.specs.View.{view_variables};
ghost use Rattle.program_steps.specs.Terms.{unused_memory, unused_table};
ghost use Rattle.program_trees.specs.View.{view_facts};
ghost use Rattle.qed_terms.specs.Tree.{Tree, at_most as at_most_of, equal as equal_of, less as less_of, node, num, two};
ghost use Rattle.qed_terms.specs.View.{term_tree};
ghost use Rattle.qed_terms.specs.declared.head.FormOp.TheVariants as form_ops;
ghost use Rattle.qed_terms.specs.declared.head.Head.TheVariants as head;
ghost use Rattle.qed_terms.specs.declared.head.TermOp.TheVariants as term_ops;
ghost use Rattle.c_runs.specs.Checks.{here};
ghost use Rattle.term_drafts.specs.Drafts.{FormulaIs, TermIs};
ghost use Rattle.value_terms.specs.Readings as readings;
ghost use Rattle.value_terms.specs.Terms.{address_term, load_term, of_one as of_one_of};
ghost use Rattle.value_terms.specs.Words as spec;
ghost use Rattle.value_words.specs.Drafts.{Pushes, ValueIs};
ghost use Rattle.value_words.specs.OverSlots.{reading_of};
ghost use Rattle.value_words.specs.View.{view_term, view_terms};
ghost use Rattle.walk_steps.specs.Forms.{Slots};

use crate::drafts::{all, at_most, equal, less, relation_of_all};
use crate::items::{Item, push_asked, push_known};
use crate::objects::{address, cell_of, in_slot, load, plain_global, plain_root, table};
use crate::ranges::{is_below, push_range};
use crate::slots::{local_flag, sizes_of};
use crate::terms::{
    ValueDraft, ValueTerm, block_of, offset_of, operand_block, operand_offset, parts,
};
use check_lists::Undefined;
use core_trees::FunctionVariable;
use program_trees::Facts;
use qed_terms::{FormOp, Term, TermOp};
use std::alloc::Global;
use term_drafts::{FormulaDraft, TermDraft, number, over, over_one, relation};
use typed_prog::{CoreType, Path, Step};
use value_facts::is_pointed;
use wp_base::{CellKind, Line, NoMemory};

// ---- formulas; no slot stands for the table of blocks

// The block is live.
fn live(alloc: Global, block: TermDraft) -> FormulaDraft
    ensures { (b : Tree) → TermIs block b → FormulaIs result (node (head.Form form_ops.Live) (two unused_table b)) }
{
    relation(alloc, FormOp::Live, table(alloc), block)
}

// The offset is at least 0, and at most the length of the block.
fn from_start(alloc: Global, offset: TermDraft) -> FormulaDraft
    ensures { (o : Tree) → TermIs offset o → FormulaIs result (at_most_of (num (pos 0)) o) }
{
    at_most(alloc, number(0), offset)
}

fn to_end(alloc: Global, offset: TermDraft, block: TermDraft) -> FormulaDraft
    ensures { (o b : Tree) → TermIs offset o → TermIs block b → FormulaIs result (at_most_of o (node (head.Term term_ops.Len) (two unused_table b))) }
{
    let length = over(alloc, TermOp::Len, table(alloc), block);
    at_most(alloc, offset, length)
}

// The pointer leads to a cell of a live block or right behind the last one.
#[tactic(auto, unfolding(crate::specs::OverSlots::slot_reading))]
fn points_well(alloc: Global, pointer: &ValueTerm) -> FormulaDraft
    ensures { (p : spec_program.Facts) (xs : List spec_program.Variable) (ts : Slots) → FormulaIs result (spec.pointing_term p (reading_of p xs ts) (view_term pointer.now)) }
{
    let live = live(alloc, block_of(alloc, pointer));
    let start = from_start(alloc, offset_of(alloc, pointer));
    let offset = offset_of(alloc, pointer);
    let end = to_end(alloc, offset, block_of(alloc, pointer));
    all(alloc, [live, start, end])
}

// The pointer that was made does.
#[tactic(auto, using(crate::proofs::Drafted::draft_laws, crate::proofs::Seeing::pointing_as))]
fn made_well(alloc: Global, pointer: ValueDraft) -> FormulaDraft
    ensures { (p : spec_program.Facts) (xs : List spec_program.Variable) (ts : Slots) (a : readings.Term) → ValueIs pointer a → FormulaIs result (spec.pointing_term p (reading_of p xs ts) a) }
{
    let pointer = pointer?;
    points_well(alloc, &pointer)
}

// Both operands lead into one live object, or right behind it.
#[tactic(auto, unfolding(crate::specs::OverSlots::slot_reading))]
fn are_comparable(alloc: Global, terms: &[ValueTerm]) -> FormulaDraft
    ensures { (p : spec_program.Facts) (xs : List spec_program.Variable) (ts : Slots) → FormulaIs result (spec.comparing_term p (reading_of p xs ts) (readings.term_at (view_terms terms.now) 0) (readings.term_at (view_terms terms.now) 1)) }
{
    let left = operand_block(alloc, terms, 0);
    let same = equal(alloc, left, operand_block(alloc, terms, 1));
    let live = live(alloc, operand_block(alloc, terms, 0));
    let start = from_start(alloc, operand_offset(alloc, terms, 0));
    let left = operand_offset(alloc, terms, 0);
    let end = to_end(alloc, left, operand_block(alloc, terms, 0));
    let other_start = from_start(alloc, operand_offset(alloc, terms, 1));
    let right = operand_offset(alloc, terms, 1);
    let other_end = to_end(alloc, right, operand_block(alloc, terms, 0));
    all(alloc, [same, live, start, end, other_start, other_end])
}

// The cell exists, and is of the kind of this type.
#[tactic(auto, unfolding(crate::specs::OverSlots::slot_reading))]
fn is_cell(alloc: Global, ty: &CoreType, pointer: ValueDraft) -> FormulaDraft
    ensures { (p : spec_program.Facts) (xs : List spec_program.Variable) (ts : Slots) (a : readings.Term) → ValueIs pointer a → FormulaIs result (spec.access_term p (reading_of p xs ts) (objects.cell_of ty.now) a) }
{
    let (block, offset) = parts(pointer);
    let op = FormOp::Read(cell_of(ty));
    relation_of_all(alloc, op, [table(alloc), block, offset])
}

// How many blocks were made.
fn count(alloc: Global) -> TermDraft
    ensures { TermIs result (of_one_of term_ops.Count unused_table) }
{
    over_one(alloc, TermOp::Count, table(alloc))
}

// ---- items

// The index of a declared array.
#[tactic(auto, using(crate::proofs::Adding::pushes_none, crate::proofs::Adding::index_pushes))]
fn push_step(
    alloc: Global,
    step: &Step,
    terms: &[ValueTerm],
    out: &mut Vec<Item>,
) -> Result<(), NoMemory>
    ensures { (p : spec_program.Facts) (r : readings.Reading) (n : ℕ) → Pushes result out.old.items out.new.items (spec.index_items p r (view_terms terms.now) n (step.now ∷ [])) }
{
    match step {
        Step::Element {
            operand,
            count,
            line,
            ..
        } => {
            let below = is_below(alloc, terms, *operand as usize, *count);
            push_asked(Undefined::Index, *line, below, out)
        }
        Step::Field { .. } => Ok(()),
        Step::Moved { .. } => Ok(()),
    }
}

// The index of each declared array on a way.
#[tactic(auto, using(crate::proofs::Adding::wants))]
fn push_indices(
    alloc: Global,
    path: &Path,
    terms: &[ValueTerm],
    out: &mut Vec<Item>,
) -> Result<(), NoMemory>
    ensures { (p : spec_program.Facts) (r : readings.Reading) → Pushes result out.old.items out.new.items (spec.index_items p r (view_terms terms.now) 0 path.now.steps) }
{
    for step in path.steps.as_slice() {
        push_step(alloc, step, terms, out)?;
    }
    Ok(())
}

// What a pointer leads to is a cell of the kind.
#[tactic(auto, using(crate::proofs::Adding::asked_laws))]
fn push_access(
    alloc: Global,
    facts: &Facts,
    ty: &CoreType,
    path: &Path,
    terms: &[ValueTerm],
    out: &mut Vec<Item>,
) -> Result<(), NoMemory>
    ensures { (xs : List spec_program.Variable) (ts : Slots) → let p = view_facts facts.now in let r = reading_of p xs ts in Pushes result out.old.items out.new.items (spec.asked_if (objects.is_pointed path.now.root) access path.now.line (spec.access_term p r (objects.cell_of ty.now) (address_term p r path.now (view_terms terms.now)))) }
{
    if is_pointed(path.root) {
        let address = address(alloc, facts, path, terms);
        let exists = is_cell(alloc, ty, address);
        push_asked(Undefined::Access, path.line, exists, out)
    } else {
        Ok(())
    }
}

// A pointer that stands there leads to a block that was made, or is null.
#[tactic(auto, using(crate::proofs::Adding::wants))]
fn push_made(
    alloc: Global,
    facts: &Facts,
    path: &Path,
    terms: &[ValueTerm],
    out: &mut Vec<Item>,
) -> Result<(), NoMemory>
    ensures { (xs : List spec_program.Variable) (ts : Slots) → let p = view_facts facts.now in let r = reading_of p xs ts in let block = load_term p r unused_memory (address_term p r path.now (view_terms terms.now)) in Pushes result out.old.items out.new.items (spec.known (at_most_of (num (pos 0)) block) ∷ spec.known (less_of block (of_one_of term_ops.Count unused_table)) ∷ []) }
{
    let low = at_most(alloc, number(0), load(alloc, facts, path, terms));
    push_known(low, out)?;
    let high = less(alloc, load(alloc, facts, path, terms), count(alloc));
    push_known(high, out)
}

// What stands where a way leads is of its kind.
fn push_there(
    alloc: Global,
    facts: &Facts,
    ty: &CoreType,
    path: &Path,
    terms: &[ValueTerm],
    out: &mut Vec<Item>,
) -> Result<(), NoMemory>
    ensures { (xs : List spec_program.Variable) (ts : Slots) → let p = view_facts facts.now in Pushes result out.old.items out.new.items (spec.facts_by p (reading_of p xs ts) None ty.now path.now (view_terms terms.now)) }
{
    match cell_of(ty) {
        CellKind::Of(kind) => {
            let held = load(alloc, facts, path, terms);
            push_range(alloc, facts.model, kind, held, out)
        }
        CellKind::Ptr => push_made(alloc, facts, path, terms, out),
    }
}

// What is known of what is read; a variable of the file that no pointer leads to is known from the start.
#[tactic(auto, using(crate::proofs::Adding::pushes_none))]
fn push_facts(
    alloc: Global,
    facts: &Facts,
    ty: &CoreType,
    path: &Path,
    terms: &[ValueTerm],
    out: &mut Vec<Item>,
) -> Result<(), NoMemory>
    ensures { (xs : List spec_program.Variable) (ts : Slots) → let p = view_facts facts.now in Pushes result out.old.items out.new.items (spec.facts_by p (reading_of p xs ts) (readings.plain_global p.globals path.now.root) ty.now path.now (view_terms terms.now)) }
{
    match plain_global(facts.globals.as_slice(), path.root) {
        Some(_) => Ok(()),
        None => push_there(alloc, facts, ty, path, terms, out),
    }
}

// A read of what no variable of the function is that no pointer leads to.
#[tactic(auto, using(crate::proofs::Adding::wants))]
fn push_reached(
    alloc: Global,
    facts: &Facts,
    ty: &CoreType,
    path: &Path,
    terms: &[ValueTerm],
    out: &mut Vec<Item>,
) -> Result<(), NoMemory>
    ensures { (xs ys : List spec_program.Variable) (ts : Slots) → let p = view_facts facts.now in Pushes result out.old.items out.new.items (spec.read_items p (reading_of p xs ts) None ys ty.now path.now (view_terms terms.now)) }
{
    push_indices(alloc, path, terms, out)?;
    push_access(alloc, facts, ty, path, terms, out)?;
    push_facts(alloc, facts, ty, path, terms, out)
}

fn has_value(variables: &[FunctionVariable], number: u32) -> bool
    ensures { result ≡ objects.has_value (view_variables variables.now) number }
{
    match variables.get(number as usize) {
        Some(variable) => variable.has_value,
        None => false,
    }
}

// That a variable was set.
#[tactic(auto, using(term_drafts::proofs::Drafted::no_formula), unfolding(crate::specs::OverSlots::slot_reading))]
fn is_set(
    alloc: Global,
    facts: &Facts,
    variables: &[FunctionVariable],
    slots: &[Term],
    variable: u32,
) -> FormulaDraft
    ensures { FormulaIs result (equal_of ((reading_of (view_facts facts.now) (view_variables variables.now) (map term_tree slots.now)).flags variable) (num (pos 1))) }
{
    let slot = local_flag(sizes_of(facts, variables), variable)?;
    equal(alloc, in_slot(alloc, slots, slot), number(1))
}

// A read of a variable of the function that no pointer leads to.
#[tactic(auto, using(crate::proofs::Adding::asked_laws))]
fn push_set(
    alloc: Global,
    facts: &Facts,
    variables: &[FunctionVariable],
    slots: &[Term],
    variable: u32,
    line: Line,
    out: &mut Vec<Item>,
) -> Result<(), NoMemory>
    ensures { let p = view_facts facts.now in let xs = view_variables variables.now in Pushes result out.old.items out.new.items (spec.asked_if (not (objects.has_value xs variable)) init line (equal_of ((reading_of p xs (map term_tree slots.now)).flags variable) (num (pos 1)))) }
{
    if has_value(variables, variable) {
        Ok(())
    } else {
        let set = is_set(alloc, facts, variables, slots, variable);
        push_asked(Undefined::Init, line, set, out)
    }
}

/// The items of a read.
pub(crate) fn push_read(
    alloc: Global,
    facts: &Facts,
    variables: &[FunctionVariable],
    slots: &[Term],
    ty: &CoreType,
    path: &Path,
    terms: &[ValueTerm],
    out: &mut Vec<Item>,
) -> Result<(), NoMemory>
    ensures { let p = view_facts facts.now in let xs = view_variables variables.now in Pushes result out.old.items out.new.items (spec.read_items p (reading_of p xs (map term_tree slots.now)) (objects.plain_root xs path.now.root) xs ty.now path.now (view_terms terms.now)) }
{
    match plain_root(variables, path.root) {
        Some(variable) => push_set(alloc, facts, variables, slots, variable, path.line, out),
        None => push_reached(alloc, facts, ty, path, terms, out),
    }
}

/// A pointer is made.
pub(crate) fn push_pointing(
    alloc: Global,
    line: Line,
    pointer: ValueDraft,
    out: &mut Vec<Item>,
) -> Result<(), NoMemory>
    ensures { (p : spec_program.Facts) (xs : List spec_program.Variable) (ts : Slots) (a : readings.Term) → ValueIs pointer a → Pushes result out.old.items out.new.items (spec.asked (here pointing line) (spec.pointing_term p (reading_of p xs ts) a) ∷ []) }
{
    let well = made_well(alloc, pointer);
    push_asked(Undefined::Pointing, line, well, out)
}

// Whether a pointer needs a check: it isn't followed at once, and its way has steps.
fn is_asked(accessed: bool, path: &Path) -> bool
    ensures { result ≡ not (accessed || objects.is_sure path.now.steps) }
{
    if accessed {
        false
    } else {
        path.steps.len() != 0
    }
}

/// The items of a pointer to an object, which is at once followed or not.
#[tactic(auto, using(crate::proofs::Adding::asked_laws))]
pub(crate) fn push_address(
    alloc: Global,
    facts: &Facts,
    accessed: bool,
    path: &Path,
    terms: &[ValueTerm],
    out: &mut Vec<Item>,
) -> Result<(), NoMemory>
    ensures { (xs : List spec_program.Variable) (ts : Slots) → let p = view_facts facts.now in Pushes result out.old.items out.new.items (spec.address_items p (reading_of p xs ts) accessed path.now (view_terms terms.now)) }
{
    if is_asked(accessed, path) {
        let address = address(alloc, facts, path, terms);
        push_pointing(alloc, path.line, address, out)
    } else {
        Ok(())
    }
}

/// Two pointers are compared.
pub(crate) fn push_comparing(
    alloc: Global,
    line: Line,
    terms: &[ValueTerm],
    out: &mut Vec<Item>,
) -> Result<(), NoMemory>
    ensures { (p : spec_program.Facts) (xs : List spec_program.Variable) (ts : Slots) → Pushes result out.old.items out.new.items (spec.asked (here comparing line) (spec.comparing_term p (reading_of p xs ts) (readings.term_at (view_terms terms.now) 0) (readings.term_at (view_terms terms.now) 1)) ∷ []) }
{
    push_asked(
        Undefined::Comparing,
        line,
        are_comparable(alloc, terms),
        out,
    )
}
