// What the rules make of a node over terms in normal form.
ghost use Rattle.std.specs.Prelude.{◌≡◌, map, option_map, IfOk};
ghost use Rattle.qed_terms.specs.declared.head.Head.TheVariants as h;
ghost use Rattle.qed_terms.specs.declared.head.TermOp.TheVariants as op;
ghost use Rattle.qed_terms.specs.declared.head.FormOp.TheVariants as rel;
ghost use Rattle.qed_terms.specs.Tree.{node, stop, one, three, trees_of};
ghost use Rattle.qed_terms.specs.View.{formula_tree, term_tree};
ghost use Rattle.qed_memories.specs.Memories.{layout_answer};
ghost use Rattle.qed_memories.specs.Passes.{found_down, found_tree, memory_pass};
ghost use Rattle.qed_memories.specs.View.{view_found};

use crate::blocks::{Found, find_down};
use crate::layouts::{cell_count, has_cell};
use crate::loads::{load_down, store_down};
use crate::tables::{count_down, grow_down};
use qed_linear::form_of;
use qed_terms::{FormOp, Formula, Term, TermOp};
use std::alloc::Global;
use wp_base::{CellKind, Layout, List, NoMemory};

// ---- how many cells a block has

fn found_len(alloc: Global, found: Found<'_>, block: &Term) -> Result<Term, NoMemory>
    ensures { IfOk result (λ len. term_tree len ≡ found_tree (h.Term op.Len) (term_tree block.now) stop (view_found found.entry)) }
{
    match found {
        Found::MadeAs(layout) => Ok(Term::number(cell_count(layout))),
        Found::Nowhere => Ok(Term::number(0)),
        Found::Unmade(table) => {
            let table = table.copy(alloc)?;
            Term::over(alloc, TermOp::Len, table, block.copy(alloc)?)
        }
    }
}

fn len_down(alloc: Global, table: &Term, block: &Term) -> Result<Option<Term>, NoMemory>
    ensures { IfOk result (λ len. option_map term_tree len ≡ found_down (h.Term op.Len) (term_tree table.now) (term_tree block.now) stop) }
{
    let form = form_of(alloc, block)?;
    match find_down(alloc, &form, table)? {
        Some(found) => Ok(Some(found_len(alloc, found, block)?)),
        None => Ok(None),
    }
}

// ---- whether a block is live, and whether it has a cell

#[tactic(auto, using(qed_terms::proofs::Equations::tree_laws))]
fn relation(
    alloc: Global,
    op: FormOp,
    table: &Term,
    block: &Term,
    offset: &Term,
) -> Result<Formula, NoMemory>
    ensures { IfOk result (λ formula. formula_tree formula ≡ node (h.Form op) (three (term_tree table.now) (term_tree block.now) (term_tree offset.now))) }
{
    let mut kids = List::new(alloc);
    kids.push(table.copy(alloc)?)?;
    kids.push(block.copy(alloc)?)?;
    kids.push(offset.copy(alloc)?)?;
    Ok(Formula::Rel(op, kids))
}

#[tactic(auto, using(qed_terms::proofs::Equations::tree_laws))]
fn found_live(alloc: Global, found: Found<'_>, block: &Term) -> Result<Formula, NoMemory>
    ensures { IfOk result (λ live. formula_tree live ≡ found_tree (h.Form rel.Live) (term_tree block.now) stop (view_found found.entry)) }
{
    match found {
        Found::MadeAs(_) => Ok(Formula::True),
        Found::Nowhere => Ok(Formula::False),
        Found::Unmade(table) => {
            let table = table.copy(alloc)?;
            Formula::relation(alloc, FormOp::Live, table, block.copy(alloc)?)
        }
    }
}

fn live_down(alloc: Global, table: &Term, block: &Term) -> Result<Option<Formula>, NoMemory>
    ensures { IfOk result (λ live. option_map formula_tree live ≡ found_down (h.Form rel.Live) (term_tree table.now) (term_tree block.now) stop) }
{
    let form = form_of(alloc, block)?;
    match find_down(alloc, &form, table)? {
        Some(found) => Ok(Some(found_live(alloc, found, block)?)),
        None => Ok(None),
    }
}

#[tactic(auto, using(qed_terms::proofs::Equations::tree_laws))]
fn found_read(
    alloc: Global,
    found: Found<'_>,
    kind: CellKind,
    block: &Term,
    offset: &Term,
) -> Result<Formula, NoMemory>
    ensures { IfOk result (λ read. formula_tree read ≡ found_tree (h.Form (rel.Read kind)) (term_tree block.now) (one (term_tree offset.now)) (view_found found.entry)) }
{
    match found {
        Found::MadeAs(layout) => has_cell(alloc, layout, kind, offset),
        Found::Nowhere => Ok(Formula::False),
        Found::Unmade(table) => relation(alloc, FormOp::Read(kind), table, block, offset),
    }
}

fn read_down(
    alloc: Global,
    kind: CellKind,
    table: &Term,
    block: &Term,
    offset: &Term,
) -> Result<Option<Formula>, NoMemory>
    ensures { IfOk result (λ read. option_map formula_tree read ≡ found_down (h.Form (rel.Read kind)) (term_tree table.now) (term_tree block.now) (one (term_tree offset.now))) }
{
    let form = form_of(alloc, block)?;
    match find_down(alloc, &form, table)? {
        Some(found) => Ok(Some(found_read(alloc, found, kind, block, offset)?)),
        None => Ok(None),
    }
}

#[tactic(auto, using(qed_terms::proofs::Equations::tree_laws))]
fn written(
    alloc: Global,
    layout: &Layout,
    kind: CellKind,
    offset: &Term,
) -> Result<Formula, NoMemory>
    ensures { IfOk result (λ formula. formula_tree formula ≡ layout_answer layout.now (h.Form (rel.Write kind)) (one (term_tree offset.now))) }
{
    if !layout.writable {
        return Ok(Formula::False);
    }
    has_cell(alloc, layout, kind, offset)
}

#[tactic(auto, using(qed_terms::proofs::Equations::tree_laws))]
fn found_write(
    alloc: Global,
    found: Found<'_>,
    kind: CellKind,
    block: &Term,
    offset: &Term,
) -> Result<Formula, NoMemory>
    ensures { IfOk result (λ write. formula_tree write ≡ found_tree (h.Form (rel.Write kind)) (term_tree block.now) (one (term_tree offset.now)) (view_found found.entry)) }
{
    match found {
        Found::MadeAs(layout) => written(alloc, layout, kind, offset),
        Found::Nowhere => Ok(Formula::False),
        Found::Unmade(table) => relation(alloc, FormOp::Write(kind), table, block, offset),
    }
}

fn write_down(
    alloc: Global,
    kind: CellKind,
    table: &Term,
    block: &Term,
    offset: &Term,
) -> Result<Option<Formula>, NoMemory>
    ensures { IfOk result (λ write. option_map formula_tree write ≡ found_down (h.Form (rel.Write kind)) (term_tree table.now) (term_tree block.now) (one (term_tree offset.now))) }
{
    let form = form_of(alloc, block)?;
    match find_down(alloc, &form, table)? {
        Some(found) => Ok(Some(found_write(alloc, found, kind, block, offset)?)),
        None => Ok(None),
    }
}

// ---- all of them

/// What the rules make of an operator over terms in normal form, each applied again as long as it changes what it made.
pub fn memory_pass(alloc: Global, op: &TermOp, kids: &[Term]) -> Result<Option<Term>, NoMemory>
    ensures { IfOk result (λ normal. option_map term_tree normal ≡ memory_pass (h.Term op.now) (trees_of (map term_tree kids.now))) }
{
    match op {
        TermOp::Load => {
            if kids.len() != 3 {
                return Ok(None);
            }
            load_down(alloc, &kids[0], &kids[1], &kids[2])
        }
        TermOp::Store => {
            if kids.len() != 4 {
                return Ok(None);
            }
            store_down(alloc, &kids[0], &kids[1], &kids[2], &kids[3])
        }
        TermOp::Count => {
            if kids.len() != 1 {
                return Ok(None);
            }
            count_down(alloc, &kids[0])
        }
        TermOp::Grow => {
            if kids.len() != 2 {
                return Ok(None);
            }
            grow_down(alloc, &kids[0], &kids[1])
        }
        TermOp::Len => {
            if kids.len() != 2 {
                return Ok(None);
            }
            len_down(alloc, &kids[0], &kids[1])
        }
        TermOp::Add
        | TermOp::Sub
        | TermOp::Mul
        | TermOp::Neg
        | TermOp::Div
        | TermOp::Mod
        | TermOp::Wrap(_)
        | TermOp::ShiftLeft
        | TermOp::ShiftRight
        | TermOp::BitAnd
        | TermOp::BitOr
        | TermOp::BitXor
        | TermOp::BitNot
        | TermOp::Alloc(_) => Ok(None),
    }
}

/// What they make of a relation over terms in normal form.
pub fn block_pass(alloc: Global, op: &FormOp, kids: &[Term]) -> Result<Option<Formula>, NoMemory>
    ensures { IfOk result (λ normal. option_map formula_tree normal ≡ memory_pass (h.Form op.now) (trees_of (map term_tree kids.now))) }
{
    match op {
        FormOp::Live => {
            if kids.len() != 2 {
                return Ok(None);
            }
            live_down(alloc, &kids[0], &kids[1])
        }
        FormOp::Read(kind) => {
            if kids.len() != 3 {
                return Ok(None);
            }
            read_down(alloc, *kind, &kids[0], &kids[1], &kids[2])
        }
        FormOp::Write(kind) => {
            if kids.len() != 3 {
                return Ok(None);
            }
            write_down(alloc, *kind, &kids[0], &kids[1], &kids[2])
        }
        FormOp::Equal
        | FormOp::AtMost
        | FormOp::Less
        | FormOp::Same
        | FormOp::Has(_)
        | FormOp::WellFormed(_)
        | FormOp::Frame(_) => Ok(None),
    }
}
