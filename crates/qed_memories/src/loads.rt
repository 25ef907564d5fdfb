// Loads down chains of stores, and stores over stores.
ghost use Rattle.std.specs.Prelude.{◌≡◌, option_map, IfOk};
ghost use Rattle.qed_terms.specs.View.{term_tree};
ghost use Rattle.qed_linear.specs.Linear.{to_lin};
ghost use Rattle.qed_linear.specs.View.{lin_of};
ghost use Rattle.qed_memories.specs.Memories.{load_tree, store_tree};
ghost use Rattle.qed_memories.specs.Passes.{cell_tree, find_cell, is_so, load_down, store_base, store_down};
ghost use Rattle.qed_memories.specs.View.{view_cell};

use crate::addresses::is_address;
use crate::look::{MemoryNode, memory_node};
use qed_linear::{LinForm, form_of, is_integer};
use qed_terms::{Term, TermOp};
use std::alloc::Global;
use wp_base::{List, NoMemory};

/// What is found at an address: the value that was stored there, or the memory that is to be read.
#[derive(Clone, Copy)]
pub enum Cell<'a> {
    Value(&'a Term),
    Unread(&'a Term),
}

// What is found at the address that has these forms.
#[tactic(auto, using(crate::proofs::Chains::load_laws))]
fn find_cell<'a>(
    alloc: Global,
    block: &LinForm,
    offset: &LinForm,
    memory: &'a Term,
) -> Result<Cell<'a>, NoMemory>
    ensures { IfOk result (λ cell. view_cell cell ≡ find_cell (term_tree memory.now) (lin_of block.now) (lin_of offset.now)) }
{
    let mut left = memory;
    loop {
        match memory_node(left) {
            MemoryNode::Store(below, at_block, at_offset, value) => {
                match is_address(alloc, block, offset, at_block, at_offset)? {
                    None => return Ok(Cell::Unread(left)),
                    Some(false) => left = below,
                    Some(true) => {
                        if is_integer(value) {
                            return Ok(Cell::Value(value));
                        }
                        return Ok(Cell::Unread(left));
                    }
                }
            }
            MemoryNode::Other => return Ok(Cell::Unread(left)),
        }
    }
}

#[tactic(auto, using(qed_terms::proofs::Equations::tree_laws))]
fn load_of(alloc: Global, memory: &Term, block: &Term, offset: &Term) -> Result<Term, NoMemory>
    ensures { IfOk result (λ load. term_tree load ≡ load_tree (term_tree memory.now) (term_tree block.now) (term_tree offset.now)) }
{
    let mut kids = List::new(alloc);
    kids.push(memory.copy(alloc)?)?;
    kids.push(block.copy(alloc)?)?;
    kids.push(offset.copy(alloc)?)?;
    Ok(Term::Op(TermOp::Load, kids))
}

// The value that is found, or the load of what is to be read.
fn cell_term(alloc: Global, cell: Cell<'_>, block: &Term, offset: &Term) -> Result<Term, NoMemory>
    ensures { IfOk result (λ term. term_tree term ≡ cell_tree (view_cell cell.entry) (term_tree block.now) (term_tree offset.now)) }
{
    match cell {
        Cell::Value(value) => Ok(value.copy(alloc)?),
        Cell::Unread(memory) => load_of(alloc, memory, block, offset),
    }
}

/// A load down a chain of stores, where that changes it.
#[tactic(auto, using(crate::proofs::Chains::load_laws))]
pub fn load_down(
    alloc: Global,
    memory: &Term,
    block: &Term,
    offset: &Term,
) -> Result<Option<Term>, NoMemory>
    ensures { IfOk result (λ term. option_map term_tree term ≡ load_down (term_tree memory.now) (term_tree block.now) (term_tree offset.now)) }
{
    match memory_node(memory) {
        MemoryNode::Store(below, at_block, at_offset, value) => {
            let block_form = form_of(alloc, block)?;
            let offset_form = form_of(alloc, offset)?;
            match is_address(alloc, &block_form, &offset_form, at_block, at_offset)? {
                None => Ok(None),
                Some(true) => {
                    if is_integer(value) {
                        return Ok(Some(value.copy(alloc)?));
                    }
                    Ok(None)
                }
                Some(false) => {
                    let cell = find_cell(alloc, &block_form, &offset_form, below)?;
                    Ok(Some(cell_term(alloc, cell, block, offset)?))
                }
            }
        }
        MemoryNode::Other => Ok(None),
    }
}

// The memory below the stores at the address that has these forms.
#[tactic(auto, using(crate::proofs::Chains::store_laws))]
fn store_base<'a>(
    alloc: Global,
    block: &LinForm,
    offset: &LinForm,
    memory: &'a Term,
) -> Result<&'a Term, NoMemory>
    ensures { IfOk result (λ base. term_tree base.now ≡ store_base (term_tree memory.now) (lin_of block.now) (lin_of offset.now)) }
{
    let mut left = memory;
    loop {
        match memory_node(left) {
            MemoryNode::Store(below, at_block, at_offset, _) => {
                if !is_so(is_address(alloc, block, offset, at_block, at_offset)?) {
                    return Ok(left);
                }
                left = below;
            }
            MemoryNode::Other => return Ok(left),
        }
    }
}

fn is_so(known: Option<bool>) -> bool
    ensures { result ≡ is_so known }
{
    match known {
        Some(known) => known,
        None => false,
    }
}

#[tactic(auto, using(qed_terms::proofs::Equations::tree_laws))]
fn store_of(
    alloc: Global,
    memory: &Term,
    block: &Term,
    offset: &Term,
    value: &Term,
) -> Result<Term, NoMemory>
    ensures { IfOk result (λ store. term_tree store ≡ store_tree (term_tree memory.now) (term_tree block.now) (term_tree offset.now) (term_tree value.now)) }
{
    let mut kids = List::new(alloc);
    kids.push(memory.copy(alloc)?)?;
    kids.push(block.copy(alloc)?)?;
    kids.push(offset.copy(alloc)?)?;
    kids.push(value.copy(alloc)?)?;
    Ok(Term::Op(TermOp::Store, kids))
}

/// A store over stores at its address, where that changes it.
#[tactic(auto, using(crate::proofs::Chains::store_laws))]
pub fn store_down(
    alloc: Global,
    memory: &Term,
    block: &Term,
    offset: &Term,
    value: &Term,
) -> Result<Option<Term>, NoMemory>
    ensures { IfOk result (λ term. option_map term_tree term ≡ store_down (term_tree memory.now) (term_tree block.now) (term_tree offset.now) (term_tree value.now)) }
{
    match memory_node(memory) {
        MemoryNode::Store(below, at_block, at_offset, _) => {
            let block_form = form_of(alloc, block)?;
            let offset_form = form_of(alloc, offset)?;
            if !is_so(is_address(alloc, &block_form, &offset_form, at_block, at_offset)?) {
                return Ok(None);
            }
            let base = store_base(alloc, &block_form, &offset_form, below)?;
            Ok(Some(store_of(alloc, base, block, offset, value)?))
        }
        MemoryNode::Other => Ok(None),
    }
}
