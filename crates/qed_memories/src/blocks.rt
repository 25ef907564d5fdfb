// Blocks that are looked for in a table.
ghost use Rattle.std.specs.Prelude.{◌≡◌, option_map, IfOk};
ghost use Rattle.qed_terms.specs.View.{term_tree};
ghost use Rattle.qed_linear.specs.View.{lin_of};
ghost use Rattle.qed_memories.specs.Memories.{number_of, past_count, is_no_block};
ghost use Rattle.qed_memories.specs.Passes.{find, nowhere_or, nowhere_where, find_down};
ghost use Rattle.qed_memories.specs.View.{view_found};

use crate::addresses::{difference, is_from_zero, is_up_to_zero, is_zero_where};
use crate::look::{TableNode, table_node};
use crate::tables::count_form;
use qed_linear::LinForm;
use qed_terms::Term;
use std::alloc::Global;
use wp_base::{Layout, NoMemory};

/// Where a block is found: it was made with this layout, there is no such block, or another table is to be asked.
#[derive(Clone, Copy)]
pub enum Found<'a> {
    MadeAs(&'a Layout),
    Nowhere,
    Unmade(&'a Term),
}

// The number of the block less the count of the table.
#[tactic(auto, unfolding(crate::specs::Memories::past_count))]
fn past_count(alloc: Global, block: &LinForm, table: &Term) -> Result<Option<i128>, NoMemory>
    ensures { IfOk result (λ past. past ≡ past_count (lin_of block.now) (term_tree table.now)) }
{
    let count = count_form(alloc, table)?;
    difference(alloc, block, &count)
}

fn number_of(form: &LinForm) -> Option<i128>
    ensures { result ≡ number_of (lin_of form.now) }
{
    if form.parts.is_empty() {
        return Some(form.constant);
    }
    None
}

// Whether the table has no block of this number.
#[tactic(auto, unfolding(crate::specs::Memories::is_no_block))]
fn is_no_block(alloc: Global, block: &LinForm, table: &Term) -> Result<bool, NoMemory>
    ensures { IfOk result (λ answer. answer ≡ is_no_block (term_tree table.now) (lin_of block.now)) }
{
    if is_up_to_zero(number_of(block)) {
        return Ok(true);
    }
    Ok(is_from_zero(past_count(alloc, block, table)?))
}

fn nowhere_or<'a>(alloc: Global, block: &LinForm, table: &'a Term) -> Result<Found<'a>, NoMemory>
    ensures { IfOk result (λ found. view_found found ≡ nowhere_or (is_no_block (term_tree table.now) (lin_of block.now)) (term_tree table.now)) }
{
    if is_no_block(alloc, block, table)? {
        return Ok(Found::Nowhere);
    }
    Ok(Found::Unmade(table))
}

// Where the block is found whose number has this form.
#[tactic(auto, using(crate::proofs::Finding::find_laws))]
fn find<'a>(alloc: Global, block: &LinForm, table: &'a Term) -> Result<Found<'a>, NoMemory>
    ensures { IfOk result (λ found. view_found found ≡ find (term_tree table.now) (lin_of block.now)) }
{
    let mut left = table;
    loop {
        match table_node(left) {
            TableNode::Grown(below, _) => left = below,
            TableNode::Made(layout, below) => {
                match is_zero_where(past_count(alloc, block, below)?) {
                    None => return nowhere_or(alloc, block, left),
                    Some(true) => return Ok(Found::MadeAs(layout)),
                    Some(false) => left = below,
                }
            }
            TableNode::Other => return nowhere_or(alloc, block, left),
        }
    }
}

fn nowhere_where<'a>(
    alloc: Global,
    block: &LinForm,
    table: &'a Term,
) -> Result<Option<Found<'a>>, NoMemory>
    ensures { IfOk result (λ found. option_map view_found found ≡ nowhere_where (is_no_block (term_tree table.now) (lin_of block.now))) }
{
    if is_no_block(alloc, block, table)? {
        return Ok(Some(Found::Nowhere));
    }
    Ok(None)
}

/// Where the block is found, if that isn't the table itself.
#[tactic(auto, using(crate::proofs::Finding::find_laws))]
pub fn find_down<'a>(
    alloc: Global,
    block: &LinForm,
    table: &'a Term,
) -> Result<Option<Found<'a>>, NoMemory>
    ensures { IfOk result (λ found. option_map view_found found ≡ find_down (term_tree table.now) (lin_of block.now)) }
{
    match table_node(table) {
        TableNode::Grown(below, _) => Ok(Some(find(alloc, block, below)?)),
        TableNode::Made(layout, below) => {
            match is_zero_where(past_count(alloc, block, below)?) {
                None => nowhere_where(alloc, block, table),
                Some(true) => Ok(Some(Found::MadeAs(layout))),
                Some(false) => Ok(Some(find(alloc, block, below)?)),
            }
        }
        TableNode::Other => nowhere_where(alloc, block, table),
    }
}
