// Counts of tables, tables that grow, and blocks that are looked for.
ghost use Rattle.std.specs.Prelude.{◌≡◌, map, option_map, IfOk};
ghost use Rattle.qed_terms.specs.declared.head.Head.TheVariants as h;
ghost use Rattle.qed_terms.specs.Tree.{head_of, node, trees_of};
ghost use Rattle.qed_terms.specs.View.{term_tree};
ghost use Rattle.qed_linear.specs.Linear.{to_lin, of_lin};
ghost use Rattle.qed_linear.specs.View.{lin_of};
ghost use Rattle.qed_numbers.specs.Numbers.{then_some};
ghost use Rattle.qed_memories.specs.Memories.{count_tree, normal_count, is_table, is_count_of, is_own_count};
ghost use Rattle.qed_memories.specs.Passes.{count_down, grow_base, grow_end, grow_down};
ghost use Rattle.qed_memories.specs.View.{raised};

use crate::addresses::{apart, is_from_zero};
use crate::look::{TableNode, table_node};
use qed_linear::{LinForm, LinPart, form_of, into_term};
use qed_terms::{Sort, Term, TermOp};
use std::alloc::Global;
use wp_base::{List, NoMemory};

// ---- counts

// A table without the blocks that were made last, and how many these are.
#[tactic(auto, using(crate::proofs::Counts::unmade_laws))]
fn unmade(table: &Term) -> Result<(&Term, u64), NoMemory>
    ensures { IfOk result (λ base. normal_count (term_tree table.now) ≡ raised base.1 (count_tree (term_tree base.0.now))) }
{
    let mut left = table;
    let mut made: u64 = 0;
    loop {
        match table_node(left) {
            TableNode::Made(_, below) => {
                left = below;
                match made.checked_add(1) {
                    Some(more) => made = more,
                    None => return Err(NoMemory),
                }
            }
            TableNode::Grown(_, _) => return Ok((left, made)),
            TableNode::Other => return Ok((left, made)),
        }
    }
}

#[tactic(auto, using(qed_terms::proofs::Equations::tree_laws))]
fn count_of(alloc: Global, table: &Term) -> Result<Term, NoMemory>
    ensures { IfOk result (λ count. term_tree count ≡ count_tree (term_tree table.now)) }
{
    let mut kids = List::new(alloc);
    kids.push(table.copy(alloc)?)?;
    Ok(Term::Op(TermOp::Count, kids))
}

/// The form of the count of a table in normal form.
#[tactic(auto, using(crate::proofs::Counts::count_form_is, crate::proofs::Counts::count_term_is))]
pub fn count_form(alloc: Global, table: &Term) -> Result<LinForm, NoMemory>
    ensures { IfOk result (λ form. (lin_of form ≡ to_lin (normal_count (term_tree table.now))) × (of_lin (lin_of form) ≡ normal_count (term_tree table.now))) }
{
    let (base, made) = unmade(table)?;
    let atom = count_of(alloc, base)?;
    let mut parts = Vec::new(alloc);
    parts.push(LinPart { atom, times: 1 })?;
    Ok(LinForm {
        parts,
        constant: i128::from(made),
    })
}

/// The count of a table to which blocks were added.
#[tactic(auto, using(crate::proofs::Counts::count_laws))]
pub fn count_down(alloc: Global, table: &Term) -> Result<Option<Term>, NoMemory>
    ensures { IfOk result (λ count. option_map term_tree count ≡ count_down (term_tree table.now)) }
{
    match table_node(table) {
        TableNode::Made(_, _) => {
            let form = count_form(alloc, table)?;
            Ok(Some(into_term(alloc, form)?))
        }
        TableNode::Grown(_, _) => Ok(None),
        TableNode::Other => Ok(None),
    }
}

// ---- tables that grow

fn makes_table(op: &TermOp) -> bool
    ensures { result ≡ is_table (h.Term op.now) }
{
    match op {
        TermOp::Alloc(_) | TermOp::Grow => true,
        TermOp::Add
        | TermOp::Sub
        | TermOp::Mul
        | TermOp::Neg
        | TermOp::Div
        | TermOp::Mod
        | TermOp::Wrap(_)
        | TermOp::ShiftLeft
        | TermOp::ShiftRight
        | TermOp::BitAnd
        | TermOp::BitOr
        | TermOp::BitXor
        | TermOp::BitNot
        | TermOp::Load
        | TermOp::Count
        | TermOp::Len
        | TermOp::Store => false,
    }
}

#[tactic(auto, using(qed_terms::proofs::Equations::tree_laws))]
fn is_table(term: &Term) -> bool
    ensures { result ≡ is_table (head_of (term_tree term.now)) }
{
    match term {
        Term::Op(op, _) => makes_table(op),
        Term::Var(_, sort) => match sort {
            Sort::Int => false,
            Sort::Memory => false,
            Sort::Table => true,
        },
        Term::Num(_) => false,
        Term::Ite(_, _, _) => false,
        Term::App(_, _) => false,
    }
}

fn is_count_over(table: &Term, op: &TermOp, kids: &[Term]) -> bool
    ensures { result ≡ is_count_of (term_tree table.now) (node (h.Term op.now) (trees_of (map term_tree kids.now))) }
{
    match op {
        TermOp::Count => {
            if kids.len() != 1 {
                return false;
            }
            table.is_same(&kids[0])
        }
        TermOp::Add
        | TermOp::Sub
        | TermOp::Mul
        | TermOp::Neg
        | TermOp::Div
        | TermOp::Mod
        | TermOp::Wrap(_)
        | TermOp::ShiftLeft
        | TermOp::ShiftRight
        | TermOp::BitAnd
        | TermOp::BitOr
        | TermOp::BitXor
        | TermOp::BitNot
        | TermOp::Load
        | TermOp::Len
        | TermOp::Store
        | TermOp::Alloc(_)
        | TermOp::Grow => false,
    }
}

// Whether the term is the count of the table.
#[tactic(auto, using(qed_terms::proofs::Equations::tree_laws))]
fn is_count_of(table: &Term, term: &Term) -> bool
    ensures { result ≡ is_count_of (term_tree table.now) (term_tree term.now) }
{
    match term {
        Term::Op(op, kids) => is_count_over(table, op, kids.as_slice()),
        Term::Num(_) => false,
        Term::Var(_, _) => false,
        Term::Ite(_, _, _) => false,
        Term::App(_, _) => false,
    }
}

fn is_own_count(table: &Term, count: &Term) -> bool
    ensures { result ≡ is_own_count (term_tree table.now) (term_tree count.now) }
{
    is_count_of(table, count) && is_table(table)
}

// The table below those that were grown to no larger a count than the one of this form.
#[tactic(auto, using(crate::proofs::Chains::grow_laws))]
fn grow_base<'a>(alloc: Global, count: &LinForm, table: &'a Term) -> Result<&'a Term, NoMemory>
    ensures { IfOk result (λ base. term_tree base.now ≡ grow_base (term_tree table.now) (lin_of count.now)) }
{
    let mut left = table;
    loop {
        match table_node(left) {
            TableNode::Grown(below, before) => {
                if !is_from_zero(apart(alloc, count, before)?) {
                    return Ok(left);
                }
                left = below;
            }
            TableNode::Made(_, _) => return Ok(left),
            TableNode::Other => return Ok(left),
        }
    }
}

fn grow_end(alloc: Global, table: &Term, count: &Term) -> Result<Term, NoMemory>
    ensures { IfOk result (λ term. term_tree term ≡ grow_end (term_tree table.now) (term_tree count.now)) }
{
    if is_own_count(table, count) {
        return Ok(table.copy(alloc)?);
    }
    let table = table.copy(alloc)?;
    Term::over(alloc, TermOp::Grow, table, count.copy(alloc)?)
}

// The table, where the count is its own.
fn no_growth(alloc: Global, table: &Term, count: &Term) -> Result<Option<Term>, NoMemory>
    ensures { IfOk result (λ term. option_map term_tree term ≡ then_some (is_own_count (term_tree table.now) (term_tree count.now)) (term_tree table.now)) }
{
    if is_own_count(table, count) {
        return Ok(Some(table.copy(alloc)?));
    }
    Ok(None)
}

/// A table that grows to a count, where that is its own count or the table was grown before.
#[tactic(auto, using(crate::proofs::Chains::grow_laws))]
pub fn grow_down(alloc: Global, table: &Term, count: &Term) -> Result<Option<Term>, NoMemory>
    ensures { IfOk result (λ term. option_map term_tree term ≡ grow_down (term_tree table.now) (term_tree count.now)) }
{
    match table_node(table) {
        TableNode::Grown(below, before) => {
            let form = form_of(alloc, count)?;
            if !is_from_zero(apart(alloc, &form, before)?) {
                return no_growth(alloc, table, count);
            }
            let base = grow_base(alloc, &form, below)?;
            Ok(Some(grow_end(alloc, base, count)?))
        }
        TableNode::Made(_, _) => no_growth(alloc, table, count),
        TableNode::Other => no_growth(alloc, table, count),
    }
}
