// The terms that stand for a value.
ghost use Rattle.std.specs.Prelude.{◌≡◌, ◌∷◌, [], pos, IfOk};
ghost use Rattle.qed_terms.specs.Tree.{Tree, and_of, equal as equal_of, ite, not_of, num};
ghost use Rattle.qed_terms.specs.View.{formula_tree, term_tree};
ghost use Rattle.value_terms.specs.Readings as spec;
ghost use Rattle.term_drafts.specs.Drafts.{FormulaIs, TermIs};
ghost use Rattle.memory_values.specs.Drafts.{ValueIs};
ghost use Rattle.memory_values.specs.View.{view_term, view_terms};

use crate::drafts::equal;
use qed_terms::{Formula, Term};
use std::alloc::Global;
use term_drafts::{
    FormulaDraft, TermDraft, both, chosen, conjunction, copied, formula_copied, negation, number,
};
use wp_base::NoMemory;

/// A number; a comparison or `!`, which gives 1 where the formula is true and else 0; a pointer, by its block and its offset.
pub enum ValueTerm {
    Number(Term),
    Test(Formula),
    Pointer(Term, Term),
}

// Written out, so that where a value is dropped this is one call.
impl Drop for ValueTerm {
    fn drop(self) {
        match self {
            ValueTerm::Number(term) => drop(term),
            ValueTerm::Test(formula) => drop(formula),
            ValueTerm::Pointer(block, offset) => {
                drop(block);
                drop(offset);
            }
        }
    }
}

pub(crate) type ValueDraft = Result<ValueTerm, NoMemory>;

/// `term = 0`.
pub(crate) fn is_zero(alloc: Global, term: TermDraft) -> FormulaDraft
    ensures { (t : Tree) → TermIs term t → FormulaIs result (equal_of t (num (pos 0))) }
{
    equal(alloc, term, number(0))
}

fn not_zero(alloc: Global, term: TermDraft) -> FormulaDraft
    ensures { (t : Tree) → TermIs term t → FormulaIs result (not_of (equal_of t (num (pos 0)))) }
{
    negation(alloc, is_zero(alloc, term))
}

// The pointer isn't the null pointer.
fn not_null(alloc: Global, block: &Term, offset: &Term) -> FormulaDraft
    ensures { FormulaIs result (not_of (and_of (equal_of (term_tree block.now) (num (pos 0)) ∷ equal_of (term_tree offset.now) (num (pos 0)) ∷ []))) }
{
    let block = is_zero(alloc, copied(alloc, block));
    let offset = is_zero(alloc, copied(alloc, offset));
    negation(alloc, conjunction(alloc, block, offset))
}

// 1 where the formula is true, and else 0.
fn truth(alloc: Global, formula: &Formula) -> TermDraft
    ensures { TermIs result (ite (formula_tree formula.now) (num (pos 1)) (num (pos 0))) }
{
    let formula = formula_copied(alloc, formula);
    chosen(alloc, formula, number(1), number(0))
}

// ---- parts of a value

/// The term of a number; what is no number counts as 0.
pub(crate) fn number_of(alloc: Global, value: &ValueTerm) -> TermDraft
    ensures { TermIs result (spec.number_term (view_term value.now)) }
{
    match value {
        ValueTerm::Number(term) => copied(alloc, term),
        ValueTerm::Test(formula) => truth(alloc, formula),
        ValueTerm::Pointer(_, _) => number(0),
    }
}

/// That the value isn't 0.
pub(crate) fn condition_of(alloc: Global, value: &ValueTerm) -> FormulaDraft
    ensures { FormulaIs result (spec.condition (view_term value.now)) }
{
    match value {
        ValueTerm::Number(term) => not_zero(alloc, copied(alloc, term)),
        ValueTerm::Test(formula) => formula_copied(alloc, formula),
        ValueTerm::Pointer(block, offset) => not_null(alloc, block, offset),
    }
}

/// The block of a pointer; 0 of what is none.
pub(crate) fn block_of(alloc: Global, value: &ValueTerm) -> TermDraft
    ensures { TermIs result (spec.block_term (view_term value.now)) }
{
    match value {
        ValueTerm::Pointer(block, _) => copied(alloc, block),
        ValueTerm::Number(_) => number(0),
        ValueTerm::Test(_) => number(0),
    }
}

/// Its offset; 0 of what is none.
pub(crate) fn offset_of(alloc: Global, value: &ValueTerm) -> TermDraft
    ensures { TermIs result (spec.offset_term (view_term value.now)) }
{
    match value {
        ValueTerm::Pointer(_, offset) => copied(alloc, offset),
        ValueTerm::Number(_) => number(0),
        ValueTerm::Test(_) => number(0),
    }
}

impl ValueTerm {
    /// A copy.
    pub fn copy(&self, alloc: Global) -> Result<ValueTerm, NoMemory>
        ensures { IfOk result (λ copy. copy ≡ self.now) }
    {
        match self {
            ValueTerm::Number(term) => Ok(ValueTerm::Number(term.copy(alloc)?)),
            ValueTerm::Test(formula) => Ok(ValueTerm::Test(formula.copy(alloc)?)),
            ValueTerm::Pointer(block, offset) => {
                let block = block.copy(alloc)?;
                Ok(ValueTerm::Pointer(block, offset.copy(alloc)?))
            }
        }
    }

    // The block and the offset.
    #[tactic(auto, using(term_drafts::proofs::Drafted::draft_laws))]
    fn into_parts(self) -> (TermDraft, TermDraft)
        ensures block { TermIs result.0 (spec.block_term (view_term self)) }
        ensures offset { TermIs result.1 (spec.offset_term (view_term self)) }
    {
        match self {
            ValueTerm::Pointer(block, offset) => (Ok(block), Ok(offset)),
            ValueTerm::Number(_) => (number(0), number(0)),
            ValueTerm::Test(_) => (number(0), number(0)),
        }
    }

    /// The term of a number; what is no number counts as 0.
    #[tactic(auto, using(crate::proofs::Drafted::draft_laws))]
    pub fn number(&self, alloc: Global) -> Result<Term, NoMemory>
        ensures { IfOk result (λ term. term_tree term ≡ spec.number_term (view_term self.now)) }
    {
        let made = number_of(alloc, self)?;
        Ok(made)
    }

    /// The block of a pointer; 0 of what is none.
    #[tactic(auto, using(crate::proofs::Drafted::draft_laws))]
    pub fn block(&self, alloc: Global) -> Result<Term, NoMemory>
        ensures { IfOk result (λ term. term_tree term ≡ spec.block_term (view_term self.now)) }
    {
        let made = block_of(alloc, self)?;
        Ok(made)
    }

    /// Its offset; 0 of what is none.
    #[tactic(auto, using(crate::proofs::Drafted::draft_laws))]
    pub fn offset(&self, alloc: Global) -> Result<Term, NoMemory>
        ensures { IfOk result (λ term. term_tree term ≡ spec.offset_term (view_term self.now)) }
    {
        let made = offset_of(alloc, self)?;
        Ok(made)
    }

    /// That the value isn't 0 (C11 6.8.4.1p2).
    #[tactic(auto, using(crate::proofs::Drafted::draft_laws))]
    pub fn condition(&self, alloc: Global) -> Result<Formula, NoMemory>
        ensures { IfOk result (λ formula. formula_tree formula ≡ spec.condition (view_term self.now)) }
    {
        let made = condition_of(alloc, self)?;
        Ok(made)
    }
}

// ---- drafts of values

#[tactic(auto, using(crate::proofs::Drafted::draft_laws))]
pub(crate) fn number_value(term: TermDraft) -> ValueDraft
    ensures { (t : Tree) → TermIs term t → ValueIs result (spec.as_number t) }
{
    let term = term?;
    Ok(ValueTerm::Number(term))
}

#[tactic(auto, using(crate::proofs::Drafted::draft_laws))]
pub(crate) fn test_value(formula: FormulaDraft) -> ValueDraft
    ensures { (f : Tree) → FormulaIs formula f → ValueIs result (spec.as_test f) }
{
    let formula = formula?;
    Ok(ValueTerm::Test(formula))
}

#[tactic(auto, using(crate::proofs::Drafted::draft_laws))]
pub(crate) fn pointer_value(block: TermDraft, offset: TermDraft) -> ValueDraft
    ensures { (t u : Tree) → TermIs block t → TermIs offset u → ValueIs result (spec.as_pointer t u) }
{
    let (block, offset) = both(block, offset)?;
    Ok(ValueTerm::Pointer(block, offset))
}

/// The block and the offset of a pointer; 0 of what is none.
#[tactic(auto, using(crate::proofs::Drafted::draft_laws))]
pub(crate) fn parts(value: ValueDraft) -> (TermDraft, TermDraft)
    ensures block { (a : spec.Term) → ValueIs value a → TermIs result.0 (spec.block_term a) }
    ensures offset { (a : spec.Term) → ValueIs value a → TermIs result.1 (spec.offset_term a) }
{
    match value {
        Ok(value) => value.into_parts(),
        Err(error) => (Err(error), Err(error)),
    }
}

// ---- operands, by their numbers; 0 where there is none

#[tactic(auto, using(crate::proofs::Drafted::draft_laws))]
fn copied_value(alloc: Global, value: &ValueTerm) -> ValueDraft
    ensures { ValueIs result (view_term value.now) }
{
    let made = value.copy(alloc)?;
    Ok(made)
}

/// An operand.
#[tactic(auto, using(crate::proofs::Slotted::operand_some, crate::proofs::Slotted::operand_none))]
pub(crate) fn operand(alloc: Global, terms: &[ValueTerm], at: usize) -> ValueDraft
    ensures { ValueIs result (spec.term_at (view_terms terms.now) at) }
{
    if at < terms.len() {
        copied_value(alloc, &terms[at])
    } else {
        number_value(number(0))
    }
}

/// An operand as a number.
#[tactic(auto, using(crate::proofs::Slotted::operand_some, crate::proofs::Slotted::operand_none))]
pub(crate) fn operand_number(alloc: Global, terms: &[ValueTerm], at: usize) -> TermDraft
    ensures { TermIs result (spec.number_term (spec.term_at (view_terms terms.now) at)) }
{
    if at < terms.len() {
        number_of(alloc, &terms[at])
    } else {
        number(0)
    }
}

/// The block of an operand.
#[tactic(auto, using(crate::proofs::Slotted::operand_some, crate::proofs::Slotted::operand_none))]
pub(crate) fn operand_block(alloc: Global, terms: &[ValueTerm], at: usize) -> TermDraft
    ensures { TermIs result (spec.block_term (spec.term_at (view_terms terms.now) at)) }
{
    if at < terms.len() {
        block_of(alloc, &terms[at])
    } else {
        number(0)
    }
}

/// Its offset.
#[tactic(auto, using(crate::proofs::Slotted::operand_some, crate::proofs::Slotted::operand_none))]
pub(crate) fn operand_offset(alloc: Global, terms: &[ValueTerm], at: usize) -> TermDraft
    ensures { TermIs result (spec.offset_term (spec.term_at (view_terms terms.now) at)) }
{
    if at < terms.len() {
        offset_of(alloc, &terms[at])
    } else {
        number(0)
    }
}

/// The condition that an operand isn't 0.
#[tactic(auto, using(crate::proofs::Slotted::operand_some, crate::proofs::Slotted::operand_none))]
pub(crate) fn operand_condition(alloc: Global, terms: &[ValueTerm], at: usize) -> FormulaDraft
    ensures { FormulaIs result (spec.condition (spec.term_at (view_terms terms.now) at)) }
{
    if at < terms.len() {
        condition_of(alloc, &terms[at])
    } else {
        not_zero(alloc, number(0))
    }
}
