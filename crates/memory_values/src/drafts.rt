// Heads over any number of parts that may lack memory.
ghost use Rattle.std.specs.Prelude.{◌≡◌, map, Ok, IfOk};
ghost use Rattle.qed_terms.specs.Tree.{Tree, Trees, at_most as at_most_of, equal as equal_of, less as less_of, node, trees_of};
ghost use Rattle.qed_terms.specs.View.{formula_tree, term_tree};
ghost use Rattle.qed_terms.specs.declared.head.Head.TheVariants as head;
ghost use Rattle.term_drafts.specs.Drafts.{FormulaIs, TermIs};
ghost use Rattle.memory_values.specs.Drafts.{FormulasAre, TermsAre};

use qed_terms::{FormOp, Formula, Term, TermOp};
use std::alloc::Global;
use term_drafts::{FormulaDraft, TermDraft, relation};
use wp_base::{List, NoMemory};

// What was made, where there was memory for all.
fn all_made<T: Drop>(alloc: Global, drafts: Vec<Result<T, NoMemory>>) -> Result<List<T>, NoMemory>
    ensures { IfOk result (λ made. drafts.items ≡ map Ok made) }
{
    let mut made = List::new(alloc);
    for draft in drafts {
        made.push(draft?)?;
    }
    Ok(made)
}

#[tactic(auto, using(crate::proofs::Drafted::terms_made))]
fn terms_of<const N: usize>(alloc: Global, drafts: [TermDraft; N]) -> Result<List<Term>, NoMemory>
    ensures { (ts : Trees) → TermsAre drafts.entry ts → IfOk result (λ made. trees_of (map term_tree made) ≡ ts) }
{
    let drafts = Vec::from_array(alloc, drafts)?;
    let made = all_made(alloc, drafts)?;
    Ok(made)
}

#[tactic(auto, using(crate::proofs::Drafted::formulas_made))]
fn formulas_of<const N: usize>(
    alloc: Global,
    drafts: [FormulaDraft; N],
) -> Result<List<Formula>, NoMemory>
    ensures { (fs : Trees) → FormulasAre drafts.entry fs → IfOk result (λ made. trees_of (map formula_tree made) ≡ fs) }
{
    let drafts = Vec::from_array(alloc, drafts)?;
    let made = all_made(alloc, drafts)?;
    Ok(made)
}

/// A head over all of these.
#[tactic(auto, using(term_drafts::proofs::Drafted::draft_laws, qed_terms::proofs::Equations::tree_laws))]
pub(crate) fn over_all<const N: usize>(alloc: Global, op: TermOp, kids: [TermDraft; N]) -> TermDraft
    ensures { (ts : Trees) → TermsAre kids.entry ts → TermIs result (node (head.Term op) ts) }
{
    let kids = terms_of(alloc, kids)?;
    Ok(Term::Op(op, kids))
}

/// A relation of all of these.
#[tactic(auto, using(term_drafts::proofs::Drafted::draft_laws, qed_terms::proofs::Equations::tree_laws))]
pub(crate) fn relation_of_all<const N: usize>(
    alloc: Global,
    op: FormOp,
    kids: [TermDraft; N],
) -> FormulaDraft
    ensures { (ts : Trees) → TermsAre kids.entry ts → FormulaIs result (node (head.Form op) ts) }
{
    let kids = terms_of(alloc, kids)?;
    Ok(Formula::Rel(op, kids))
}

/// `and` of all of these.
#[tactic(auto, using(term_drafts::proofs::Drafted::draft_laws, qed_terms::proofs::Equations::tree_laws))]
pub(crate) fn all<const N: usize>(alloc: Global, parts: [FormulaDraft; N]) -> FormulaDraft
    ensures { (fs : Trees) → FormulasAre parts.entry fs → FormulaIs result (node head.And fs) }
{
    let parts = formulas_of(alloc, parts)?;
    Ok(Formula::And(parts))
}

// ---- comparisons

/// `left = right`.
pub(crate) fn equal(alloc: Global, left: TermDraft, right: TermDraft) -> FormulaDraft
    ensures { (t u : Tree) → TermIs left t → TermIs right u → FormulaIs result (equal_of t u) }
{
    relation(alloc, FormOp::Equal, left, right)
}

/// `left <= right`.
pub(crate) fn at_most(alloc: Global, left: TermDraft, right: TermDraft) -> FormulaDraft
    ensures { (t u : Tree) → TermIs left t → TermIs right u → FormulaIs result (at_most_of t u) }
{
    relation(alloc, FormOp::AtMost, left, right)
}

/// `left < right`.
pub(crate) fn less(alloc: Global, left: TermDraft, right: TermDraft) -> FormulaDraft
    ensures { (t u : Tree) → TermIs left t → TermIs right u → FormulaIs result (less_of t u) }
{
    relation(alloc, FormOp::Less, left, right)
}
