// Terms and formulas of parts that may lack memory. A part is handed on with no look at it, so whoever calls these owns no tree where he leaves.
ghost use Rattle.std.specs.Prelude.{◌≡◌, ◌∷◌, [], Ok, IfOk};
ghost use Rattle.qed_terms.specs.Tree.{Tree, and_of, imp_of, ite, node, not_of, num, one, or_of, two};
ghost use Rattle.qed_terms.specs.View.{formula_tree, term_tree};
ghost use Rattle.qed_terms.specs.declared.head.Head.TheVariants as head;
ghost use Rattle.term_drafts.specs.Drafts.{FormulaIs, TermIs};

use qed_terms::{FormOp, Formula, Term, TermOp};
use std::alloc::Global;
use wp_base::{List, NoMemory, box_both};

/// A term, where there was memory for it.
pub type TermDraft = Result<Term, NoMemory>;
/// A formula, where there was memory for it.
pub type FormulaDraft = Result<Formula, NoMemory>;

/// Both, where neither lacked memory.
pub fn both<A: Drop, B: Drop>(
    first: Result<A, NoMemory>,
    second: Result<B, NoMemory>,
) -> Result<(A, B), NoMemory>
    ensures { IfOk result (λ pair. (first ≡ Ok pair.0) × (second ≡ Ok pair.1)) }
{
    let first = first?;
    Ok((first, second?))
}

// ---- terms

/// One that is there.
#[tactic(auto, using(crate::proofs::Drafted::draft_laws))]
pub fn ready(term: Term) -> TermDraft
    ensures { TermIs result (term_tree term) }
{
    Ok(term)
}

#[tactic(auto, using(crate::proofs::Drafted::draft_laws))]
pub fn number(value: i128) -> TermDraft
    ensures { TermIs result (num value) }
{
    Ok(Term::number(value))
}

#[tactic(auto, using(crate::proofs::Drafted::draft_laws))]
pub fn copied(alloc: Global, term: &Term) -> TermDraft
    ensures { TermIs result (term_tree term.now) }
{
    let made = term.copy(alloc)?;
    Ok(made)
}

// A list of one.
fn only<T: Drop>(alloc: Global, item: T) -> Result<List<T>, NoMemory>
    ensures { IfOk result (λ items. items ≡ item ∷ []) }
{
    let mut items = List::new(alloc);
    items.push(item)?;
    Ok(items)
}

/// A head over one term.
#[tactic(auto, using(crate::proofs::Drafted::draft_laws, qed_terms::proofs::Equations::tree_laws))]
pub fn over_one(alloc: Global, op: TermOp, part: TermDraft) -> TermDraft
    ensures { (t : Tree) → TermIs part t → TermIs result (node (head.Term op) (one t)) }
{
    let kids = only(alloc, part?)?;
    Ok(Term::Op(op, kids))
}

/// A head over two terms.
#[tactic(auto, using(crate::proofs::Drafted::draft_laws))]
pub fn over(alloc: Global, op: TermOp, left: TermDraft, right: TermDraft) -> TermDraft
    ensures { (l r : Tree) → TermIs left l → TermIs right r → TermIs result (node (head.Term op) (two l r)) }
{
    let (left, right) = both(left, right)?;
    let made = Term::over(alloc, op, left, right)?;
    Ok(made)
}

/// The first term where the condition is true, and else the second.
#[tactic(auto, using(crate::proofs::Drafted::draft_laws))]
pub fn chosen(
    alloc: Global,
    condition: FormulaDraft,
    left: TermDraft,
    right: TermDraft,
) -> TermDraft
    ensures { (f l r : Tree) → FormulaIs condition f → TermIs left l → TermIs right r → TermIs result (ite f l r) }
{
    let (condition, arms) = both(condition, both(left, right))?;
    let (left, right) = arms;
    let made = Term::ite(alloc, condition, left, right)?;
    Ok(made)
}

// ---- formulas

/// One that is there.
#[tactic(auto, using(crate::proofs::Drafted::draft_laws))]
pub fn formula_ready(formula: Formula) -> FormulaDraft
    ensures { FormulaIs result (formula_tree formula) }
{
    Ok(formula)
}

#[tactic(auto, using(crate::proofs::Drafted::draft_laws))]
pub fn formula_copied(alloc: Global, formula: &Formula) -> FormulaDraft
    ensures { FormulaIs result (formula_tree formula.now) }
{
    let made = formula.copy(alloc)?;
    Ok(made)
}

/// A relation of two terms.
#[tactic(auto, using(crate::proofs::Drafted::draft_laws))]
pub fn relation(alloc: Global, op: FormOp, left: TermDraft, right: TermDraft) -> FormulaDraft
    ensures { (l r : Tree) → TermIs left l → TermIs right r → FormulaIs result (node (head.Form op) (two l r)) }
{
    let (left, right) = both(left, right)?;
    let made = Formula::relation(alloc, op, left, right)?;
    Ok(made)
}

#[tactic(auto, using(crate::proofs::Drafted::draft_laws))]
pub fn negation(alloc: Global, part: FormulaDraft) -> FormulaDraft
    ensures { (f : Tree) → FormulaIs part f → FormulaIs result (not_of f) }
{
    let made = Formula::negation(alloc, part?)?;
    Ok(made)
}

/// `and` of two formulas.
#[tactic(auto, using(crate::proofs::Drafted::draft_laws))]
pub fn conjunction(alloc: Global, left: FormulaDraft, right: FormulaDraft) -> FormulaDraft
    ensures { (f g : Tree) → FormulaIs left f → FormulaIs right g → FormulaIs result (and_of (f ∷ g ∷ [])) }
{
    let (left, right) = both(left, right)?;
    let made = Formula::both(alloc, left, right)?;
    Ok(made)
}

// A list of two.
fn pair<T: Drop>(alloc: Global, left: T, right: T) -> Result<List<T>, NoMemory>
    ensures { IfOk result (λ items. items ≡ left ∷ right ∷ []) }
{
    let mut items = List::new(alloc);
    items.push(left)?;
    items.push(right)?;
    Ok(items)
}

/// `or` of two formulas.
#[tactic(auto, using(crate::proofs::Drafted::draft_laws))]
pub fn disjunction(alloc: Global, left: FormulaDraft, right: FormulaDraft) -> FormulaDraft
    ensures { (f g : Tree) → FormulaIs left f → FormulaIs right g → FormulaIs result (or_of (f ∷ g ∷ [])) }
{
    let (left, right) = both(left, right)?;
    let parts = pair(alloc, left, right)?;
    Ok(Formula::or(parts))
}

#[tactic(auto, using(crate::proofs::Drafted::draft_laws))]
pub fn implication(alloc: Global, from: FormulaDraft, to: FormulaDraft) -> FormulaDraft
    ensures { (f g : Tree) → FormulaIs from f → FormulaIs to g → FormulaIs result (imp_of f g) }
{
    let (from, to) = both(from, to)?;
    let made = Formula::implication(alloc, from, to)?;
    Ok(made)
}

/// Both true, or both false.
#[tactic(auto, using(crate::proofs::Drafted::draft_laws, qed_terms::proofs::Equations::tree_laws))]
pub fn equivalence(alloc: Global, left: FormulaDraft, right: FormulaDraft) -> FormulaDraft
    ensures { (f g : Tree) → FormulaIs left f → FormulaIs right g → FormulaIs result (node head.Iff (two f g)) }
{
    let (left, right) = both(left, right)?;
    let (left, right) = box_both(alloc, left, right)?;
    Ok(Formula::Iff(left, right))
}
