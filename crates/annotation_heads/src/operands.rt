// Terms and formulas of a few nodes.
ghost use Rattle.std.specs.Prelude.{◌≡◌, IfOk};
ghost use Rattle.acsl_encode.specs.Encode as spec;
ghost use Rattle.qed_terms.specs.Tree.{equal};
ghost use Rattle.qed_terms.specs.View.{formula_tree, term_tree};

use qed_terms::{FormOp, Formula, Term, TermOp};
use std::alloc::Global;
use wp_base::{List, NoMemory};

/// A head over one term.
#[tactic(auto, using(qed_terms::proofs::Equations::tree_laws))]
pub fn over_one(alloc: Global, op: TermOp, term: Term) -> Result<Term, NoMemory>
    ensures { IfOk result (λ made. term_tree made ≡ spec.op_one op (term_tree term)) }
{
    let mut kids = List::new(alloc);
    kids.push(term)?;
    Ok(Term::Op(op, kids))
}

/// A formula as a term.
pub fn truth_term(alloc: Global, formula: Formula) -> Result<Term, NoMemory>
    ensures { IfOk result (λ term. term_tree term ≡ spec.truth_term (formula_tree formula)) }
{
    Term::ite(alloc, formula, Term::number(1), Term::number(0))
}

/// That the two are equal.
pub fn equal(alloc: Global, left: Term, right: Term) -> Result<Formula, NoMemory>
    ensures { IfOk result (λ formula. formula_tree formula ≡ equal (term_tree left) (term_tree right)) }
{
    Formula::relation(alloc, FormOp::Equal, left, right)
}

/// That it isn't 0.
pub fn not_zero(alloc: Global, term: Term) -> Result<Formula, NoMemory>
    ensures { IfOk result (λ formula. formula_tree formula ≡ spec.not_zero (term_tree term)) }
{
    let is_zero = equal(alloc, term, Term::number(0))?;
    Formula::negation(alloc, is_zero)
}
