// Integers and truths (ACSL 2.2.3, 2.2.4): what is made of one and of two.
ghost use Rattle.std.specs.Prelude.{◌≡◌, None, map, IfOk};
ghost use Rattle.acsl_encode.specs.Encode as spec;
ghost use Rattle.acsl_encode.specs.Readings.{integer, truth};
ghost use Rattle.annotation_heads.specs.Nodes as nodes;
ghost use Rattle.std.specs.Option.{option_map};
ghost use Rattle.annotation_heads.specs.Pairs.{pair, view_formulas, view_integers};
ghost use Rattle.annotation_heads.specs.View.{view_terms};
ghost use Rattle.qed_terms.specs.Tree.{not_of};
ghost use Rattle.qed_terms.specs.View.{formula_tree, term_tree};
ghost use Rattle.term_drafts.specs.Drafts.{FormulaIs};

use crate::operands::{equal, over_one};
use crate::pairs::{Both, both_formulas, both_integers, first_kid, first_kids};
use crate::terms::Terms;
use qed_terms::{FormOp, Formula, Term, TermOp};
use std::alloc::Global;
use term_drafts::{
    FormulaDraft, conjunction, disjunction, equivalence, formula_ready, implication, negation,
};
use typed_prog::{Arithmetic, Comparison};
use wp_base::{List, NoMemory};

fn op_of(op: Arithmetic) -> TermOp
    ensures { result ≡ spec.op_of op }
{
    match op {
        Arithmetic::Mul => TermOp::Mul,
        Arithmetic::Div => TermOp::Div,
        Arithmetic::Rem => TermOp::Mod,
        Arithmetic::Add => TermOp::Add,
        Arithmetic::Sub => TermOp::Sub,
        Arithmetic::Shl => TermOp::ShiftLeft,
        Arithmetic::Shr => TermOp::ShiftRight,
        Arithmetic::And => TermOp::BitAnd,
        Arithmetic::Xor => TermOp::BitXor,
        Arithmetic::Or => TermOp::BitOr,
    }
}

/// An integer made of another one.
#[tactic(auto, using(crate::proofs::Given::given_laws))]
pub fn changed(alloc: Global, op: TermOp, kids: List<Terms>) -> Result<Terms, NoMemory>
    ensures { IfOk result (λ made. view_terms made ≡ spec.with_one (λ t. integer None (spec.op_one op t)) (spec.as_integer (spec.first (map view_terms kids)))) }
{
    let Some(term) = first_kid(kids).into_integer(alloc)? else {
        return Ok(Terms::Nothing);
    };
    let term = over_one(alloc, op, term)?;
    Ok(Terms::Integer(None, term))
}

// The integers that the first two kids come to.
fn two_integers(alloc: Global, kids: List<Terms>) -> Result<Option<Both<Term, Term>>, NoMemory>
    ensures { IfOk result (λ found. option_map view_integers found ≡ pair (spec.as_integer (spec.first (map view_terms kids))) (spec.as_integer (spec.second (map view_terms kids)))) }
{
    let kids = first_kids(kids);
    both_integers(alloc, kids.first, kids.second)
}

// The truths that the first two kids come to.
fn two_formulas(
    alloc: Global,
    kids: List<Terms>,
) -> Result<Option<Both<Formula, Formula>>, NoMemory>
    ensures { IfOk result (λ found. option_map view_formulas found ≡ pair (spec.as_formula (spec.first (map view_terms kids))) (spec.as_formula (spec.second (map view_terms kids)))) }
{
    let kids = first_kids(kids);
    both_formulas(alloc, kids.first, kids.second)
}

/// An integer made of two.
#[tactic(auto, using(crate::proofs::Paired::both_laws))]
pub fn calculated(alloc: Global, op: Arithmetic, kids: List<Terms>) -> Result<Terms, NoMemory>
    ensures { IfOk result (λ made. view_terms made ≡ spec.with_two (λ t u. integer None (spec.op_two (spec.op_of op) t u)) (spec.as_integer (spec.first (map view_terms kids))) (spec.as_integer (spec.second (map view_terms kids)))) }
{
    let Some(both) = two_integers(alloc, kids)? else {
        return Ok(Terms::Nothing);
    };
    let term = Term::over(alloc, op_of(op), both.first, both.second)?;
    Ok(Terms::Integer(None, term))
}

/// How two integers compare.
pub fn comparison(
    alloc: Global,
    how: Comparison,
    left: Term,
    right: Term,
) -> Result<Formula, NoMemory>
    ensures { IfOk result (λ formula. formula_tree formula ≡ spec.comparison how (term_tree left) (term_tree right)) }
{
    match how {
        Comparison::Less => Formula::relation(alloc, FormOp::Less, left, right),
        Comparison::AtMost => Formula::relation(alloc, FormOp::AtMost, left, right),
        Comparison::Greater => Formula::relation(alloc, FormOp::Less, right, left),
        Comparison::AtLeast => Formula::relation(alloc, FormOp::AtMost, right, left),
        Comparison::Equal => equal(alloc, left, right),
        Comparison::NotEqual => {
            let same = equal(alloc, left, right)?;
            Formula::negation(alloc, same)
        }
    }
}

/// Whether two integers compare so.
#[tactic(auto, using(crate::proofs::Paired::both_laws))]
pub fn compared(alloc: Global, how: Comparison, kids: List<Terms>) -> Result<Terms, NoMemory>
    ensures { IfOk result (λ made. view_terms made ≡ spec.with_two (λ t u. truth (spec.comparison how t u)) (spec.as_integer (spec.first (map view_terms kids))) (spec.as_integer (spec.second (map view_terms kids)))) }
{
    let Some(both) = two_integers(alloc, kids)? else {
        return Ok(Terms::Nothing);
    };
    let formula = comparison(alloc, how, both.first, both.second)?;
    Ok(Terms::Truth(formula))
}

/// That it isn't true.
#[tactic(auto, using(crate::proofs::Given::given_laws))]
pub fn negated(alloc: Global, kids: List<Terms>) -> Result<Terms, NoMemory>
    ensures { IfOk result (λ made. view_terms made ≡ spec.with_one (λ f. truth (not_of f)) (spec.as_formula (spec.first (map view_terms kids)))) }
{
    let Some(formula) = first_kid(kids).into_formula(alloc)? else {
        return Ok(Terms::Nothing);
    };
    let formula = Formula::negation(alloc, formula)?;
    Ok(Terms::Truth(formula))
}

/// What is made of two truths.
#[derive(Clone, Copy)]
pub enum Joint {
    And,
    Or,
    Xor,
    Implies,
    Iff,
}

#[tactic(auto, using(term_drafts::proofs::Drafted::draft_laws))]
fn made_of(alloc: Global, how: Joint, left: Formula, right: Formula) -> FormulaDraft
    ensures { FormulaIs result (nodes.joint how (formula_tree left) (formula_tree right)) }
{
    let (left, right) = (formula_ready(left), formula_ready(right));
    match how {
        Joint::And => conjunction(alloc, left, right),
        Joint::Or => disjunction(alloc, left, right),
        Joint::Xor => negation(alloc, equivalence(alloc, left, right)),
        Joint::Implies => implication(alloc, left, right),
        Joint::Iff => equivalence(alloc, left, right),
    }
}

/// A truth made of two.
#[tactic(auto, using(crate::proofs::Paired::both_laws, term_drafts::proofs::Drafted::draft_laws))]
pub fn joined(alloc: Global, how: Joint, kids: List<Terms>) -> Result<Terms, NoMemory>
    ensures { IfOk result (λ made. view_terms made ≡ spec.with_two (λ f g. truth (nodes.joint how f g)) (spec.as_formula (spec.first (map view_terms kids))) (spec.as_formula (spec.second (map view_terms kids)))) }
{
    let Some(both) = two_formulas(alloc, kids)? else {
        return Ok(Terms::Nothing);
    };
    let formula = made_of(alloc, how, both.first, both.second)?;
    Ok(Terms::Truth(formula))
}
