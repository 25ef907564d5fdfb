// Relations of terms that are in normal form.
ghost use Rattle.std.specs.Prelude.{◌≡◌, pos, map, option_map, IfOk};
ghost use Rattle.qed_terms.specs.Tree.{node, two, num, trees_of};
ghost use Rattle.qed_terms.specs.View.{term_tree, formula_tree};
ghost use Rattle.qed_terms.specs.declared.head.Head.TheVariants as h;
ghost use Rattle.qed_terms.specs.declared.head.TermOp.TheVariants as op;
ghost use Rattle.qed_terms.specs.declared.head.FormOp.TheVariants as rel;
ghost use Rattle.qed_terms.specs.Order.{same};
ghost use Rattle.qed_linear.specs.Linear.{of_lin, subtract, checked, to_lin, unwrap_or};
ghost use Rattle.qed_linear.specs.View.{lin_of};
ghost use Rattle.qed_rules.specs.Rules.{truth_constant, at_most_tree, equal_tree, is_same_memory, is_twice, negated_relation_at};
ghost use Rattle.qed_rules.specs.Passes.{compared, linear_term, normal_at_most, normal_equal, normal_relation, pass_relation};
ghost use Rattle.qed_rules.specs.View.{view_pass};

use crate::build::{copy_both, pair};
use crate::constants::truth_constant;
use crate::pass::Pass;
use crate::terms::by_form;
use qed_linear::{
    LinForm, common_divisor, divide_exact, divides, form_of, into_term, make_lead_positive, number,
    subtract, tighten,
};
use qed_memories::block_pass;
use qed_terms::{FormOp, Formula, Term, TermOp};
use std::alloc::Global;
use wp_base::{List, NoMemory};

// A relation of a form and 0.
fn with_zero(alloc: Global, op: FormOp, form: LinForm) -> Result<Formula, NoMemory>
    ensures { IfOk result (λ formula. formula_tree formula ≡ node (h.Form op) (two (of_lin (lin_of form)) (num (pos 0)))) }
{
    let term = into_term(alloc, form)?;
    Formula::relation(alloc, op, term, Term::number(0))
}

fn at_most_form(alloc: Global, form: LinForm) -> Result<Formula, NoMemory>
    ensures { IfOk result (λ formula. formula_tree formula ≡ at_most_tree (lin_of form)) }
{
    if form.parts.is_empty() {
        return Ok(truth_constant(form.constant <= 0));
    }
    let form = tighten(alloc, form)?;
    with_zero(alloc, FormOp::AtMost, form)
}

fn equal_form(alloc: Global, form: LinForm) -> Result<Formula, NoMemory>
    ensures { IfOk result (λ formula. formula_tree formula ≡ equal_tree (lin_of form)) }
{
    if form.parts.is_empty() {
        return Ok(truth_constant(form.constant == 0));
    }
    let by = common_divisor(form.parts.as_slice());
    if !divides(by, form.constant) {
        return Ok(truth_constant(false));
    }
    let form = divide_exact(alloc, form, by)?;
    let form = make_lead_positive(alloc, form)?;
    with_zero(alloc, FormOp::Equal, form)
}

/// The form of the first term less the second one.
pub fn difference(alloc: Global, left: &Term, right: &Term) -> Result<Option<LinForm>, NoMemory>
    ensures { IfOk result (λ form. option_map lin_of form ≡ checked (subtract (to_lin (term_tree left.now)) (to_lin (term_tree right.now)))) }
{
    let form = form_of(alloc, left)?;
    let less = form_of(alloc, right)?;
    subtract(alloc, &form, &less)
}

// The relation, over copies of the terms.
fn relation_of(alloc: Global, op: FormOp, left: &Term, right: &Term) -> Result<Formula, NoMemory>
    ensures { IfOk result (λ formula. formula_tree formula ≡ node (h.Form op) (two (term_tree left.now) (term_tree right.now))) }
{
    let (left, right) = copy_both(alloc, left, right)?;
    Formula::relation(alloc, op, left, right)
}

fn normal_at_most(alloc: Global, left: &Term, right: &Term) -> Result<Formula, NoMemory>
    ensures { IfOk result (λ formula. formula_tree formula ≡ normal_at_most (term_tree left.now) (term_tree right.now)) }
{
    match difference(alloc, left, right)? {
        Some(form) => at_most_form(alloc, form),
        None => relation_of(alloc, FormOp::AtMost, left, right),
    }
}

fn normal_equal(alloc: Global, left: &Term, right: &Term) -> Result<Formula, NoMemory>
    ensures { IfOk result (λ formula. formula_tree formula ≡ normal_equal (term_tree left.now) (term_tree right.now)) }
{
    match difference(alloc, left, right)? {
        Some(form) => equal_form(alloc, form),
        None => relation_of(alloc, FormOp::Equal, left, right),
    }
}

// The sum of a term and 1.
fn one_more(alloc: Global, term: &Term) -> Result<Term, NoMemory>
    ensures { IfOk result (λ sum. term_tree sum ≡ linear_term (node (h.Term op.Add) (two (term_tree term.now) (num (pos 1))))) }
{
    let terms = pair(alloc, term.copy(alloc)?, Term::number(1))?;
    by_form(alloc, TermOp::Add, terms)
}

fn normal_less(alloc: Global, left: &Term, right: &Term) -> Result<Formula, NoMemory>
    ensures { IfOk result (λ formula. formula_tree formula ≡ normal_at_most (linear_term (node (h.Term op.Add) (two (term_tree left.now) (num (pos 1))))) (term_tree right.now)) }
{
    let more = one_more(alloc, left)?;
    normal_at_most(alloc, &more, right)
}

// What is made of a relation over two terms that compares integers.
fn normal_comparison(
    alloc: Global,
    op: &FormOp,
    left: &Term,
    right: &Term,
) -> Result<Option<Formula>, NoMemory>
    ensures { IfOk result (λ formula. unwrap_or (option_map formula_tree formula) (node (h.Form op.now) (two (term_tree left.now) (term_tree right.now))) ≡ compared op.now (two (term_tree left.now) (term_tree right.now))) }
{
    match op {
        FormOp::Equal => Ok(Some(normal_equal(alloc, left, right)?)),
        FormOp::AtMost => Ok(Some(normal_at_most(alloc, left, right)?)),
        FormOp::Less => Ok(Some(normal_less(alloc, left, right)?)),
        FormOp::Same
        | FormOp::Read(_)
        | FormOp::Write(_)
        | FormOp::Live
        | FormOp::Has(_)
        | FormOp::WellFormed(_)
        | FormOp::Frame(_) => Ok(None),
    }
}

// Whether the first two terms are the same, where there are so many.
fn is_twice(terms: &[Term]) -> bool
    ensures { result ≡ is_twice (trees_of (map term_tree terms.now)) }
{
    if terms.len() < 2 {
        return false;
    }
    terms[0].is_same(&terms[1])
}

// Whether the relation is one of a memory and itself.
#[tactic(auto, using(crate::proofs::RelationPasses::pair_twice, crate::proofs::RelationPasses::not_pair))]
fn is_same_memory(op: &FormOp, terms: &[Term]) -> bool
    ensures { result ≡ is_same_memory op.now (trees_of (map term_tree terms.now)) }
{
    match op {
        FormOp::Same => terms.len() == 2 && is_twice(terms),
        FormOp::Frame(_) => is_twice(terms),
        FormOp::Equal
        | FormOp::AtMost
        | FormOp::Less
        | FormOp::Read(_)
        | FormOp::Write(_)
        | FormOp::Live
        | FormOp::Has(_)
        | FormOp::WellFormed(_) => false,
    }
}

// The normal form of a relation that asks of no block.
#[tactic(auto, using(qed_terms::proofs::Equations::tree_laws))]
fn normal_relation(alloc: Global, op: FormOp, terms: List<Term>) -> Result<Formula, NoMemory>
    ensures { IfOk result (λ formula. formula_tree formula ≡ normal_relation op (trees_of (map term_tree terms))) }
{
    if is_same_memory(&op, terms.as_slice()) {
        return Ok(Formula::True);
    }
    compare(alloc, op, terms)
}

// The same, where it isn't one of a memory and itself.
#[tactic(auto, using(qed_terms::proofs::Equations::tree_laws))]
fn compare(alloc: Global, op: FormOp, terms: List<Term>) -> Result<Formula, NoMemory>
    ensures { IfOk result (λ formula. formula_tree formula ≡ compared op (trees_of (map term_tree terms))) }
{
    if terms.len() != 2 {
        return Ok(Formula::Rel(op, terms));
    }
    let pair = terms.as_slice();
    match normal_comparison(alloc, &op, &pair[0], &pair[1])? {
        Some(formula) => Ok(formula),
        None => Ok(Formula::Rel(op, terms)),
    }
}

/// What becomes of a relation of terms that are in normal form.
#[tactic(auto, using(crate::proofs::RelationPasses::asked_again, crate::proofs::RelationPasses::not_asked))]
pub fn pass_relation(alloc: Global, op: FormOp, terms: List<Term>) -> Result<Pass, NoMemory>
    ensures { IfOk result (λ p. view_pass p ≡ pass_relation op (trees_of (map term_tree terms))) }
{
    match block_pass(alloc, &op, terms.as_slice())? {
        Some(formula) => Ok(Pass::Again(formula)),
        None => Ok(Pass::Done(normal_relation(alloc, op, terms)?)),
    }
}

fn is_zero(term: &Term) -> bool
    ensures { result ≡ same (term_tree term.now) (num (pos 0)) }
{
    term.is_same(&Term::number(0))
}

// 1 - L <= 0 of L <= 0, where its numbers fit.
fn negated_at_most(alloc: Global, term: &Term, zero: &Term) -> Result<Option<Formula>, NoMemory>
    ensures { IfOk result (λ formula. option_map formula_tree formula ≡ negated_relation_at (h.Form rel.AtMost) (two (term_tree term.now) (term_tree zero.now))) }
{
    if !is_zero(zero) {
        return Ok(None);
    }
    let form = form_of(alloc, term)?;
    match subtract(alloc, &number(alloc, 1), &form)? {
        Some(form) => Ok(Some(with_zero(alloc, FormOp::AtMost, form)?)),
        None => Ok(None),
    }
}

/// The negation of a relation in normal form, where that isn't its `not`.
pub fn negated_relation(
    alloc: Global,
    op: &FormOp,
    terms: &List<Term>,
) -> Result<Option<Formula>, NoMemory>
    ensures { IfOk result (λ formula. option_map formula_tree formula ≡ negated_relation_at (h.Form op.now) (trees_of (map term_tree terms.now))) }
{
    match op {
        FormOp::AtMost => {
            let pair = terms.as_slice();
            if pair.len() != 2 {
                return Ok(None);
            }
            negated_at_most(alloc, &pair[0], &pair[1])
        }
        FormOp::Equal
        | FormOp::Less
        | FormOp::Same
        | FormOp::Read(_)
        | FormOp::Write(_)
        | FormOp::Live
        | FormOp::Has(_)
        | FormOp::WellFormed(_)
        | FormOp::Frame(_) => Ok(None),
    }
}
