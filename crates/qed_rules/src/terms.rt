// Terms over kids that are in normal form.
ghost use Rattle.std.specs.Prelude.{◌≡◌, map, option_map, IfOk, None};
ghost use Rattle.qed_terms.specs.Tree.{head_of, node, three, trees_of};
ghost use Rattle.qed_terms.specs.View.{formula_tree, term_tree};
ghost use Rattle.qed_terms.specs.declared.head.Head.TheVariants as h;
ghost use Rattle.qed_linear.specs.Linear.{is_integer};
ghost use Rattle.qed_rules.specs.Rules.{then_some, chosen_arm};
ghost use Rattle.qed_numbers.specs.Numbers.{first_some, long_rule, number_step};
ghost use Rattle.qed_memories.specs.Passes.{memory_pass};
ghost use Rattle.qed_rules.specs.Passes.{by_rules, linear_term, normal_ite, normal_op};

use crate::constants::is_truth_constant;
use qed_linear::{form_of, into_term, is_integer, op_form};
use qed_memories::memory_pass;
use qed_numbers::{long_step, number_step};
use qed_terms::{Formula, Term, TermOp};
use std::alloc::Global;
use wp_base::{List, NoMemory};

// The term of the form of a term.
fn linear_term(alloc: Global, term: &Term) -> Result<Term, NoMemory>
    ensures { IfOk result (λ linear. term_tree linear ≡ linear_term (term_tree term.now)) }
{
    into_term(alloc, form_of(alloc, term)?)
}

/// An operator over terms that no rule changes.
#[tactic(auto, using(qed_terms::proofs::Equations::tree_laws))]
pub fn by_form(alloc: Global, op: TermOp, kids: List<Term>) -> Result<Term, NoMemory>
    ensures { IfOk result (λ linear. term_tree linear ≡ linear_term (node (h.Term op) (trees_of (map term_tree kids)))) }
{
    match op_form(alloc, &op, &kids)? {
        Some(form) => into_term(alloc, form),
        None => Ok(Term::Op(op, kids)),
    }
}

// An operator over terms that no rule on numbers changes.
#[tactic(auto, using(crate::proofs::TermPasses::remembered, crate::proofs::TermPasses::not_remembered))]
fn without_numbers(alloc: Global, op: TermOp, kids: List<Term>) -> Result<Term, NoMemory>
    ensures { IfOk result (λ normal. term_tree normal ≡ by_rules None (memory_pass (h.Term op) (trees_of (map term_tree kids))) (node (h.Term op) (trees_of (map term_tree kids)))) }
{
    match memory_pass(alloc, &op, kids.as_slice())? {
        Some(term) => Ok(term),
        None => by_form(alloc, op, kids),
    }
}

// What a rule on numbers makes of an operator, where `long` has so many bits.
#[tactic(auto, using(crate::proofs::TermPasses::by_number, crate::proofs::TermPasses::by_long))]
fn ruled(alloc: Global, long_bits: u8, op: &TermOp, kids: &[Term]) -> Result<Option<Term>, NoMemory>
    ensures { IfOk result (λ made. option_map term_tree made ≡ first_some (number_step (h.Term op.now) (trees_of (map term_tree kids.now))) (long_rule long_bits (h.Term op.now) (trees_of (map term_tree kids.now)))) }
{
    match number_step(alloc, op, kids)? {
        Some(term) => Ok(Some(term)),
        None => Ok(long_step(long_bits, op, kids)),
    }
}

/// The normal form of an operator over terms that are in normal form, where `long` has so many bits.
#[tactic(auto, using(crate::proofs::TermPasses::ruled, crate::proofs::TermPasses::not_ruled))]
pub fn normal_op(
    alloc: Global,
    long_bits: u8,
    op: TermOp,
    kids: List<Term>,
) -> Result<Term, NoMemory>
    ensures { IfOk result (λ normal. term_tree normal ≡ normal_op long_bits op (trees_of (map term_tree kids))) }
{
    match ruled(alloc, long_bits, &op, kids.as_slice())? {
        Some(term) => linear_term(alloc, &term),
        None => without_numbers(alloc, op, kids),
    }
}

// The term, where it is an integer.
fn integer(alloc: Global, term: &Term) -> Result<Option<Term>, NoMemory>
    ensures { IfOk result (λ copy. option_map term_tree copy ≡ then_some (is_integer (head_of (term_tree term.now))) (term_tree term.now)) }
{
    if is_integer(term) {
        Ok(Some(term.copy(alloc)?))
    } else {
        Ok(None)
    }
}

// The arm that the condition chooses, or either of two equal ones.
fn chosen_arm(
    alloc: Global,
    condition: &Formula,
    left: &Term,
    right: &Term,
) -> Result<Option<Term>, NoMemory>
    ensures { IfOk result (λ term. option_map term_tree term ≡ chosen_arm (head_of (formula_tree condition.now)) (term_tree left.now) (term_tree right.now)) }
{
    if is_truth_constant(true, condition) {
        return integer(alloc, left);
    }
    if is_truth_constant(false, condition) {
        return integer(alloc, right);
    }
    if !left.is_same(right) {
        return Ok(None);
    }
    integer(alloc, left)
}

/// The normal form of a condition over a formula and two terms that are in normal form.
pub fn normal_ite(
    alloc: Global,
    condition: Formula,
    left: Term,
    right: Term,
) -> Result<Term, NoMemory>
    ensures { IfOk result (λ normal. term_tree normal ≡ normal_ite (formula_tree condition) (term_tree left) (term_tree right)) }
{
    match chosen_arm(alloc, &condition, &left, &right)? {
        Some(term) => Ok(term),
        None => Term::ite(alloc, condition, left, right),
    }
}
