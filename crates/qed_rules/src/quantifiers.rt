// Quantifiers over ranges, over bounds and bodies that are in normal form.
ghost use Rattle.std.specs.Prelude.{◌≡◌, option_copied, IfOk};
ghost use Rattle.qed_terms.specs.View.{formula_tree, term_tree};
ghost use Rattle.qed_numbers.specs.Numbers.{number_at};
ghost use Rattle.qed_rules.specs.Rules.{is_empty_between, is_single_range, is_instance};
ghost use Rattle.qed_rules.specs.Passes.{pass_quantifier};
ghost use Rattle.qed_rules.specs.View.{view_pass};

use crate::constants::{is_truth_constant, truth_constant};
use crate::pass::Pass;
use crate::relations::difference;
use qed_linear::is_integer;
use qed_substitution::{may_replace, quantify, replace_in_formula};
use qed_terms::{Formula, Term};
use std::alloc::Global;
use wp_base::{NoMemory, Str};

// The number that a term is.
#[tactic(auto, using(qed_terms::proofs::Equations::tree_laws))]
fn number_of(term: &Term) -> Option<i128>
    ensures { result ≡ number_at (term_tree term.now) }
{
    match term {
        Term::Num(value) => Some(*value),
        Term::Var(_, _) => None,
        Term::Op(_, _) => None,
        Term::Ite(_, _, _) => None,
        Term::App(_, _) => None,
    }
}

// Whether both are numbers, and the second isn't above the first.
fn is_empty_between(low: &Term, high: &Term) -> bool
    ensures { result ≡ is_empty_between (number_at (term_tree low.now)) (number_at (term_tree high.now)) }
{
    match number_of(low) {
        Some(low) => match number_of(high) {
            Some(high) => high <= low,
            None => false,
        },
        None => false,
    }
}

// Whether the range has its beginning alone.
fn is_single_range(alloc: Global, low: &Term, high: &Term) -> Result<bool, NoMemory>
    ensures { IfOk result (λ single. single ≡ is_single_range (term_tree low.now) (term_tree high.now)) }
{
    match difference(alloc, high, low)? {
        Some(form) => Ok(form.parts.is_empty() && form.constant == 1),
        None => Ok(false),
    }
}

// Whether the quantifier is its body, with the beginning of the range in the places of the name.
fn is_instance(
    alloc: Global,
    name: &Str,
    low: &Term,
    high: &Term,
    body: &Formula,
) -> Result<bool, NoMemory>
    ensures { IfOk result (λ instance. instance ≡ is_instance name.now (term_tree low.now) (term_tree high.now) (formula_tree body.now)) }
{
    if !is_single_range(alloc, low, high)? {
        return Ok(false);
    }
    Ok(is_integer(low) && may_replace(body, name, low))
}

/// What becomes of a quantifier, `forall` or else `exists`.
pub fn pass_quantifier(
    alloc: Global,
    all: bool,
    name: &Str,
    low: Term,
    high: Term,
    body: Formula,
) -> Result<Pass, NoMemory>
    ensures { IfOk result (λ p. view_pass p ≡ pass_quantifier all name.now (term_tree low) (term_tree high) (formula_tree body)) }
{
    if is_empty_between(&low, &high) || is_truth_constant(all, &body) {
        return Ok(Pass::Done(truth_constant(all)));
    }
    if is_instance(alloc, name, &low, &high, &body)? {
        return Ok(Pass::Again(replace_in_formula(alloc, &body, name, &low)?));
    }
    Ok(Pass::Done(quantify(alloc, all, name, low, high, body)?))
}
