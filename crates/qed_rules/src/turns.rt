// What becomes of negations, implications and equivalences. Where no quantifier is met their normal form is made at once; else the rule is
// applied, and its result goes again.
ghost use Rattle.std.specs.Prelude.{◌≡◌, map, option_map, IfOk};
ghost use Rattle.qed_terms.specs.Tree.{node, not_of, three, trees_of};
ghost use Rattle.qed_terms.specs.View.{formula_tree, term_tree};
ghost use Rattle.qed_substitution.specs.Substitution.{quantifier};
ghost use Rattle.qed_rules.specs.Passes.{are_unquantified, both_ways, either, is_unquantified, pass_equivalence, pass_implication, pass_not, turned};
ghost use Rattle.qed_rules.specs.View.{view_pass};

use crate::build::{copy_both, pair};
use crate::negations::{normal_equivalence, normal_implication, normal_not};
use crate::pass::Pass;
use qed_substitution::quantify;
use qed_terms::{Formula, Term};
use std::alloc::Global;
use wp_base::{List, NoMemory, Str};

// Whether the formula has no quantifier but within its terms.
#[cycle(is_unquantified)]
#[tactic(auto, using(qed_terms::proofs::Equations::tree_laws))]
fn is_unquantified(formula: &Formula) -> bool
    ensures { result ≡ is_unquantified (formula_tree formula.now) }
{
    match formula {
        Formula::Forall(_, _, _, _) => false,
        Formula::Exists(_, _, _, _) => false,
        Formula::And(parts) => are_unquantified(parts),
        Formula::Or(parts) => are_unquantified(parts),
        Formula::True => true,
        Formula::False => true,
        Formula::Rel(_, _) => true,
        Formula::Not(_) => true,
        Formula::Imp(_, _) => true,
        Formula::Iff(_, _) => true,
    }
}

#[cycle(is_unquantified)]
fn are_unquantified(formulas: &List<Formula>) -> bool
    ensures { result ≡ are_unquantified (trees_of (map formula_tree formulas.now)) }
{
    for formula in formulas.as_slice() {
        if !is_unquantified(formula) {
            return false;
        }
    }
    true
}

fn not_of(alloc: Global, formula: &Formula) -> Result<Formula, NoMemory>
    ensures { IfOk result (λ not. formula_tree not ≡ not_of (formula_tree formula.now)) }
{
    Formula::negation(alloc, formula.copy(alloc)?)
}

// The negation of each.
fn nots(alloc: Global, formulas: &List<Formula>) -> Result<List<Formula>, NoMemory>
    ensures { IfOk result (λ nots. map formula_tree nots ≡ map (λ f. not_of (formula_tree f)) formulas.now) }
{
    let mut nots = List::new(alloc);
    for formula in formulas.as_slice() {
        nots.push(not_of(alloc, formula)?)?;
    }
    Ok(nots)
}

// The quantifier, `forall` or else `exists`, over the negation of the body.
fn over_not(
    alloc: Global,
    all: bool,
    name: &Str,
    low: &Term,
    high: &Term,
    body: &Formula,
) -> Result<Formula, NoMemory>
    ensures { IfOk result (λ formula. formula_tree formula ≡ node (quantifier all name.now) (three (term_tree low.now) (term_tree high.now) (not_of (formula_tree body.now)))) }
{
    let body = not_of(alloc, body)?;
    let (low, high) = copy_both(alloc, low, high)?;
    quantify(alloc, all, name, low, high, body)
}

// What the negation of a formula with quantifiers becomes by one rule.
#[tactic(auto, using(qed_terms::proofs::Equations::tree_laws))]
fn turn(alloc: Global, formula: &Formula) -> Result<Option<Formula>, NoMemory>
    ensures { IfOk result (λ next. option_map formula_tree next ≡ turned (formula_tree formula.now)) }
{
    match formula {
        Formula::And(parts) => Ok(Some(Formula::Or(nots(alloc, parts)?))),
        Formula::Or(parts) => Ok(Some(Formula::And(nots(alloc, parts)?))),
        Formula::Forall(name, low, high, body) => Ok(Some(over_not(
            alloc,
            false,
            name,
            low.get(),
            high.get(),
            body.get(),
        )?)),
        Formula::Exists(name, low, high, body) => Ok(Some(over_not(
            alloc,
            true,
            name,
            low.get(),
            high.get(),
            body.get(),
        )?)),
        Formula::True => Ok(None),
        Formula::False => Ok(None),
        Formula::Rel(_, _) => Ok(None),
        Formula::Not(_) => Ok(None),
        Formula::Imp(_, _) => Ok(None),
        Formula::Iff(_, _) => Ok(None),
    }
}

/// What becomes of the negation of a formula that is in normal form.
pub fn pass_not(alloc: Global, formula: &Formula) -> Result<Pass, NoMemory>
    ensures { IfOk result (λ p. view_pass p ≡ pass_not (formula_tree formula.now)) }
{
    if is_unquantified(formula) {
        return Ok(Pass::Done(normal_not(alloc, formula)?));
    }
    match turn(alloc, formula)? {
        Some(turned) => Ok(Pass::Again(turned)),
        None => Ok(Pass::Done(not_of(alloc, formula)?)),
    }
}

// The first from the second, or the second.
fn either(alloc: Global, left: Formula, right: Formula) -> Result<Formula, NoMemory>
    ensures { IfOk result (λ formula. formula_tree formula ≡ either (formula_tree left) (formula_tree right)) }
{
    Ok(Formula::or(pair(alloc, left, right)?))
}

/// What becomes of an implication between two that are in normal form.
pub fn pass_implication(alloc: Global, from: &Formula, to: &Formula) -> Result<Pass, NoMemory>
    ensures { IfOk result (λ p. view_pass p ≡ pass_implication (formula_tree from.now) (formula_tree to.now)) }
{
    if is_unquantified(from) {
        return Ok(Pass::Done(normal_implication(alloc, from, to)?));
    }
    let not_from = not_of(alloc, from)?;
    Ok(Pass::Again(either(alloc, not_from, to.copy(alloc)?)?))
}

// Each of two from the other.
fn both_ways(alloc: Global, left: &Formula, right: &Formula) -> Result<Formula, NoMemory>
    ensures { IfOk result (λ formula. formula_tree formula ≡ both_ways (formula_tree left.now) (formula_tree right.now)) }
{
    let not_left = not_of(alloc, left)?;
    let to_right = either(alloc, not_left, right.copy(alloc)?)?;
    let not_right = not_of(alloc, right)?;
    let to_left = either(alloc, left.copy(alloc)?, not_right)?;
    Formula::both(alloc, to_right, to_left)
}

/// What becomes of an equivalence of two that are in normal form.
pub fn pass_equivalence(alloc: Global, left: &Formula, right: &Formula) -> Result<Pass, NoMemory>
    ensures { IfOk result (λ p. view_pass p ≡ pass_equivalence (formula_tree left.now) (formula_tree right.now)) }
{
    if is_unquantified(left) && is_unquantified(right) {
        return Ok(Pass::Done(normal_equivalence(alloc, left, right)?));
    }
    Ok(Pass::Again(both_ways(alloc, left, right)?))
}
