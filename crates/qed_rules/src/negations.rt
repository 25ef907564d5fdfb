// Negation, implication and equivalence of formulas that are in normal form, where no quantifier is met.
ghost use Rattle.std.specs.Prelude.{◌≡◌, true, false, [], ◌∷◌, map, IfOk};
ghost use Rattle.qed_terms.specs.View.{formula_tree};
ghost use Rattle.qed_rules.specs.Passes.{normal_junction, normal_not};

use crate::build::pair;
use crate::junctions::normal_junction;
use crate::relations::negated_relation;
use qed_terms::Formula;
use std::alloc::Global;
use wp_base::{List, NoMemory};

/// The normal form of the negation of a formula that is in normal form. A quantifier keeps its `not`.
#[cycle(normal_not)]
#[tactic(auto, using(qed_terms::proofs::Equations::tree_laws))]
pub fn normal_not(alloc: Global, formula: &Formula) -> Result<Formula, NoMemory>
    ensures { IfOk result (λ normal. formula_tree normal ≡ normal_not (formula_tree formula.now)) }
{
    match formula {
        Formula::True => Ok(Formula::False),
        Formula::False => Ok(Formula::True),
        Formula::Not(inner) => inner.get().copy(alloc),
        Formula::And(operands) => normal_junction(alloc, false, normal_nots(alloc, operands)?),
        Formula::Or(operands) => normal_junction(alloc, true, normal_nots(alloc, operands)?),
        Formula::Rel(op, terms) => match negated_relation(alloc, op, terms)? {
            Some(opposite) => Ok(opposite),
            None => Formula::negation(alloc, formula.copy(alloc)?),
        },
        Formula::Imp(_, _) => Formula::negation(alloc, formula.copy(alloc)?),
        Formula::Iff(_, _) => Formula::negation(alloc, formula.copy(alloc)?),
        Formula::Forall(_, _, _, _) => Formula::negation(alloc, formula.copy(alloc)?),
        Formula::Exists(_, _, _, _) => Formula::negation(alloc, formula.copy(alloc)?),
    }
}

#[cycle(normal_not)]
fn normal_nots(alloc: Global, formulas: &List<Formula>) -> Result<List<Formula>, NoMemory>
    ensures { IfOk result (λ normals. map formula_tree normals ≡ map (λ f. normal_not (formula_tree f)) formulas.now) }
{
    let mut normals = List::new(alloc);
    for formula in formulas.as_slice() {
        normals.push(normal_not(alloc, formula)?)?;
    }
    Ok(normals)
}

// `or` of two.
fn normal_or(alloc: Global, left: Formula, right: Formula) -> Result<Formula, NoMemory>
    ensures { IfOk result (λ normal. formula_tree normal ≡ normal_junction false (formula_tree left ∷ formula_tree right ∷ [])) }
{
    let operands = pair(alloc, left, right)?;
    normal_junction(alloc, false, operands)
}

/// The second from the first.
pub fn normal_implication(alloc: Global, from: &Formula, to: &Formula) -> Result<Formula, NoMemory>
    ensures { IfOk result (λ normal. formula_tree normal ≡ normal_junction false (normal_not (formula_tree from.now) ∷ formula_tree to.now ∷ [])) }
{
    let not_from = normal_not(alloc, from)?;
    normal_or(alloc, not_from, to.copy(alloc)?)
}

// The first from the second.
fn normal_converse(alloc: Global, to: &Formula, from: &Formula) -> Result<Formula, NoMemory>
    ensures { IfOk result (λ normal. formula_tree normal ≡ normal_junction false (formula_tree to.now ∷ normal_not (formula_tree from.now) ∷ [])) }
{
    let not_from = normal_not(alloc, from)?;
    normal_or(alloc, to.copy(alloc)?, not_from)
}

/// Each of two from the other.
pub fn normal_equivalence(
    alloc: Global,
    left: &Formula,
    right: &Formula,
) -> Result<Formula, NoMemory>
    ensures { IfOk result (λ normal. formula_tree normal ≡ normal_junction true (normal_junction false (normal_not (formula_tree left.now) ∷ formula_tree right.now ∷ []) ∷ normal_junction false (formula_tree left.now ∷ normal_not (formula_tree right.now) ∷ []) ∷ [])) }
{
    let to_right = normal_implication(alloc, left, right)?;
    let to_left = normal_converse(alloc, left, right)?;
    let operands = pair(alloc, to_right, to_left)?;
    normal_junction(alloc, true, operands)
}
