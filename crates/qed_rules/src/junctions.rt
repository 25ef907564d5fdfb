// Junctions, `and` and `or`, of formulas that are in normal form.
ghost use Rattle.std.specs.Prelude.{◌≡◌, false, slice_index_or, Bool, List, [], ◌∷◌, ◌++◌, map, option_map, if◌then◌else◌, IfOk, OnOk};
ghost use Rattle.qed_terms.specs.Tree.{list_of, kids_in, not_of};
ghost use Rattle.qed_terms.specs.View.{formula_tree};
ghost use Rattle.qed_rules.specs.Rules.{negated_relation, is_junction, is_truth_constant, has, flatten, drop_units, drop_repeats, is_opposed};
ghost use Rattle.qed_rules.specs.Marked.{kept_by, kept_if, opposites};
ghost use Rattle.qed_rules.specs.Passes.{unwrap_single, check_opposites, absorb_constants, normal_junction};

use crate::constants::{is_truth_constant, truth_constant};
use crate::relations::negated_relation;
use formula_sets::{first_ones, have_common};
use qed_terms::Formula;
use std::alloc::Global;
use wp_base::{List, NoMemory};

fn append(all: &mut List<Formula>, operands: List<Formula>) -> Result<(), NoMemory>
    ensures { OnOk result (all.new ≡ all.old ++ operands) }
{
    for operand in operands.into_vec() {
        all.push(operand)?;
    }
    Ok(())
}

// The operands of a junction of this kind, or the formula alone.
#[tactic(auto, using(qed_terms::proofs::Equations::tree_laws))]
fn operands_of(alloc: Global, all: bool, formula: Formula) -> Result<List<Formula>, NoMemory>
    ensures { IfOk result (λ operands. map formula_tree operands ≡ (if is_junction all (formula_tree formula) then list_of (kids_in (formula_tree formula)) else formula_tree formula ∷ [])) }
{
    let mut alone = List::new(alloc);
    match formula {
        Formula::And(operands) => {
            if all {
                return Ok(operands);
            }
            alone.push(Formula::And(operands))?;
        }
        Formula::Or(operands) => {
            if !all {
                return Ok(operands);
            }
            alone.push(Formula::Or(operands))?;
        }
        Formula::True => alone.push(Formula::True)?,
        Formula::False => alone.push(Formula::False)?,
        Formula::Rel(op, terms) => alone.push(Formula::Rel(op, terms))?,
        Formula::Not(inner) => alone.push(Formula::Not(inner))?,
        Formula::Imp(from, to) => alone.push(Formula::Imp(from, to))?,
        Formula::Iff(left, right) => alone.push(Formula::Iff(left, right))?,
        Formula::Forall(name, low, high, body) => {
            alone.push(Formula::Forall(name, low, high, body))?
        }
        Formula::Exists(name, low, high, body) => {
            alone.push(Formula::Exists(name, low, high, body))?
        }
    }
    Ok(alone)
}

// Each operand of the same kind gives way to its own operands.
fn flatten(alloc: Global, all: bool, operands: List<Formula>) -> Result<List<Formula>, NoMemory>
    ensures { IfOk result (λ flat. map formula_tree flat ≡ flatten all (map formula_tree operands)) }
{
    let mut flat = List::new(alloc);
    for operand in operands.into_vec() {
        append(&mut flat, operands_of(alloc, all, operand)?)?;
    }
    Ok(flat)
}

fn has_truth_constant(value: bool, operands: &[Formula]) -> bool
    ensures { result ≡ has (is_truth_constant value) (map formula_tree operands.now) }
{
    for operand in operands {
        if is_truth_constant(value, operand) {
            return true;
        }
    }
    false
}

// Without the unit.
fn drop_units(alloc: Global, unit: bool, operands: List<Formula>) -> Result<List<Formula>, NoMemory>
    ensures { IfOk result (λ others. map formula_tree others ≡ drop_units unit (map formula_tree operands)) }
{
    let mut others = List::new(alloc);
    for operand in operands.into_vec() {
        if !is_truth_constant(unit, &operand) {
            others.push(operand)?;
        }
    }
    Ok(others)
}

fn is_marked(marks: &[bool], at: usize) -> bool
    ensures { result ≡ slice_index_or marks.now at false }
{
    at < marks.len() && marks[at]
}

// One more, where it is marked.
#[tactic(auto, using(crate::proofs::Marked::kept_one))]
fn keep_if(keep: bool, operand: Formula, kept: &mut List<Formula>) -> Result<(), NoMemory>
    ensures { OnOk result (map formula_tree kept.new ≡ map formula_tree kept.old ++ kept_if keep (formula_tree operand)) }
{
    if keep {
        kept.push(operand)?;
    }
    Ok(())
}

// Those that are marked.
#[tactic(auto, using(crate::proofs::Marked::kept_more))]
fn keep_marked(
    alloc: Global,
    operands: List<Formula>,
    marks: &[bool],
) -> Result<List<Formula>, NoMemory>
    ensures { IfOk result (λ kept. map formula_tree kept ≡ kept_by marks.now (map formula_tree operands)) }
{
    let mut kept = List::new(alloc);
    let mut at = 0;
    for operand in operands.into_vec() {
        keep_if(is_marked(marks, at), operand, &mut kept)?;
        at += 1;
    }
    Ok(kept)
}

// Each operand where it stands first.
#[tactic(auto, using(crate::proofs::Marked::firsts_are_kept))]
fn drop_repeats(alloc: Global, operands: List<Formula>) -> Result<List<Formula>, NoMemory>
    ensures { IfOk result (λ kept. map formula_tree kept ≡ drop_repeats [] (map formula_tree operands)) }
{
    let firsts = first_ones(alloc, operands.as_slice())?;
    keep_marked(alloc, operands, firsts.as_slice())
}

// The negation of a relation that has one of its own.
#[tactic(auto, using(qed_terms::proofs::Equations::tree_laws))]
fn opposite(alloc: Global, formula: &Formula) -> Result<Option<Formula>, NoMemory>
    ensures { IfOk result (λ other. option_map formula_tree other ≡ negated_relation (formula_tree formula.now)) }
{
    match formula {
        Formula::Rel(op, terms) => negated_relation(alloc, op, terms),
        Formula::True
        | Formula::False
        | Formula::Not(_)
        | Formula::And(_)
        | Formula::Or(_)
        | Formula::Imp(_, _)
        | Formula::Iff(_, _)
        | Formula::Forall(_, _, _, _)
        | Formula::Exists(_, _, _, _) => Ok(None),
    }
}

// The negation of each operand, and for a relation also that of its own form.
fn opposites(alloc: Global, operands: &[Formula]) -> Result<List<Formula>, NoMemory>
    ensures { IfOk result (λ others. map formula_tree others ≡ opposites (map formula_tree operands.now)) }
{
    let mut others = List::new(alloc);
    for operand in operands {
        others.push(Formula::negation(alloc, operand.copy(alloc)?)?)?;
        if let Some(other) = opposite(alloc, operand)? {
            others.push(other)?;
        }
    }
    Ok(others)
}

// Whether some operand stands beside its negation.
#[tactic(auto, using(crate::proofs::Marked::opposites_meet))]
fn has_opposed(alloc: Global, operands: &[Formula]) -> Result<bool, NoMemory>
    ensures { IfOk result (λ opposed. opposed ≡ has (is_opposed (map formula_tree operands.now)) (map formula_tree operands.now)) }
{
    let others = opposites(alloc, operands)?;
    let found = have_common(alloc, others.as_slice(), operands)?;
    Ok(found)
}

// The junction of operands; one stands alone, and none is the unit.
#[tactic(auto, using(qed_terms::proofs::Equations::tree_laws))]
fn unwrap_single(all: bool, operands: List<Formula>) -> Formula
    ensures { formula_tree result ≡ unwrap_single all (map formula_tree operands) }
{
    let mut operands = operands.into_vec();
    if operands.len() >= 2 {
        let operands = List::from_vec(operands);
        return if all {
            Formula::And(operands)
        } else {
            Formula::Or(operands)
        };
    }
    match operands.pop() {
        Some(operand) => operand,
        None => truth_constant(all),
    }
}

// The absorbing constant, where an operand and its negation stand together.
fn check_opposites(alloc: Global, all: bool, operands: List<Formula>) -> Result<Formula, NoMemory>
    ensures { IfOk result (λ formula. formula_tree formula ≡ check_opposites all (map formula_tree operands)) }
{
    if has_opposed(alloc, operands.as_slice())? {
        return Ok(truth_constant(!all));
    }
    Ok(unwrap_single(all, operands))
}

// The absorbing constant, where it is an operand; else without units and repeats.
fn absorb_constants(alloc: Global, all: bool, operands: List<Formula>) -> Result<Formula, NoMemory>
    ensures { IfOk result (λ formula. formula_tree formula ≡ absorb_constants all (map formula_tree operands)) }
{
    if has_truth_constant(!all, operands.as_slice()) {
        return Ok(truth_constant(!all));
    }
    let operands = drop_units(alloc, all, operands)?;
    let operands = drop_repeats(alloc, operands)?;
    check_opposites(alloc, all, operands)
}

/// The normal form of `and`, or of `or`, of formulas that are in normal form.
pub fn normal_junction(
    alloc: Global,
    all: bool,
    operands: List<Formula>,
) -> Result<Formula, NoMemory>
    ensures { IfOk result (λ formula. formula_tree formula ≡ normal_junction all (map formula_tree operands)) }
{
    let operands = flatten(alloc, all, operands)?;
    absorb_constants(alloc, all, operands)
}
