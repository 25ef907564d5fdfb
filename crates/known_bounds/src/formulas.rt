// What known formulas tell of names, and whether that settles a claim.
ghost use Rattle.std.specs.Prelude.{◌≡◌, true, false, List, IfOk, OnOk};
ghost use Rattle.qed_terms.specs.Meaning.{Values, World};
ghost use Rattle.qed_terms.specs.declared.term.Formula.TheVariants as formula_is;
ghost use Rattle.known_bounds.specs.Bounds.{AllHold, AreKept, Extends, formula_truth};

use crate::bounds::{Bound, bounds_from, widen};
use crate::relations::{is_relation_told, learn_relation};
use qed_terms::Formula;
use std::alloc::Global;
use wp_base::NoMemory;

fn learn_opposite(alloc: Global, bounds: &mut Vec<Bound>, formula: &Formula) -> Result<(), NoMemory>
    ensures kept { (w : World) (env : Values) → AreKept env bounds.old.items → formula_truth w env formula.now ≡ false → OnOk result (AreKept env bounds.new.items) }
    ensures front { OnOk result (Extends bounds.old.items bounds.new.items) }
{
    match formula {
        Formula::Rel(op, terms) => learn_relation(alloc, bounds, op, terms.as_slice(), false),
        _ => Ok(()),
    }
}

#[cycle(learning)]
fn learn_all(alloc: Global, bounds: &mut Vec<Bound>, formulas: &[Formula]) -> Result<(), NoMemory>
    ensures kept { (w : World) (env : Values) → AreKept env bounds.old.items → AllHold w env formulas.now → OnOk result (AreKept env bounds.new.items) }
    ensures front { OnOk result (Extends bounds.old.items bounds.new.items) }
{
    for formula in formulas {
        learn(alloc, bounds, formula)?;
    }
    Ok(())
}

// What one of the parts tells beyond what is told already, which is left as it was.
#[cycle(learning)]
fn learn_apart(
    alloc: Global,
    bounds: &mut Vec<Bound>,
    formula: &Formula,
) -> Result<Vec<Bound>, NoMemory>
    ensures same { OnOk result (bounds.new.items ≡ bounds.old.items) }
    ensures kept { (w : World) (env : Values) → AreKept env bounds.old.items → formula_truth w env formula.now ≡ true → IfOk result (λ more. AreKept env more.items) }
{
    let count = bounds.len();
    learn(alloc, bounds, formula)?;
    let more = bounds_from(alloc, bounds.as_slice(), count)?;
    bounds.truncate(count);
    Ok(more)
}

// What either of two parts tells. Of more parts nothing is told.
#[cycle(learning)]
fn learn_either(alloc: Global, bounds: &mut Vec<Bound>, parts: &[Formula]) -> Result<(), NoMemory>
    ensures kept { (w : World) (env : Values) → AreKept env bounds.old.items → formula_truth w env (formula_is.Or parts.now) ≡ true → OnOk result (AreKept env bounds.new.items) }
    ensures front { OnOk result (Extends bounds.old.items bounds.new.items) }
{
    if parts.len() != 2 {
        return Ok(());
    }
    let first = learn_apart(alloc, bounds, &parts[0])?;
    let second = learn_apart(alloc, bounds, &parts[1])?;
    widen(alloc, bounds, first.as_slice(), second.as_slice())
}

// What a formula that is true tells of names.
#[cycle(learning)]
fn learn(alloc: Global, bounds: &mut Vec<Bound>, formula: &Formula) -> Result<(), NoMemory>
    ensures kept { (w : World) (env : Values) → AreKept env bounds.old.items → formula_truth w env formula.now ≡ true → OnOk result (AreKept env bounds.new.items) }
    ensures front { OnOk result (Extends bounds.old.items bounds.new.items) }
{
    match formula {
        Formula::Rel(op, terms) => learn_relation(alloc, bounds, op, terms.as_slice(), true),
        Formula::Not(part) => learn_opposite(alloc, bounds, part.get()),
        Formula::And(parts) => learn_all(alloc, bounds, parts.as_slice()),
        Formula::Or(parts) => learn_either(alloc, bounds, parts.as_slice()),
        _ => Ok(()),
    }
}

fn is_opposite_told(bounds: &[Bound], formula: &Formula) -> bool
    ensures { result ≡ true → (w : World) (env : Values) → AreKept env bounds.now → formula_truth w env formula.now ≡ false }
{
    match formula {
        Formula::Rel(op, terms) => is_relation_told(bounds, op, terms.as_slice(), false),
        _ => false,
    }
}

#[cycle(telling)]
fn are_told(bounds: &[Bound], formulas: &[Formula]) -> bool
    ensures { result ≡ true → (w : World) (env : Values) → AreKept env bounds.now → AllHold w env formulas.now }
{
    for formula in formulas {
        if !is_told(bounds, formula) {
            return false;
        }
    }
    true
}

// Whether the bounds tell that a formula is true.
#[cycle(telling)]
fn is_told(bounds: &[Bound], formula: &Formula) -> bool
    ensures { result ≡ true → (w : World) (env : Values) → AreKept env bounds.now → formula_truth w env formula.now ≡ true }
{
    match formula {
        Formula::True => true,
        Formula::Rel(op, terms) => is_relation_told(bounds, op, terms.as_slice(), true),
        Formula::Not(part) => is_opposite_told(bounds, part.get()),
        Formula::And(parts) => are_told(bounds, parts.as_slice()),
        _ => false,
    }
}

/// Whether a claim is told by the bounds that known formulas set to names. It may be true where it isn't told.
pub fn is_told_by(alloc: Global, known: &[Formula], claim: &Formula) -> Result<bool, NoMemory>
    ensures { IfOk result (λ so. so ≡ true → (w : World) (env : Values) → AllHold w env known.now → formula_truth w env claim.now ≡ true) }
{
    let mut bounds = Vec::new(alloc);
    learn_all(alloc, &mut bounds, known)?;
    Ok(is_told(bounds.as_slice(), claim))
}
