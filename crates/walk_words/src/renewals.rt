// Slots that change: fresh names, and what is known of them.
ghost use Rattle.std.specs.Prelude.{◌≡◌, ◌++◌, List, map, IfOk, OnOk};
ghost use Rattle.qed_terms.specs.Fresh.{used_in};
ghost use Rattle.qed_terms.specs.Tree.{at_most};
ghost use Rattle.qed_terms.specs.View.{formula_tree, term_tree};
ghost use Rattle.walk_steps.specs.Forms.{Slots};
ghost use Rattle.walk_steps.specs.World.{pick, after_pick, after_picks, or_own, chosen};
ghost use Rattle.walk_steps.specs.Renew as spec;
ghost use Rattle.walk_words.specs.View.{view_change, view_world};

use crate::names::new_name;
use crate::worlds::{World, extend_slots};
use qed_terms::{FormOp, Formula, Fresh, Term};
use std::alloc::Global;
use wp_base::{NoMemory, Str};

/// How a slot changes.
#[derive(Clone, Copy, Debug)]
pub enum Change {
    Keeps,
    Any,
    /// From the first one to the last one.
    Ranged(i128, i128),
    /// A flag: what was set stays so.
    Raised,
}

// `left <= right`.
fn order(alloc: Global, left: Term, right: Term) -> Result<Formula, NoMemory>
    ensures { IfOk result (λ formula. formula_tree formula ≡ at_most (term_tree left) (term_tree right)) }
{
    Formula::relation(alloc, FormOp::AtMost, left, right)
}

// What is known of a new value.
#[tactic(auto, using(crate::proofs::Pushing::map_push, crate::proofs::Pushing::two_pushed, crate::proofs::Pushing::three_pushed))]
fn add_facts(
    alloc: Global,
    change: Change,
    new: &Term,
    old: &Term,
    known: &mut Vec<Formula>,
) -> Result<(), NoMemory>
    ensures { (ss : List Slots) → OnOk result (map formula_tree known.new.items ≡ map formula_tree known.old.items ++ spec.facts_of ss (view_change change) (term_tree new.now) (term_tree old.now)) }
{
    match change {
        Change::Keeps => Ok(()),
        Change::Any => Ok(()),
        Change::Ranged(low, high) => {
            known.push(order(alloc, Term::number(low), new.copy(alloc)?)?)?;
            known.push(order(alloc, new.copy(alloc)?, Term::number(high))?)?;
            Ok(())
        }
        Change::Raised => {
            known.push(order(alloc, Term::number(0), new.copy(alloc)?)?)?;
            known.push(order(alloc, new.copy(alloc)?, Term::number(1))?)?;
            known.push(order(alloc, old.copy(alloc)?, new.copy(alloc)?)?)?;
            Ok(())
        }
    }
}

// Whether it takes a fresh name.
fn is_renewed(change: Change, term: &Term) -> bool
    ensures { result ≡ spec.is_renewed (view_change change) (term_tree term.now) }
{
    match change {
        Change::Keeps => false,
        Change::Any => true,
        Change::Ranged(_, _) => true,
        Change::Raised => !term.is_same(&Term::number(1)),
    }
}

// A slot changes.
fn renew_one(
    alloc: Global,
    fresh: &mut Fresh,
    base: &Str,
    change: Change,
    term: &Term,
    known: &mut Vec<Formula>,
) -> Result<Term, NoMemory>
    ensures term { let p = pick (used_in fresh.old) base.now (spec.is_renewed (view_change change) (term_tree term.now)) in IfOk result (λ t. term_tree t ≡ or_own p (term_tree term.now)) }
    ensures known { (ss : List Slots) → let p = pick (used_in fresh.old) base.now (spec.is_renewed (view_change change) (term_tree term.now)) in OnOk result (map formula_tree known.new.items ≡ map formula_tree known.old.items ++ spec.facts_if ss (view_change change) p (term_tree term.now)) }
    ensures used { let p = pick (used_in fresh.old) base.now (spec.is_renewed (view_change change) (term_tree term.now)) in OnOk result (used_in fresh.new ≡ after_pick (used_in fresh.old) base.now p) }
{
    if !is_renewed(change, term) {
        return term.copy(alloc);
    }
    let name = new_name(alloc, fresh, base)?;
    add_facts(alloc, change, &name, term, known)?;
    Ok(name)
}

// The slots of a world, changed; those without a change stay.
fn renew_all(
    alloc: Global,
    fresh: &mut Fresh,
    bases: &[Str],
    changes: &[Change],
    slots: &[Term],
    known: &mut Vec<Formula>,
) -> Result<Vec<Term>, NoMemory>
    ensures slots { let ps = spec.renewals bases.now (used_in fresh.old) (map view_change changes.now) (map term_tree slots.now) in IfOk result (λ renewed. map term_tree renewed.items ≡ chosen ps (map term_tree slots.now)) }
    ensures known { (ss : List Slots) → let ps = spec.renewals bases.now (used_in fresh.old) (map view_change changes.now) (map term_tree slots.now) in OnOk result (map formula_tree known.new.items ≡ map formula_tree known.old.items ++ spec.facts ss (map view_change changes.now) ps (map term_tree slots.now)) }
    ensures used { let ps = spec.renewals bases.now (used_in fresh.old) (map view_change changes.now) (map term_tree slots.now) in OnOk result (used_in fresh.new ≡ after_picks bases.now ps (used_in fresh.old)) }
{
    let count = bases.len().min(changes.len().min(slots.len()));
    let mut renewed = Vec::new(alloc);
    for at in 0..count {
        renewed.push(renew_one(alloc, fresh, &bases[at], changes[at], &slots[at], known)?)?;
    }
    extend_slots(alloc, slots, count, &mut renewed)?;
    Ok(renewed)
}

/// The slots change, all at once.
#[tactic(auto, using(crate::proofs::Renewed::renewed_so))]
pub fn renew(
    alloc: Global,
    fresh: &mut Fresh,
    bases: &[Str],
    changes: &[Change],
    world: &mut World,
) -> Result<(), NoMemory>
    ensures world { (olds : List Slots) → OnOk result (view_world world.new ≡ spec.renewed bases.now olds (used_in fresh.old) (map view_change changes.now) (view_world world.old)) }
    ensures used { OnOk result (used_in fresh.new ≡ spec.used_by_renewed bases.now (used_in fresh.old) (map view_change changes.now) (view_world world.old)) }
{
    let slots = renew_all(
        alloc,
        fresh,
        bases,
        changes,
        world.slots.as_slice(),
        &mut world.known,
    )?;
    world.slots = slots;
    Ok(())
}
