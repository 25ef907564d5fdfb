// What is known at a point, and the terms of the slots there.
ghost use Rattle.std.specs.Prelude.{◌≡◌, ◌++◌, ◌∷◌, [], drop, map, IfOk, OnOk};
ghost use Rattle.qed_terms.specs.Fresh.{used_in};
ghost use Rattle.qed_terms.specs.View.{formula_tree, term_tree};
ghost use Rattle.walk_steps.specs.State as state;
ghost use Rattle.walk_steps.specs.World as spec;
ghost use Rattle.walk_words.specs.View.{view_world};

use crate::names::named;
use qed_terms::{Formula, Fresh, Term};
use std::alloc::Global;
use wp_base::{List, NoMemory};

/// What is known at a point, and the terms of the slots there.
#[derive(Drop)]
pub struct World {
    pub known: Vec<Formula>,
    pub slots: Vec<Term>,
}

/// A copy of formulas.
pub fn copy_known(alloc: Global, known: &[Formula]) -> Result<Vec<Formula>, NoMemory>
    ensures { IfOk result (λ copy. copy.items ≡ known.now) }
{
    let mut copy = Vec::new(alloc);
    for formula in known {
        copy.push(formula.copy(alloc)?)?;
    }
    Ok(copy)
}

/// A copy of the terms of slots.
pub fn copy_slots(alloc: Global, slots: &[Term]) -> Result<List<Term>, NoMemory>
    ensures { IfOk result (λ copy. copy ≡ slots.now) }
{
    let mut copy = Vec::new(alloc);
    for term in slots {
        copy.push(term.copy(alloc)?)?;
    }
    Ok(List::from_vec(copy))
}

/// Copies of the terms from a place on, behind those that are there.
#[tactic(auto, using(crate::proofs::Pushing::copied_more, crate::proofs::Pushing::copied_all))]
pub fn extend_slots(
    alloc: Global,
    terms: &[Term],
    from: usize,
    slots: &mut Vec<Term>,
) -> Result<(), NoMemory>
    ensures { OnOk result (slots.new.items ≡ slots.old.items ++ drop from terms.now) }
{
    for at in from..terms.len() {
        slots.push(terms[at].copy(alloc)?)?;
    }
    Ok(())
}

/// A formula is known from here on.
#[tactic(auto, using(crate::proofs::Pushing::map_push))]
pub fn know(world: &mut World, formula: Formula) -> Result<(), NoMemory>
    ensures { OnOk result (view_world world.new ≡ spec.knows (view_world world.old) (formula_tree formula ∷ [])) }
{
    world.known.push(formula)?;
    Ok(())
}

/// A slot is this term.
#[tactic(auto, using(crate::proofs::Pushing::put_some, crate::proofs::Pushing::put_none))]
pub fn put(slots: &mut Vec<Term>, at: usize, term: Term)
    ensures { map term_tree slots.new.items ≡ state.put (map term_tree slots.old.items) at (term_tree term) }
{
    if at < slots.len() {
        slots[at] = term;
    }
}

/// A slot is set to a value, which is named where it is large.
#[tactic(auto, using(crate::proofs::GivenNames::set_so))]
pub fn set(
    alloc: Global,
    fresh: &mut Fresh,
    world: &mut World,
    at: usize,
    value: Term,
) -> Result<(), NoMemory>
    ensures world { OnOk result (view_world world.new ≡ spec.set_to (view_world world.old) at (spec.named (used_in fresh.old) (term_tree value))) }
    ensures used { OnOk result (used_in fresh.new ≡ (spec.named (used_in fresh.old) (term_tree value)).used) }
{
    let term = named(alloc, fresh, value, &mut world.known)?;
    put(&mut world.slots, at, term);
    Ok(())
}
