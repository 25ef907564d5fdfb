// Values that are set: a large one gets a name.
ghost use Rattle.std.specs.Prelude.{◌≡◌, ◌++◌, map, IfOk, OnOk};
ghost use Rattle.qed_terms.specs.Fresh.{use_one};
ghost use Rattle.qed_terms.specs.View.{formula_tree, term_tree};
ghost use Rattle.walk_steps.specs.World.{is_large};
ghost use Rattle.memory_steps.specs.World as spec;
ghost use Rattle.memory_worlds.specs.View.{used_by, view_base, view_world};

use crate::names::{Base, Names, new_name, number_name};
use crate::terms::add_link;
use crate::worlds::{World, put};
use qed_terms::{Formula, Term};
use std::alloc::Global;
use wp_base::NoMemory;

/// The base name of numbers that are named for their size.
const LARGE: &[u8] = b"v";

/// A value of more nodes is named.
const MOST_NODES: usize = 40;

fn is_too_large(term: &Term) -> bool
    ensures { result ≡ is_large (term_tree term.now) }
{
    term.is_larger_than(MOST_NODES)
}

// Whether the slot's own base names what is too large for it.
#[tactic(auto, using(crate::proofs::GivenNames::memory_at, crate::proofs::GivenNames::memory_past))]
fn is_memory_at(bases: &[Base], at: usize) -> bool
    ensures { result ≡ (spec.base_at (map view_base bases.now) at).is_memory }
{
    if at < bases.len() {
        bases[at].is_memory
    } else {
        false
    }
}

// The next fresh name of a large value for this slot.
#[tactic(auto, using(crate::proofs::GivenNames::own_name, crate::proofs::GivenNames::own_used, crate::proofs::GivenNames::size_name, crate::proofs::GivenNames::size_used, crate::proofs::GivenNames::past_name, crate::proofs::GivenNames::past_used))]
fn large_name(alloc: Global, names: &mut Names, bases: &[Base], at: usize) -> Result<Term, NoMemory>
    ensures name { IfOk result (λ term. term_tree term ≡ spec.new_name (used_by names.old) (spec.base_at (map view_base bases.now) at)) }
    ensures used { OnOk result (used_by names.new ≡ use_one (used_by names.old) (spec.base_at (map view_base bases.now) at).name) }
{
    if at < bases.len() {
        let base = &bases[at];
        if base.is_memory {
            let name = new_name(alloc, names, base)?;
            return Ok(name);
        }
    }
    let name = number_name(alloc, names, LARGE)?;
    Ok(name)
}

/// The term that stands for a value that is set. What is known of it is added.
#[tactic(auto, using(crate::proofs::GivenNames::small_term, crate::proofs::GivenNames::small_used, crate::proofs::GivenNames::small_known, crate::proofs::GivenNames::large_term, crate::proofs::GivenNames::large_used, crate::proofs::GivenNames::large_known))]
pub fn named(
    alloc: Global,
    names: &mut Names,
    bases: &[Base],
    at: usize,
    value: Term,
    known: &mut Vec<Formula>,
) -> Result<Term, NoMemory>
    ensures term { IfOk result (λ term. term_tree term ≡ (spec.named (spec.base_at (map view_base bases.now) at) (used_by names.old) (term_tree value)).term) }
    ensures used { OnOk result (used_by names.new ≡ (spec.named (spec.base_at (map view_base bases.now) at) (used_by names.old) (term_tree value)).used) }
    ensures known { OnOk result (map formula_tree known.new.items ≡ map formula_tree known.old.items ++ (spec.named (spec.base_at (map view_base bases.now) at) (used_by names.old) (term_tree value)).links) }
{
    if !is_too_large(&value) {
        return Ok(value);
    }
    let name = large_name(alloc, names, bases, at)?;
    add_link(alloc, is_memory_at(bases, at), &name, value, known)?;
    Ok(name)
}

/// A slot is set to a value, which is named where it is large.
#[tactic(auto, using(crate::proofs::GivenNames::set_so))]
pub fn set(
    alloc: Global,
    names: &mut Names,
    bases: &[Base],
    world: &mut World,
    at: usize,
    value: Term,
) -> Result<(), NoMemory>
    ensures world { OnOk result (view_world world.new ≡ spec.set_to (view_world world.old) at (spec.named (spec.base_at (map view_base bases.now) at) (used_by names.old) (term_tree value))) }
    ensures used { OnOk result (used_by names.new ≡ (spec.named (spec.base_at (map view_base bases.now) at) (used_by names.old) (term_tree value)).used) }
{
    let term = named(alloc, names, bases, at, value, &mut world.known)?;
    put(&mut world.slots.terms, at, term);
    Ok(())
}
