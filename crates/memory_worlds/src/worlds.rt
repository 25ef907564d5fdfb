// What is known at a point, and the slots there.
ghost use Rattle.std.specs.Prelude.{◌≡◌, ◌∷◌, [], map, IfOk, OnOk};
ghost use Rattle.qed_terms.specs.View.{formula_tree, term_tree};
ghost use Rattle.walk_steps.specs.State as state;
ghost use Rattle.memory_steps.specs.World as spec;
ghost use Rattle.memory_worlds.specs.View.{view_slots, view_world};

use qed_terms::{Formula, Term};
use std::alloc::Global;
use wp_base::NoMemory;

/// A point that was passed: its number, and the table there.
#[derive(Drop)]
pub struct Mark {
    pub number: u64,
    pub table: Term,
}

/// The terms in the slots, that of the table, and the points that were passed, the first one first.
#[derive(Drop)]
pub struct Slots {
    pub terms: Vec<Term>,
    pub table: Term,
    pub trail: Vec<Mark>,
}

/// What is known at a point, and the slots there.
#[derive(Drop)]
pub struct World {
    pub known: Vec<Formula>,
    pub slots: Slots,
}

/// A copy of formulas.
pub fn copy_known(alloc: Global, known: &[Formula]) -> Result<Vec<Formula>, NoMemory>
    ensures { IfOk result (λ copy. copy.items ≡ known.now) }
{
    let mut copy = Vec::new(alloc);
    for formula in known {
        copy.push(formula.copy(alloc)?)?;
    }
    Ok(copy)
}

fn copy_terms(alloc: Global, terms: &[Term]) -> Result<Vec<Term>, NoMemory>
    ensures { IfOk result (λ copy. copy.items ≡ terms.now) }
{
    let mut copy = Vec::new(alloc);
    for term in terms {
        copy.push(term.copy(alloc)?)?;
    }
    Ok(copy)
}

fn copy_mark(alloc: Global, mark: &Mark) -> Result<Mark, NoMemory>
    ensures { IfOk result (λ copy. copy ≡ mark.now) }
{
    Ok(Mark {
        number: mark.number,
        table: mark.table.copy(alloc)?,
    })
}

/// A copy of points.
pub fn copy_trail(alloc: Global, trail: &[Mark]) -> Result<Vec<Mark>, NoMemory>
    ensures { IfOk result (λ copy. copy.items ≡ trail.now) }
{
    let mut copy = Vec::new(alloc);
    for mark in trail {
        copy.push(copy_mark(alloc, mark)?)?;
    }
    Ok(copy)
}

/// A copy of slots.
pub fn copy_slots(alloc: Global, slots: &Slots) -> Result<Slots, NoMemory>
    ensures { IfOk result (λ copy. view_slots copy ≡ view_slots slots.now) }
{
    let terms = copy_terms(alloc, slots.terms.as_slice())?;
    let trail = copy_trail(alloc, slots.trail.as_slice())?;
    let table = slots.table.copy(alloc)?;
    Ok(Slots {
        terms,
        table,
        trail,
    })
}

/// A formula is known from here on.
#[tactic(auto, using(crate::proofs::Pushing::map_push))]
pub fn know(world: &mut World, formula: Formula) -> Result<(), NoMemory>
    ensures { OnOk result (view_world world.new ≡ spec.knows (view_world world.old) (formula_tree formula ∷ [])) }
{
    world.known.push(formula)?;
    Ok(())
}

/// A slot is this term.
#[tactic(auto, using(crate::proofs::Pushing::put_some, crate::proofs::Pushing::put_none))]
pub fn put(terms: &mut Vec<Term>, at: usize, term: Term)
    ensures { map term_tree terms.new.items ≡ state.put (map term_tree terms.old.items) at (term_tree term) }
{
    if at < terms.len() {
        terms[at] = term;
    }
}
