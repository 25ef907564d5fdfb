// Where walks meet: exits of blocks, and slots of scopes that are put back.
ghost use Rattle.std.specs.Prelude.{◌≡◌, ◌++◌, ◌∷◌, suc, pos, ℕ, List, map, None, Some, IfOk, OnOk};
ghost use Rattle.qed_terms.specs.Tree.{num};
ghost use Rattle.qed_terms.specs.View.{term_tree};
ghost use Rattle.walk_steps.specs.State as state;
ghost use Rattle.memory_steps.specs.World as spec_world;
ghost use Rattle.memory_steps.specs.Join as spec;
ghost use Rattle.memory_worlds.specs.Scopes.{put_all, saved_at, with_saved};
ghost use Rattle.memory_worlds.specs.View.{exits_at, met_with, used_by, used_by_met_with, view_base, view_end, view_world};

use crate::joins::join;
use crate::names::{Base, Names};
use crate::worlds::{World, put};
use qed_terms::Term;
use std::alloc::Global;
use wp_base::NoMemory;

/// An exit out of so many blocks and one more, with the world there.
#[derive(Drop)]
pub struct Exit {
    pub level: usize,
    pub world: World,
}

// ---- blocks

/// The exits of a block: those that end here, and the others, which have one block less to leave.
#[tactic(auto, using(crate::proofs::Pushing::map_push, crate::proofs::Ending::here_next, crate::proofs::Ending::here_not_further))]
pub fn sort_exits(
    alloc: Global,
    inner: Vec<Exit>,
    left: &mut Vec<Exit>,
) -> Result<Vec<World>, NoMemory>
    ensures here { IfOk result (λ here. map view_world here.items ≡ exits_at inner.items 0) }
    ensures left { (k : ℕ) → OnOk result (exits_at left.new.items k ≡ exits_at left.old.items k ++ exits_at inner.items (suc k)) }
{
    let mut here = Vec::new(alloc);
    for exit in inner {
        let Exit { level, world } = exit;
        if level == 0 {
            here.push(world)?;
        } else {
            left.push(Exit {
                level: level - 1,
                world,
            })?;
        }
    }
    Ok(here)
}

// One more world is joined.
#[tactic(auto, using(crate::proofs::Ending::joins_next, crate::proofs::Ending::joins_used))]
fn join_one(
    alloc: Global,
    names: &mut Names,
    bases: &[Base],
    so_far: Option<World>,
    world: World,
) -> Result<World, NoMemory>
    ensures end { (ws : List spec_world.World) → IfOk result (λ w. met_with (map view_base bases.now) (used_by names.new) (Some (view_world w)) ws ≡ met_with (map view_base bases.now) (used_by names.old) (view_end so_far) (view_world world ∷ ws)) }
    ensures used { (ws : List spec_world.World) → IfOk result (λ w. used_by_met_with (map view_base bases.now) (used_by names.new) (Some (view_world w)) ws ≡ used_by_met_with (map view_base bases.now) (used_by names.old) (view_end so_far) (view_world world ∷ ws)) }
{
    match so_far {
        None => Ok(world),
        Some(first) => {
            let met = join(alloc, names, bases, first, world)?;
            Ok(met)
        }
    }
}

/// Worlds as one, in pairs from the left.
#[tactic(auto, using(crate::proofs::Ending::met_first, crate::proofs::Ending::met_first_used))]
pub fn gather(
    alloc: Global,
    names: &mut Names,
    bases: &[Base],
    worlds: Vec<World>,
) -> Result<Option<World>, NoMemory>
    ensures end { IfOk result (λ end. view_end end ≡ spec.meet (map view_base bases.now) (used_by names.old) (map view_world worlds.items)) }
    ensures used { OnOk result (used_by names.new ≡ spec.used_by_meet (map view_base bases.now) (used_by names.old) (map view_world worlds.items)) }
{
    let mut so_far = None;
    for world in worlds {
        so_far = Some(join_one(alloc, names, bases, so_far, world)?);
    }
    Ok(so_far)
}

// ---- scopes

// The term of a slot, or 0 where there is none.
#[tactic(auto, using(crate::proofs::Pushing::at_some, crate::proofs::Pushing::at_none))]
fn read(alloc: Global, terms: &[Term], at: usize) -> Result<Term, NoMemory>
    ensures { IfOk result (λ term. term_tree term ≡ state.at_or (num (pos 0)) (map term_tree terms.now) at) }
{
    if at < terms.len() {
        terms[at].copy(alloc)
    } else {
        Ok(Term::number(0))
    }
}

/// The terms of these slots.
#[tactic(auto, using(crate::proofs::Pushing::map_push, crate::proofs::Pushing::seen_more))]
pub fn saved(alloc: Global, places: &[usize], terms: &[Term]) -> Result<Vec<Term>, NoMemory>
    ensures { IfOk result (λ saved. map term_tree saved.items ≡ saved_at places.now (map term_tree terms.now)) }
{
    let mut saved = Vec::new(alloc);
    for place in places {
        saved.push(read(alloc, terms, *place)?)?;
    }
    Ok(saved)
}

/// These slots are what they were.
#[tactic(auto, using(crate::proofs::Ending::put_back_next, crate::proofs::Ending::put_back_end))]
pub fn put_back(
    alloc: Global,
    places: &[usize],
    saved: &[Term],
    terms: &mut Vec<Term>,
) -> Result<(), NoMemory>
    ensures { OnOk result (map term_tree terms.new.items ≡ put_all places.now (map term_tree saved.now) (map term_tree terms.old.items)) }
{
    for at in 0..places.len().min(saved.len()) {
        put(terms, places[at], saved[at].copy(alloc)?);
    }
    Ok(())
}

/// These slots are what they were, at the exits too.
#[tactic(auto, using(crate::proofs::Ending::saved_next))]
pub fn put_back_all(
    alloc: Global,
    places: &[usize],
    saved: &[Term],
    inner: Vec<Exit>,
    left: &mut Vec<Exit>,
) -> Result<(), NoMemory>
    ensures { (k : ℕ) → OnOk result (exits_at left.new.items k ≡ exits_at left.old.items k ++ map (with_saved places.now (map term_tree saved.now)) (exits_at inner.items k)) }
{
    for exit in inner {
        let Exit { level, mut world } = exit;
        put_back(alloc, places, saved, &mut world.slots.terms)?;
        left.push(Exit { level, world })?;
    }
    Ok(())
}
