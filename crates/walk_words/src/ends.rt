// Where walks meet: exits of blocks, and slots of scopes that are put back.
ghost use Rattle.std.specs.Prelude.{◌≡◌, ◌++◌, ◌∷◌, suc, pos, ℕ, List, map, None, Some, IfOk, OnOk};
ghost use Rattle.qed_terms.specs.Fresh.{used_in};
ghost use Rattle.qed_terms.specs.Tree.{num};
ghost use Rattle.qed_terms.specs.View.{term_tree};
ghost use Rattle.walk_steps.specs.State as state;
ghost use Rattle.walk_steps.specs.World as spec_world;
ghost use Rattle.walk_steps.specs.Join as spec;
ghost use Rattle.walk_words.specs.View.{exits_at, met_with, used_by_met_with, view_end, view_world};

use crate::joins::join;
use crate::worlds::{World, put};
use qed_terms::{Fresh, Term};
use std::alloc::Global;
use wp_base::{NoMemory, Str};

/// An exit out of so many blocks and one more, with the world there.
#[derive(Drop)]
pub struct Exit {
    pub level: usize,
    pub world: World,
}

// ---- blocks

/// The exits of a block: those that end here, and the others, which have one block less to leave.
#[tactic(auto, using(crate::proofs::Pushing::map_push, crate::proofs::Ending::here_next, crate::proofs::Ending::here_not_further))]
pub fn sort_exits(
    alloc: Global,
    inner: Vec<Exit>,
    left: &mut Vec<Exit>,
) -> Result<Vec<World>, NoMemory>
    ensures here { IfOk result (λ here. map view_world here.items ≡ exits_at inner.items 0) }
    ensures left { (k : ℕ) → OnOk result (exits_at left.new.items k ≡ exits_at left.old.items k ++ exits_at inner.items (suc k)) }
{
    let mut here = Vec::new(alloc);
    for exit in inner {
        let Exit { level, world } = exit;
        if level == 0 {
            here.push(world)?;
        } else {
            left.push(Exit {
                level: level - 1,
                world,
            })?;
        }
    }
    Ok(here)
}

// One more world is joined.
#[tactic(auto, using(crate::proofs::Ending::joins_next, crate::proofs::Ending::joins_used))]
fn join_one(
    alloc: Global,
    fresh: &mut Fresh,
    bases: &[Str],
    so_far: Option<World>,
    world: World,
) -> Result<World, NoMemory>
    ensures end { (ws : List spec_world.World) → IfOk result (λ w. met_with bases.now (used_in fresh.new) (Some (view_world w)) ws ≡ met_with bases.now (used_in fresh.old) (view_end so_far) (view_world world ∷ ws)) }
    ensures used { (ws : List spec_world.World) → IfOk result (λ w. used_by_met_with bases.now (used_in fresh.new) (Some (view_world w)) ws ≡ used_by_met_with bases.now (used_in fresh.old) (view_end so_far) (view_world world ∷ ws)) }
{
    match so_far {
        None => Ok(world),
        Some(first) => {
            let met = join(alloc, fresh, bases, first, world)?;
            Ok(met)
        }
    }
}

/// Worlds as one, in pairs from the left.
#[tactic(auto, using(crate::proofs::Ending::met_first, crate::proofs::Ending::met_first_used))]
pub fn gather(
    alloc: Global,
    fresh: &mut Fresh,
    bases: &[Str],
    worlds: Vec<World>,
) -> Result<Option<World>, NoMemory>
    ensures end { IfOk result (λ end. view_end end ≡ spec.meet bases.now (used_in fresh.old) (map view_world worlds.items)) }
    ensures used { OnOk result (used_in fresh.new ≡ spec.used_by_meet bases.now (used_in fresh.old) (map view_world worlds.items)) }
{
    let mut so_far = None;
    for world in worlds {
        so_far = Some(join_one(alloc, fresh, bases, so_far, world)?);
    }
    Ok(so_far)
}

// ---- scopes

// The term of a slot, or 0 where there is none.
#[tactic(auto, using(crate::proofs::Pushing::at_some, crate::proofs::Pushing::at_none))]
fn read(alloc: Global, slots: &[Term], at: usize) -> Result<Term, NoMemory>
    ensures { IfOk result (λ term. term_tree term ≡ state.at_or (num (pos 0)) (map term_tree slots.now) at) }
{
    if at < slots.len() {
        slots[at].copy(alloc)
    } else {
        Ok(Term::number(0))
    }
}

/// These slots are what they were.
#[tactic(auto, using(crate::proofs::Ending::put_back_next))]
pub fn put_back(
    alloc: Global,
    places: &[usize],
    before: &[Term],
    slots: &mut Vec<Term>,
) -> Result<(), NoMemory>
    ensures { OnOk result (map term_tree slots.new.items ≡ state.restore (num (pos 0)) places.now (map term_tree before.now) (map term_tree slots.old.items)) }
{
    for place in places {
        put(slots, *place, read(alloc, before, *place)?);
    }
    Ok(())
}

/// These slots are what they were, at the exits too.
#[tactic(auto, using(crate::proofs::Ending::restored_next))]
pub fn put_back_all(
    alloc: Global,
    places: &[usize],
    before: &World,
    inner: Vec<Exit>,
    left: &mut Vec<Exit>,
) -> Result<(), NoMemory>
    ensures { (k : ℕ) → OnOk result (exits_at left.new.items k ≡ exits_at left.old.items k ++ map (spec_world.restored places.now (view_world before.now)) (exits_at inner.items k)) }
{
    for exit in inner {
        let Exit { level, mut world } = exit;
        put_back(alloc, places, before.slots.as_slice(), &mut world.slots)?;
        left.push(Exit { level, world })?;
    }
    Ok(())
}
