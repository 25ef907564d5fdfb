// Blocks and scopes of a program. What is walked inside has a list of exits of its own.
ghost use Rattle.std.specs.Prelude.{◌≡◌, ◌++◌, false, map, Option, IfOk, OnOk};
ghost use Rattle.qed_terms.specs.View.{term_tree};
ghost use Rattle.walk_steps.specs.Walk.{list_of};
ghost use Rattle.memory_steps.specs.World as spec;
ghost use Rattle.memory_worlds.specs.Scopes.{saved_at};
ghost use Rattle.memory_worlds.specs.View.{exits_at, view_base, view_world};
ghost use Rattle.memory_walks.specs.View.{view_state};
ghost use Rattle.memory_walks.specs.Walks.{EndsAs};
ghost use Rattle.memory_walks.specs.Ways.{BlockEnds, now_inside, now_put_back};

use crate::states::{State, taken};
use memory_worlds::{Base, Exit, World, gather, put_back, put_back_all, saved, sort_exits};
use qed_terms::Term;
use std::alloc::Global;
use std::mem;
use wp_base::NoMemory;

/// Sets the exits of the blocks around aside.
pub fn begin_block(alloc: Global, state: &mut State) -> Vec<Exit>
    ensures outer { result.items ≡ state.old.left.items }
    ensures state { view_state state.new ≡ now_inside (view_state state.old) }
{
    mem::replace(&mut state.left, Vec::new(alloc))
}

// The world is taken away.
fn taken_world(alloc: Global, world: &mut World) -> World
    ensures { view_world result ≡ view_world world.old }
{
    let known = mem::replace(&mut world.known, Vec::new(alloc));
    let slots = taken(alloc, &mut world.slots);
    World { known, slots }
}

// The exits of a block in order, and then its end.
#[tactic(auto, using(crate::proofs::Begun::with_end, crate::proofs::Begun::without_end, memory_worlds::proofs::Pushing::map_push))]
fn all_ends(
    alloc: Global,
    goes: bool,
    world: &mut World,
    here: Vec<World>,
) -> Result<Vec<World>, NoMemory>
    ensures ends { (e : Option spec.World) → EndsAs goes (view_world world.old) e → IfOk result (λ all. map view_world all.items ≡ map view_world here.items ++ list_of e) }
    ensures kept { goes ≡ false → OnOk result (world.new ≡ world.old) }
{
    let mut here = here;
    if goes {
        here.push(taken_world(alloc, world))?;
    }
    Ok(here)
}

/// The end of a block, with the exits in it; those of the blocks around are `outer`.
#[tactic(auto, using(crate::proofs::Meeting::block_goes))]
pub fn end_block(
    alloc: Global,
    bases: &[Base],
    goes: bool,
    outer: Vec<Exit>,
    state: &mut State,
) -> Result<bool, NoMemory>
    ensures { IfOk result (λ on. BlockEnds (map view_base bases.now) (exits_at outer.items) goes (view_state state.old) (view_state state.new) on) }
{
    let inner = mem::replace(&mut state.left, outer);
    let here = sort_exits(alloc, inner, &mut state.left)?;
    let here = all_ends(alloc, goes, &mut state.world, here)?;
    match gather(alloc, &mut state.names, bases, here)? {
        None => Ok(false),
        Some(met) => {
            state.world = met;
            Ok(true)
        }
    }
}

/// The terms of the slots of a scope.
pub fn begin_scope(alloc: Global, places: &[usize], state: &State) -> Result<Vec<Term>, NoMemory>
    ensures { IfOk result (λ terms. map term_tree terms.items ≡ saved_at places.now (view_state state.now).world.slots.terms) }
{
    saved(alloc, places, state.world.slots.terms.as_slice())
}

/// The end of a scope of these slots, which had these terms before it; the exits of the blocks around are `outer`.
pub fn end_scope(
    alloc: Global,
    places: &[usize],
    before: &[Term],
    outer: Vec<Exit>,
    state: &mut State,
) -> Result<(), NoMemory>
    ensures { OnOk result (view_state state.new ≡ now_put_back places.now (map term_tree before.now) (exits_at outer.items) (view_state state.old)) }
{
    let inner = mem::replace(&mut state.left, outer);
    put_back(alloc, places, before, &mut state.world.slots.terms)?;
    put_back_all(alloc, places, before, inner, &mut state.left)?;
    Ok(())
}
