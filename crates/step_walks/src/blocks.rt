// Blocks and scopes. What is walked inside has a list of exits of its own.
ghost use Rattle.std.specs.Prelude.{◌≡◌, ◌++◌, false, map, Option, IfOk, OnOk};
ghost use Rattle.qed_terms.specs.View.{term_tree};
ghost use Rattle.step_walks.specs.View.{view_state};
ghost use Rattle.step_walks.specs.Walks.{EndsAs};
ghost use Rattle.step_walks.specs.Ways.{BlockEnds, now_inside, now_put_back};
ghost use Rattle.walk_steps.specs.Walk.{list_of};
ghost use Rattle.walk_steps.specs.World as spec;
ghost use Rattle.walk_words.specs.View.{exits_at, view_world};

use crate::states::State;
use std::alloc::Global;
use std::mem;
use walk_words::{Exit, World, copy_slots, gather, put_back, put_back_all, sort_exits};
use wp_base::{NoMemory, Str};

/// Sets the exits of the blocks around aside.
pub fn begin_block(alloc: Global, state: &mut State) -> Vec<Exit>
    ensures outer { result.items ≡ state.old.left.items }
    ensures state { view_state state.new ≡ now_inside (view_state state.old) }
{
    mem::replace(&mut state.left, Vec::new(alloc))
}

// The world is taken away.
fn taken(alloc: Global, world: &mut World) -> World
    ensures { view_world result ≡ view_world world.old }
{
    let known = mem::replace(&mut world.known, Vec::new(alloc));
    let slots = mem::replace(&mut world.slots, Vec::new(alloc));
    World { known, slots }
}

// The exits of a block in order, and then its end.
#[tactic(auto, using(crate::proofs::Begun::with_end, crate::proofs::Begun::without_end, walk_words::proofs::Pushing::map_push))]
fn all_ends(
    alloc: Global,
    goes: bool,
    world: &mut World,
    here: Vec<World>,
) -> Result<Vec<World>, NoMemory>
    ensures ends { (e : Option spec.World) → EndsAs goes (view_world world.old) e → IfOk result (λ all. map view_world all.items ≡ map view_world here.items ++ list_of e) }
    ensures kept { goes ≡ false → OnOk result (world.new ≡ world.old) }
{
    let mut here = here;
    if goes {
        here.push(taken(alloc, world))?;
    }
    Ok(here)
}

/// The end of a block, with the exits in it; those of the blocks around are `outer`.
#[tactic(auto, using(crate::proofs::Meeting::block_goes))]
pub fn end_block(
    alloc: Global,
    bases: &[Str],
    goes: bool,
    outer: Vec<Exit>,
    state: &mut State,
) -> Result<bool, NoMemory>
    ensures { IfOk result (λ on. BlockEnds bases.now (exits_at outer.items) goes (view_state state.old) (view_state state.new) on) }
{
    let inner = mem::replace(&mut state.left, outer);
    let here = sort_exits(alloc, inner, &mut state.left)?;
    let here = all_ends(alloc, goes, &mut state.world, here)?;
    match gather(alloc, &mut state.fresh, bases, here)? {
        None => Ok(false),
        Some(met) => {
            state.world = met;
            Ok(true)
        }
    }
}

/// A world with the present slots, of which nothing is known.
pub fn copy_state(alloc: Global, state: &State) -> Result<World, NoMemory>
    ensures { IfOk result (λ w. map term_tree w.slots.items ≡ (view_state state.now).world.slots) }
{
    let slots = copy_slots(alloc, state.world.slots.as_slice())?.into_vec();
    Ok(World {
        known: Vec::new(alloc),
        slots,
    })
}

/// The end of a scope of these slots, which were so before it; the exits of the blocks around are `outer`.
pub fn end_scope(
    alloc: Global,
    places: &[usize],
    before: &World,
    outer: Vec<Exit>,
    state: &mut State,
) -> Result<(), NoMemory>
    ensures { OnOk result (view_state state.new ≡ now_put_back places.now (view_world before.now) (exits_at outer.items) (view_state state.old)) }
{
    let inner = mem::replace(&mut state.left, outer);
    put_back(
        alloc,
        places,
        before.slots.as_slice(),
        &mut state.world.slots,
    )?;
    put_back_all(alloc, places, before, inner, &mut state.left)?;
    Ok(())
}
