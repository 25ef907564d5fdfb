// The two arms of a choice. What is known before them isn't copied: what the first one adds is taken off, and put behind it where they meet.
ghost use Rattle.std.specs.Prelude.{◌≡◌, length, map, IfOk, OnOk};
ghost use Rattle.memory_steps.specs.World as spec_world;
ghost use Rattle.memory_worlds.specs.View.{view_base};
ghost use Rattle.memory_walks.specs.View.{view_state};
ghost use Rattle.memory_walks.specs.Walks.{Begins, Held, now_marked};
ghost use Rattle.memory_walks.specs.Ways.{IsArm, IsFork, Meets, TurnsBack, arms_joined, first_alone};

use crate::states::{State, mark, taken};
use memory_worlds::{Base, Slots, World, copy_slots, join};
use qed_terms::Formula;
use std::alloc::Global;
use std::mem;
use wp_base::NoMemory;

/// Where the arms begin: how many formulas are known there, and the slots.
#[derive(Drop)]
pub struct Fork {
    pub from: usize,
    pub slots: Slots,
}

/// What the first arm came to, behind the formulas that are known before both.
#[derive(Drop)]
pub struct Arm {
    pub from: usize,
    pub known: Vec<Formula>,
    pub slots: Slots,
}

/// The arms begin here: a point is passed, which both have behind them.
pub fn begin_arms(alloc: Global, state: &mut State) -> Result<Fork, NoMemory>
    ensures marked { OnOk result (view_state state.new ≡ now_marked (view_state state.old)) }
    ensures fork { IfOk result (λ f. IsFork f (view_state state.new)) }
{
    mark(alloc, state)?;
    let slots = copy_slots(alloc, &state.world.slots)?;
    Ok(Fork {
        from: state.world.known.len(),
        slots,
    })
}

/// The second arm begins where the first one did.
pub fn turn_back(fork: Fork, state: &mut State) -> Result<Arm, NoMemory>
    ensures { (p : Held) → IsFork fork p → Begins p.world.known (view_state state.old).world.known → IfOk result (λ arm. TurnsBack p (view_state state.old) arm (view_state state.new)) }
{
    let Fork { from, slots } = fork;
    let from = from.min(state.world.known.len());
    let known = state.world.known.split_off(from)?;
    let slots = mem::replace(&mut state.world.slots, slots);
    Ok(Arm { from, known, slots })
}

// The first arm alone goes on.
fn go_on(arm: Arm, state: &mut State) -> Result<(), NoMemory>
    ensures { (p : Held) → arm.from ≡ length p.world.known → Begins p.world.known (view_state state.old).world.known → OnOk result (view_state state.new ≡ first_alone p arm (view_state state.old)) }
{
    let Arm {
        from,
        mut known,
        slots,
    } = arm;
    state.world.known.truncate(from);
    state.world.known.append(&mut known)?;
    state.world.slots = slots;
    Ok(())
}

// Both arms go on.
fn join_arms(alloc: Global, bases: &[Base], arm: Arm, state: &mut State) -> Result<(), NoMemory>
    ensures { (p : Held) → arm.from ≡ length p.world.known → Begins p.world.known (view_state state.old).world.known → OnOk result (view_state state.new ≡ arms_joined (map view_base bases.now) p arm (view_state state.old)) }
{
    let Arm { from, known, slots } = arm;
    let first = World { known, slots };
    let from = from.min(state.world.known.len());
    let known = state.world.known.split_off(from)?;
    let slots = taken(alloc, &mut state.world.slots);
    let second = World { known, slots };
    let mut met = join(alloc, &mut state.names, bases, first, second)?;
    state.world.known.append(&mut met.known)?;
    state.world.slots = met.slots;
    Ok(())
}

/// Where the arms meet.
#[tactic(auto, using(crate::proofs::Meeting::second_alone, crate::proofs::Meeting::first_meets))]
pub fn meet(
    alloc: Global,
    bases: &[Base],
    first: bool,
    arm: Arm,
    second: bool,
    state: &mut State,
) -> Result<bool, NoMemory>
    ensures { (p : Held) (w : spec_world.World) → IsArm arm p w → Begins p.world.known (view_state state.old).world.known → IfOk result (λ goes. Meets (map view_base bases.now) p first w second (view_state state.old) (view_state state.new) goes) }
{
    if !first {
        return Ok(second);
    }
    if !second {
        go_on(arm, state)?;
        return Ok(true);
    }
    join_arms(alloc, bases, arm, state)?;
    Ok(true)
}
