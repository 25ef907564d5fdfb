// The two arms of a choice. What is known before them isn't copied: what the first one adds is taken off, and put behind it where they meet.
ghost use Rattle.std.specs.Prelude.{◌≡◌, length, IfOk, OnOk};
ghost use Rattle.step_walks.specs.View.{view_state};
ghost use Rattle.step_walks.specs.Walks.{Begins, Held};
ghost use Rattle.step_walks.specs.Ways.{IsArm, IsFork, Meets, TurnsBack, arms_joined, first_alone};
ghost use Rattle.walk_steps.specs.World as spec_world;

use crate::states::State;
use qed_terms::{Formula, Term};
use std::alloc::Global;
use std::mem;
use walk_words::{World, copy_slots, join};
use wp_base::{List, NoMemory, Str};

/// Where the arms begin: how many formulas are known there, and the slots.
#[derive(Drop)]
pub struct Fork {
    pub from: usize,
    pub slots: List<Term>,
}

/// What the first arm came to, behind the formulas that are known before both.
#[derive(Drop)]
pub struct Arm {
    pub from: usize,
    pub known: Vec<Formula>,
    pub slots: Vec<Term>,
}

/// The arms begin here.
pub fn begin_arms(alloc: Global, state: &State) -> Result<Fork, NoMemory>
    ensures { IfOk result (λ f. IsFork f (view_state state.now)) }
{
    let slots = copy_slots(alloc, state.world.slots.as_slice())?;
    Ok(Fork {
        from: state.world.known.len(),
        slots,
    })
}

/// The second arm begins where the first one did.
pub fn turn_back(fork: Fork, state: &mut State) -> Result<Arm, NoMemory>
    ensures { (p : Held) → IsFork fork p → Begins p.world.known (view_state state.old).world.known → IfOk result (λ arm. TurnsBack p (view_state state.old) arm (view_state state.new)) }
{
    let Fork { from, slots } = fork;
    let from = from.min(state.world.known.len());
    let known = state.world.known.split_off(from)?;
    let slots = mem::replace(&mut state.world.slots, slots.into_vec());
    Ok(Arm { from, known, slots })
}

// The first arm alone goes on.
fn go_on(arm: Arm, state: &mut State) -> Result<(), NoMemory>
    ensures { (p : Held) → arm.from ≡ length p.world.known → Begins p.world.known (view_state state.old).world.known → OnOk result (view_state state.new ≡ first_alone p arm (view_state state.old)) }
{
    let Arm {
        from,
        mut known,
        slots,
    } = arm;
    state.world.known.truncate(from);
    state.world.known.append(&mut known)?;
    state.world.slots = slots;
    Ok(())
}

// Both arms go on.
fn join_arms(alloc: Global, bases: &[Str], arm: Arm, state: &mut State) -> Result<(), NoMemory>
    ensures { (p : Held) → arm.from ≡ length p.world.known → Begins p.world.known (view_state state.old).world.known → OnOk result (view_state state.new ≡ arms_joined bases.now p arm (view_state state.old)) }
{
    let Arm { from, known, slots } = arm;
    let first = World { known, slots };
    let from = from.min(state.world.known.len());
    let known = state.world.known.split_off(from)?;
    let slots = mem::replace(&mut state.world.slots, Vec::new(alloc));
    let second = World { known, slots };
    let mut met = join(alloc, &mut state.fresh, bases, first, second)?;
    state.world.known.append(&mut met.known)?;
    state.world.slots = met.slots;
    Ok(())
}

/// Where the arms meet.
#[tactic(auto, using(crate::proofs::Meeting::second_alone, crate::proofs::Meeting::first_meets))]
pub fn meet(
    alloc: Global,
    bases: &[Str],
    first: bool,
    arm: Arm,
    second: bool,
    state: &mut State,
) -> Result<bool, NoMemory>
    ensures { (p : Held) (w : spec_world.World) → IsArm arm p w → Begins p.world.known (view_state state.old).world.known → IfOk result (λ goes. Meets bases.now p first w second (view_state state.old) (view_state state.new) goes) }
{
    if !first {
        return Ok(second);
    }
    if !second {
        go_on(arm, state)?;
        return Ok(true);
    }
    join_arms(alloc, bases, arm, state)?;
    Ok(true)
}
