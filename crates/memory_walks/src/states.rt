// What a walk changes as it goes on, and steps that ask nothing.
ghost use Rattle.std.specs.Prelude.{◌≡◌, ◌∷◌, [], map, OnOk};
ghost use Rattle.qed_terms.specs.View.{formula_tree, term_tree};
ghost use Rattle.memory_walks.specs.View.{view_state};
ghost use Rattle.memory_walks.specs.Walks.{no_slots, now_changed, now_ended, now_forgets, now_grown, now_knows, now_left, now_made, now_marked, now_remembers, now_set};
ghost use Rattle.memory_worlds.specs.Changes.{view_change};
ghost use Rattle.memory_worlds.specs.View.{view_base, view_slots};

use memory_worlds::{
    Base, Change, Exit, Names, Slots, World, copy_known, copy_slots, end_blocks, make_block, pass,
    renew,
};
use qed_terms::{Formula, Term};
use std::alloc::Global;
use std::mem;
use wp_base::{Layout, NoMemory};

/// What a walk changes as it goes on.
#[derive(Drop)]
pub struct State {
    /// The slots that are remembered, the last ones first.
    pub olds: Vec<Slots>,
    pub names: Names,
    pub world: World,
    /// The exits so far out of the blocks around.
    pub left: Vec<Exit>,
}

/// A formula is known from here on.
pub fn know(state: &mut State, formula: Formula) -> Result<(), NoMemory>
    ensures { OnOk result (view_state state.new ≡ now_knows (view_state state.old) (formula_tree formula ∷ [])) }
{
    memory_worlds::know(&mut state.world, formula)?;
    Ok(())
}

/// A slot is set to a value, which is named where it is large.
pub fn set(
    alloc: Global,
    bases: &[Base],
    at: usize,
    value: Term,
    state: &mut State,
) -> Result<(), NoMemory>
    ensures { OnOk result (view_state state.new ≡ now_set (map view_base bases.now) (view_state state.old) at (term_tree value)) }
{
    memory_worlds::set(alloc, &mut state.names, bases, &mut state.world, at, value)?;
    Ok(())
}

/// The slots change, all at once.
pub fn change(
    alloc: Global,
    bases: &[Base],
    changes: &[Change],
    state: &mut State,
) -> Result<(), NoMemory>
    ensures { OnOk result (view_state state.new ≡ now_changed (map view_base bases.now) (view_state state.old) (map view_change changes.now)) }
{
    renew(alloc, &mut state.names, bases, changes, &mut state.world)?;
    Ok(())
}

// ---- exits

fn nothing(alloc: Global) -> Slots
    ensures { view_slots result ≡ no_slots }
{
    Slots {
        terms: Vec::new(alloc),
        table: Term::number(0),
        trail: Vec::new(alloc),
    }
}

/// The slots are taken away.
pub fn taken(alloc: Global, slots: &mut Slots) -> Slots
    ensures taken { view_slots result ≡ view_slots slots.old }
    ensures left { view_slots slots.new ≡ no_slots }
{
    mem::replace(slots, nothing(alloc))
}

/// Leaves so many blocks and one more. The slots go along; what is known is copied, since another arm
/// may begin with it.
pub fn leave(alloc: Global, level: usize, state: &mut State) -> Result<(), NoMemory>
    ensures { OnOk result (view_state state.new ≡ now_left (view_state state.old) level) }
{
    let known = copy_known(alloc, state.world.known.as_slice())?;
    let slots = taken(alloc, &mut state.world.slots);
    let world = World { known, slots };
    state.left.push(Exit { level, world })?;
    Ok(())
}

// ---- slots that are remembered

/// A point is passed.
pub fn mark(alloc: Global, state: &mut State) -> Result<(), NoMemory>
    ensures { OnOk result (view_state state.new ≡ now_marked (view_state state.old)) }
{
    pass(alloc, &mut state.names, &mut state.world)?;
    Ok(())
}

/// The present slots are remembered.
pub fn remember(alloc: Global, state: &mut State) -> Result<(), NoMemory>
    ensures { OnOk result (view_state state.new ≡ now_remembers (view_state state.old)) }
{
    mark(alloc, state)?;
    let slots = copy_slots(alloc, &state.world.slots)?;
    state.olds.insert(0, slots)?;
    Ok(())
}

/// What was remembered last is forgotten.
pub fn forget(state: &mut State)
    ensures { view_state state.new ≡ now_forgets (view_state state.old) }
{
    if !state.olds.is_empty() {
        let _slots = state.olds.remove(0);
    }
}

// ---- the table

/// Any number of blocks were made and have ended.
pub fn grow(alloc: Global, state: &mut State) -> Result<(), NoMemory>
    ensures { OnOk result (view_state state.new ≡ now_grown (view_state state.old)) }
{
    memory_worlds::grow(alloc, &mut state.names, &mut state.world)?;
    Ok(())
}

/// One more block, which lives; its number is in this slot.
pub fn make(alloc: Global, at: usize, layout: Layout, state: &mut State) -> Result<(), NoMemory>
    ensures { OnOk result (view_state state.new ≡ now_made (view_state state.old) at layout) }
{
    make_block(alloc, &mut state.names, at, layout, &mut state.world)?;
    Ok(())
}

/// The blocks that were made since the slots of this level were remembered have ended.
#[tactic(auto, using(crate::proofs::Begun::level_some, crate::proofs::Begun::level_none))]
pub fn end(alloc: Global, level: usize, state: &mut State) -> Result<(), NoMemory>
    ensures { OnOk result (view_state state.new ≡ now_ended (view_state state.old) level) }
{
    if level < state.olds.len() {
        end_blocks(alloc, &state.olds[level], &mut state.world)?;
        return Ok(());
    }
    let own = copy_slots(alloc, &state.world.slots)?;
    end_blocks(alloc, &own, &mut state.world)?;
    Ok(())
}
