// What a walk changes as it goes on, and steps that ask nothing.
ghost use Rattle.std.specs.Prelude.{◌≡◌, ◌∷◌, [], drop, map, IfOk, OnOk};
ghost use Rattle.qed_terms.specs.View.{formula_tree, term_tree};
ghost use Rattle.step_walks.specs.View.{view_state};
ghost use Rattle.step_walks.specs.Walks.{now_changed, now_forgets, now_knows, now_left, now_remembers, now_set};
ghost use Rattle.walk_words.specs.View.{view_change};

use qed_terms::{Formula, Fresh, Term};
use std::alloc::Global;
use walk_words::{Change, Exit, World, copy_known, copy_slots, renew};
use wp_base::{List, NoMemory, Str};

/// What a walk changes as it goes on.
#[derive(Drop)]
pub struct State {
    /// The slots of the states that are remembered, the last one first.
    pub olds: Vec<List<Term>>,
    pub fresh: Fresh,
    pub world: World,
    /// The exits so far out of the blocks around.
    pub left: Vec<Exit>,
}

/// A formula is known from here on.
pub fn know(state: &mut State, formula: Formula) -> Result<(), NoMemory>
    ensures { OnOk result (view_state state.new ≡ now_knows (view_state state.old) (formula_tree formula ∷ [])) }
{
    walk_words::know(&mut state.world, formula)?;
    Ok(())
}

/// A slot is set to a value, which is named where it is large.
pub fn set(alloc: Global, at: usize, value: Term, state: &mut State) -> Result<(), NoMemory>
    ensures { OnOk result (view_state state.new ≡ now_set (view_state state.old) at (term_tree value)) }
{
    walk_words::set(alloc, &mut state.fresh, &mut state.world, at, value)?;
    Ok(())
}

/// The slots change, all at once.
pub fn change(
    alloc: Global,
    bases: &[Str],
    changes: &[Change],
    state: &mut State,
) -> Result<(), NoMemory>
    ensures { OnOk result (view_state state.new ≡ now_changed bases.now (view_state state.old) (map view_change changes.now)) }
{
    renew(alloc, &mut state.fresh, bases, changes, &mut state.world)?;
    Ok(())
}

/// Leaves so many blocks and one more.
pub fn leave(alloc: Global, level: usize, state: &mut State) -> Result<(), NoMemory>
    ensures { OnOk result (view_state state.new ≡ now_left (view_state state.old) level) }
{
    let known = copy_known(alloc, state.world.known.as_slice())?;
    let slots = copy_slots(alloc, state.world.slots.as_slice())?.into_vec();
    let world = World { known, slots };
    state.left.push(Exit { level, world })?;
    Ok(())
}

/// The present slots are remembered.
pub fn remember(alloc: Global, state: &mut State) -> Result<(), NoMemory>
    ensures { OnOk result (view_state state.new ≡ now_remembers (view_state state.old)) }
{
    let slots = copy_slots(alloc, state.world.slots.as_slice())?;
    state.olds.insert(0, slots)?;
    Ok(())
}

/// What was remembered last is forgotten.
pub fn forget(state: &mut State)
    ensures { view_state state.new ≡ now_forgets (view_state state.old) }
{
    if !state.olds.is_empty() {
        let _slots = state.olds.remove(0);
    }
}
