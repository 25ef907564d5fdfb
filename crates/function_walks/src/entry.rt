// The state in which a function is entered.
ghost use Rattle.std.specs.Prelude.{◌≡◌, ◌∷◌, [], ℕ, List, map, IfOk};
ghost use Rattle.function_walks.specs.Entry.{Behind, entered, entry_trees};
ghost use Rattle.program_trees.specs.View.{view_contract};
ghost use Rattle.qed_terms.specs.Fresh.{none_used};
ghost use Rattle.qed_terms.specs.Meaning as sense;
ghost use Rattle.qed_terms.specs.View.{formula_tree, term_tree};
ghost use Rattle.step_walks.specs.View.{view_state};
ghost use Rattle.step_walks.specs.Walks.{states};
ghost use Rattle.walk_frames.specs.View.{facts_in, shape_in};
ghost use Rattle.wp_base.specs.declared.kinds.Kind.{Kind};

use crate::known::put_required;
use crate::origins::{origins_of, slots_of};
use crate::ranges::{put_file_ranges, put_param_ranges};
use qed_terms::{Formula, Fresh, Term};
use std::alloc::Global;
use std::mem;
use step_walks::State;
use walk_frames::{Frame, Texts};
use walk_words::World;
use wp_base::NoMemory;

// A state of which nothing is known, with these slots.
fn bare(alloc: Global, slots: Vec<Term>) -> State
    ensures { view_state result ≡ record { olds = []; used = none_used; world = record { known = []; slots = map term_tree slots.items }; left = λ k. [] } }
{
    State {
        olds: Vec::new(alloc),
        fresh: Fresh::new(alloc),
        world: World {
            known: Vec::new(alloc),
            slots,
        },
        left: Vec::new(alloc),
    }
}

// What is known where the function is entered, over the slots of this state.
fn entry_known<'a, T: Texts>(
    alloc: Global,
    frame: Frame<'a>,
    texts: &T,
    params: u32,
    state: &State,
) -> Result<Vec<Formula>, NoMemory>
    ensures { (m : sense.World) (k : ℕ → Kind) → states (view_state state.now) ≡ map term_tree state.now.world.slots.items ∷ [] → IfOk result (λ made. Behind (map term_tree state.now.world.slots.items ∷ []) [] (map formula_tree made.items) (entry_trees m (facts_in frame.entry) (shape_in frame.entry k) (T.text texts.now) params (view_contract frame.entry.contract.now))) }
{
    let slots = state.world.slots.as_slice();
    let mut known = Vec::new(alloc);
    put_file_ranges(alloc, frame.facts, slots, &mut known)?;
    put_param_ranges(alloc, frame, params, slots, &mut known)?;
    put_required(alloc, frame, texts, state, &mut known)?;
    Ok(known)
}

/// The state in which a function with so many parameters is entered: what its callers give holds any values of their kinds for which it may be called.
pub fn enter<'a, T: Texts>(
    alloc: Global,
    frame: Frame<'a>,
    texts: &T,
    params: u32,
) -> Result<State, NoMemory>
    ensures { (m : sense.World) (k : ℕ → Kind) → IfOk result (λ made. view_state made ≡ entered m (facts_in frame.entry) (shape_in frame.entry k) (T.text texts.now) params (view_contract frame.entry.contract.now) frame.entry.bases.now) }
{
    let origins = origins_of(alloc, frame, params)?;
    let slots = slots_of(alloc, frame.bases.as_slice(), origins.as_slice())?;
    let mut state = bare(alloc, slots);
    let known = entry_known(alloc, frame, texts, params, &state)?;
    let _none = mem::replace(&mut state.world.known, known);
    Ok(state)
}
