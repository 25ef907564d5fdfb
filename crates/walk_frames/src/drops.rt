// Temporaries that are no more used.
ghost use Rattle.std.specs.Prelude.{◌≡◌, ◌∷◌, [], pos, if◌then◌else◌, ℕ, List, true, IfOk, OnOk};
ghost use Rattle.plain_states.specs.Slots as slots;
ghost use Rattle.program_steps.specs.Leaves.{number};
ghost use Rattle.program_steps.specs.Temporaries.{Temporaries};
ghost use Rattle.program_steps.specs.Words as words;
ghost use Rattle.walk_frames.specs.Words.{Still};
ghost use Rattle.qed_terms.specs.Meaning as sense;
ghost use Rattle.qed_terms.specs.Tree.{num};
ghost use Rattle.step_walks.specs.View.{view_state};
ghost use Rattle.step_walks.specs.Walks.{Walks};
ghost use Rattle.value_words.specs.View.{view_sizes};
ghost use Rattle.walk_live.specs.Bits.{bits};
ghost use Rattle.walk_steps.specs.Step as step;
ghost use Rattle.walk_steps.specs.Walk as spec;

use qed_terms::Term;
use std::alloc::Global;
use step_walks::{State, set};
use value_words::{Sizes, answer_slot};
use wp_base::NoMemory;

// The slot of a temporary.
fn slot_of(sizes: Sizes, temporary: usize) -> Result<usize, NoMemory>
    ensures { IfOk result (λ slot. slot ≡ slots.temp_slot (view_sizes sizes) temporary) }
{
    let first = answer_slot(sizes)?.checked_add(1).ok_or(NoMemory)?;
    first.checked_add(temporary).ok_or(NoMemory)
}

// A temporary, if it is no more used.
#[tactic(auto, using(crate::proofs::Moving::none_set))]
fn drop_one(
    alloc: Global,
    sizes: Sizes,
    temporary: usize,
    is_unused: bool,
    state: &mut State,
) -> Result<(), NoMemory>
    ensures { (m : sense.World) (bases : List (List ℕ)) (gs : List spec.Goal) → OnOk result (Walks bases (if is_unused then step.set (slots.temp_slot (view_sizes sizes) temporary) (number m (num (pos 0))) else step.skip) (view_state state.old) (view_state state.new) (Still gs) (Still gs) true) }
{
    if is_unused {
        let slot = slot_of(sizes, temporary)?;
        set(alloc, slot, Term::number(0), state)?;
    }
    Ok(())
}

/// All temporaries are 0.
#[tactic(auto, using(crate::proofs::Moving::none_dropped))]
pub fn drop_all(
    alloc: Global,
    sizes: Sizes,
    count: usize,
    state: &mut State,
) -> Result<(), NoMemory>
    ensures { (m : sense.World) (bases : List (List ℕ)) (gs : List spec.Goal) → OnOk result (Walks bases (words.drop m (view_sizes sizes) count (λ (n : ℕ). true)) (view_state state.old) (view_state state.new) (Still gs) (Still gs) true) }
{
    for temporary in 0..count {
        drop_one(alloc, sizes, temporary, true, state)?;
    }
    Ok(())
}

/// Temporaries that are no more used are 0.
#[tactic(auto, using(crate::proofs::Moving::none_dropped))]
pub fn drop_unused(
    alloc: Global,
    sizes: Sizes,
    unused: &[bool],
    state: &mut State,
) -> Result<(), NoMemory>
    ensures { (m : sense.World) (bases : List (List ℕ)) (c : ℕ) (f : Temporaries) (gs : List spec.Goal) → unused.now ≡ bits c f → OnOk result (Walks bases (words.drop m (view_sizes sizes) c f) (view_state state.old) (view_state state.new) (Still gs) (Still gs) true) }
{
    for temporary in 0..unused.len() {
        drop_one(alloc, sizes, temporary, unused[temporary], state)?;
    }
    Ok(())
}
