// Slots of variables.
ghost use Rattle.std.specs.Prelude.{◌≡◌, ℕ, List, true, OnOk};
ghost use Rattle.plain_states.specs.Slots as slots;
ghost use Rattle.program_steps.specs.Leaves.{closed, fill};
ghost use Rattle.program_steps.specs.Words as words;
ghost use Rattle.qed_terms.specs.Meaning as sense;
ghost use Rattle.qed_terms.specs.Tree.{Tree};
ghost use Rattle.qed_terms.specs.View.{term_tree};
ghost use Rattle.step_walks.specs.View.{view_state};
ghost use Rattle.step_walks.specs.Walks.{Walks, states};
ghost use Rattle.value_words.specs.View.{view_sizes};
ghost use Rattle.walk_frames.specs.View.{facts_in, variables_in};
ghost use Rattle.walk_frames.specs.Words.{Still};
ghost use Rattle.walk_steps.specs.Walk as spec;

use crate::frames::Frame;
use qed_terms::Term;
use std::alloc::Global;
use step_walks::{State, set};
use value_words::{Sizes, flag_slot, sizes_of, value_slot};
use wp_base::NoMemory;

/// A variable gets a value: it is set from then on.
#[tactic(auto, using(crate::proofs::Moving::variable_set))]
pub fn set_to(
    alloc: Global,
    variable: usize,
    value: Term,
    state: &mut State,
) -> Result<(), NoMemory>
    ensures { (m : sense.World) (bases : List (List ℕ)) (t : Tree) (gs : List spec.Goal) → fill (states (view_state state.old)) (closed t) ≡ term_tree value → OnOk result (Walks bases (words.set_variable m variable t) (view_state state.old) (view_state state.new) (Still gs) (Still gs) true) }
{
    set(alloc, value_slot(variable)?, value, state)?;
    set(alloc, flag_slot(variable)?, Term::number(1), state)?;
    Ok(())
}

// How many variables the file and the function have.
pub fn sizes_in<'a>(frame: Frame<'a>) -> Sizes
    ensures { view_sizes result ≡ slots.sizes_of (facts_in frame.entry) (variables_in frame.entry) }
{
    sizes_of(frame.facts, frame.variables.as_slice())
}
