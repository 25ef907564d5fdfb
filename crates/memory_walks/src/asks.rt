// Checks that are asked.
ghost use Rattle.std.specs.Prelude.{◌≡◌, ◌∷◌, [], ℕ, List, true, OnOk};
ghost use Rattle.qed_terms.specs.View.{formula_tree};
ghost use Rattle.memory_walks.specs.View.{view_place, view_state};
ghost use Rattle.memory_walks.specs.Walks.{Walks, states};
ghost use Rattle.memory_steps.specs.Forms as spec;
ghost use Rattle.memory_steps.specs.State.{Base};
ghost use Rattle.memory_steps.specs.Step as step;

use crate::sinks::{GoalSink, Place};
use crate::states::State;
use qed_terms::Formula;
use wp_base::NoMemory;

/// A check: it is asked, and known from then on.
pub fn ask<S: GoalSink>(
    place: Place,
    claim: Formula,
    state: &mut State,
    sink: &mut S,
) -> Result<(), NoMemory>
    ensures { (first : S) (bases : List Base) (c : spec.Check) → c.place ≡ view_place place → c.form.written (states (view_state state.old)) ≡ formula_tree claim → OnOk result (Walks bases (step.ask (c ∷ [])) (view_state state.old) (view_state state.new) (S.fits first sink.old) (S.fits first sink.new) true) }
{
    sink.take(place, state.world.known.as_slice(), &claim)?;
    state.world.known.push(claim)?;
    Ok(())
}
