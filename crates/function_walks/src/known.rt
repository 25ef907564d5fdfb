// What a function requires, known where it is entered (ACSL 2.3.1, 2.3.3).
ghost use Rattle.std.specs.Prelude.{◌≡◌, ◌∷◌, ◌++◌, [], ℕ, true, List, map, OnOk};
ghost use Rattle.core_trees.specs.View.{view_claim};
ghost use Rattle.function_walks.specs.Entry.{Behind};
ghost use Rattle.program_steps.specs.Starting as spec;
ghost use Rattle.program_trees.specs.View.{view_behavior, view_contract};
ghost use Rattle.qed_terms.specs.Meaning as sense;
ghost use Rattle.qed_terms.specs.View.{formula_tree};
ghost use Rattle.step_walks.specs.View.{view_state};
ghost use Rattle.step_walks.specs.Walks.{states};
ghost use Rattle.walk_frames.specs.View.{facts_in, shape_in};
ghost use Rattle.wp_base.specs.declared.kinds.Kind.{Kind};

use program_trees::Behavior;
use qed_terms::Formula;
use std::alloc::Global;
use step_walks::State;
use walk_frames::{Frame, Texts, claim_at, claim_under};
use wp_base::NoMemory;

// What a clause requires, where the behavior's assumptions hold.
fn put_behavior<'a, T: Texts>(
    alloc: Global,
    frame: Frame<'a>,
    texts: &T,
    is_plain: bool,
    behavior: &Behavior,
    state: &State,
    known: &mut Vec<Formula>,
) -> Result<(), NoMemory>
    ensures { (m : sense.World) (k : ℕ → Kind) → OnOk result (Behind (states (view_state state.now)) (map formula_tree known.old.items) (map formula_tree known.new.items) (spec.required_trees m (facts_in frame.entry) (shape_in frame.entry k) (T.text texts.now) is_plain (view_behavior behavior.now))) }
{
    for claim in behavior.requires_.as_slice() {
        let required = claim_at(alloc, frame, texts, 0, 0, 0, &claim.what, state)?;
        let under = claim_under(alloc, frame, texts, 0, is_plain, behavior, required, state)?;
        known.push(under)?;
    }
    Ok(())
}

// What all behaviors require.
fn put_behaviors<'a, T: Texts>(
    alloc: Global,
    frame: Frame<'a>,
    texts: &T,
    state: &State,
    known: &mut Vec<Formula>,
) -> Result<(), NoMemory>
    ensures { (m : sense.World) (k : ℕ → Kind) → OnOk result (Behind (states (view_state state.now)) (map formula_tree known.old.items) (map formula_tree known.new.items) (spec.all_required m (facts_in frame.entry) (shape_in frame.entry k) (T.text texts.now) (view_contract frame.entry.contract.now).behaviors)) }
{
    for behavior in frame.contract.behaviors.as_slice() {
        put_behavior(alloc, frame, texts, false, behavior, state, known)?;
    }
    Ok(())
}

/// What the function requires.
pub(crate) fn put_required<'a, T: Texts>(
    alloc: Global,
    frame: Frame<'a>,
    texts: &T,
    state: &State,
    known: &mut Vec<Formula>,
) -> Result<(), NoMemory>
    ensures { (m : sense.World) (k : ℕ → Kind) → OnOk result (Behind (states (view_state state.now)) (map formula_tree known.old.items) (map formula_tree known.new.items) (spec.required_trees m (facts_in frame.entry) (shape_in frame.entry k) (T.text texts.now) true (view_contract frame.entry.contract.now).plain ++ spec.all_required m (facts_in frame.entry) (shape_in frame.entry k) (T.text texts.now) (view_contract frame.entry.contract.now).behaviors)) }
{
    put_behavior(
        alloc,
        frame,
        texts,
        true,
        &frame.contract.plain,
        state,
        known,
    )?;
    put_behaviors(alloc, frame, texts, state, known)?;
    Ok(())
}
