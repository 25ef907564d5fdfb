// Statements that have no others in them.
ghost use Rattle.std.specs.Prelude.{◌≡◌, ◌∷◌, [], ◌+◌, ℕ, List, true, IfOk, OnOk};
ghost use Rattle.std.specs.Option.{option_map};
ghost use Rattle.plain_states.specs.Slots as slots;
ghost use Rattle.program_steps.specs.Temporaries.{Temporaries};
ghost use Rattle.program_steps.specs.Words as words;
ghost use Rattle.walk_frames.specs.View.{facts_in, shape_in, variables_in};
ghost use Rattle.walk_frames.specs.Words.{GivenClosed, Still, give_word, return_word, set_word, start_word};
ghost use Rattle.qed_terms.specs.Meaning as sense;
ghost use Rattle.qed_terms.specs.View.{formula_tree};
ghost use Rattle.step_walks.specs.View.{view_state};
ghost use Rattle.step_walks.specs.Walks.{Walks, now_knows};
ghost use Rattle.typed_prog.specs.View.{view_value};
ghost use Rattle.value_words.specs.Laws.{IsClosed};
ghost use Rattle.value_terms.specs.Readings.{condition};
ghost use Rattle.value_words.specs.View.{view_term};
ghost use Rattle.walk_live.specs.Bits.{bits};
ghost use Rattle.walk_steps.specs.Step as step;
ghost use Rattle.walk_steps.specs.Walk as spec;
ghost use Rattle.wp_base.specs.declared.kinds.Kind.{Kind};

use qed_terms::Formula;
use std::alloc::Global;
use step_walks::{GoalSink, State, know, leave, set};
use typed_prog::Value;
use value_words::{ValueTerm, result_slot, temp_slot};
use walk_frames::{Frame, drop_all, drop_unused, set_to, sizes_in, walk_value};
use wp_base::NoMemory;

/// The number of a variable of the function, among those of the file and its own.
pub(crate) fn own_number<'a>(frame: Frame<'a>, variable: u32) -> Result<usize, NoMemory>
    ensures { IfOk result (λ number. number ≡ (slots.sizes_of (facts_in frame.entry) (variables_in frame.entry)).globals + variable) }
{
    let sizes = sizes_in(frame);
    sizes.globals.checked_add(variable as usize).ok_or(NoMemory)
}

/// A temporary gets a value.
pub(crate) fn walk_set<'a, S: GoalSink>(
    alloc: Global,
    frame: Frame<'a>,
    temporary: u32,
    value: &Value,
    state: &mut State,
    sink: &mut S,
) -> Result<bool, NoMemory>
    ensures { (first : S) (m : sense.World) (k : ℕ → Kind) → IsClosed (facts_in frame.entry) (shape_in frame.entry k) (view_value value.now) → IfOk result (λ goes. Walks frame.entry.bases.now (set_word m (facts_in frame.entry) (variables_in frame.entry) temporary (view_value value.now)) (view_state state.old) (view_state state.new) (S.fits first sink.old) (S.fits first sink.new) goes) }
{
    let made = walk_value(alloc, frame, value, state, sink)?;
    let sizes = sizes_in(frame);
    let slot = temp_slot(sizes, temporary)?;
    let term = made.number(alloc)?;
    set(alloc, slot, term, state)?;
    Ok(true)
}

/// A variable gets the value that it is declared with.
pub(crate) fn walk_start<'a, S: GoalSink>(
    alloc: Global,
    frame: Frame<'a>,
    variable: u32,
    value: &Value,
    state: &mut State,
    sink: &mut S,
) -> Result<bool, NoMemory>
    ensures { (first : S) (m : sense.World) (k : ℕ → Kind) → IsClosed (facts_in frame.entry) (shape_in frame.entry k) (view_value value.now) → IfOk result (λ goes. Walks frame.entry.bases.now (start_word m (facts_in frame.entry) (variables_in frame.entry) variable (view_value value.now)) (view_state state.old) (view_state state.new) (S.fits first sink.old) (S.fits first sink.new) goes) }
{
    let made = walk_value(alloc, frame, value, state, sink)?;
    let number = own_number(frame, variable)?;
    let term = made.number(alloc)?;
    set_to(alloc, number, term, state)?;
    Ok(true)
}

// The function returns a value, out of so many blocks.
fn walk_give<'a, S: GoalSink>(
    alloc: Global,
    frame: Frame<'a>,
    blocks: usize,
    value: &Value,
    state: &mut State,
    sink: &mut S,
) -> Result<bool, NoMemory>
    ensures { (first : S) (m : sense.World) (k : ℕ → Kind) → IsClosed (facts_in frame.entry) (shape_in frame.entry k) (view_value value.now) → IfOk result (λ goes. Walks frame.entry.bases.now (give_word m (facts_in frame.entry) (variables_in frame.entry) frame.entry.temporaries blocks (view_value value.now)) (view_state state.old) (view_state state.new) (S.fits first sink.old) (S.fits first sink.new) goes) }
{
    let made = walk_value(alloc, frame, value, state, sink)?;
    let sizes = sizes_in(frame);
    let slot = result_slot(sizes)?;
    let term = made.number(alloc)?;
    set(alloc, slot, term, state)?;
    drop_all(alloc, sizes, frame.temporaries, state)?;
    leave(alloc, blocks, state)?;
    Ok(false)
}

/// The function returns.
pub(crate) fn walk_return<'a, S: GoalSink>(
    alloc: Global,
    frame: Frame<'a>,
    blocks: usize,
    value: &Option<Value>,
    state: &mut State,
    sink: &mut S,
) -> Result<bool, NoMemory>
    ensures { (first : S) (m : sense.World) (k : ℕ → Kind) → GivenClosed (facts_in frame.entry) (shape_in frame.entry k) (option_map view_value value.now) → IfOk result (λ goes. Walks frame.entry.bases.now (return_word m (facts_in frame.entry) (variables_in frame.entry) frame.entry.temporaries blocks (option_map view_value value.now)) (view_state state.old) (view_state state.new) (S.fits first sink.old) (S.fits first sink.new) goes) }
{
    match value {
        None => {
            leave(alloc, blocks, state)?;
            Ok(false)
        }
        Some(value) => {
            let goes = walk_give(alloc, frame, blocks, value, state, sink)?;
            Ok(goes)
        }
    }
}

/// Leaves a block.
pub(crate) fn walk_exit(alloc: Global, block: u32, state: &mut State) -> Result<bool, NoMemory>
    ensures { (bases : List (List ℕ)) (gs : List spec.Goal) → IfOk result (λ goes. Walks bases (step.exit block) (view_state state.old) (view_state state.new) (Still gs) (Still gs) goes) }
{
    leave(alloc, block as usize, state)?;
    Ok(false)
}

// The condition of a branch, or that it isn't so.
#[tactic(auto, using(crate::proofs::Single::arm_so, crate::proofs::Single::arm_not))]
fn arm_formula(alloc: Global, made: &ValueTerm, is_so: bool) -> Result<Formula, NoMemory>
    ensures { IfOk result (λ formula. formula_tree formula ≡ words.is_so (condition (view_term made.now)) is_so) }
{
    let test = made.condition(alloc)?;
    if is_so {
        return Ok(test);
    }
    let negation = Formula::negation(alloc, test)?;
    Ok(negation)
}

/// In an arm it is known that the condition is so, or that it isn't; then temporaries that aren't used in it are 0.
pub(crate) fn enter_arm<'a>(
    alloc: Global,
    frame: Frame<'a>,
    made: &ValueTerm,
    is_so: bool,
    unused: &[bool],
    state: &mut State,
) -> Result<(), NoMemory>
    ensures { (m : sense.World) (c : ℕ) (f : Temporaries) (gs : List spec.Goal) → unused.now ≡ bits c f → OnOk result (Walks frame.entry.bases.now (words.drop m (slots.sizes_of (facts_in frame.entry) (variables_in frame.entry)) c f) (now_knows (view_state state.old) (words.is_so (condition (view_term made.now)) is_so ∷ [])) (view_state state.new) (Still gs) (Still gs) true) }
{
    let formula = arm_formula(alloc, made, is_so)?;
    know(state, formula)?;
    let sizes = sizes_in(frame);
    drop_unused(alloc, sizes, unused, state)?;
    Ok(())
}
