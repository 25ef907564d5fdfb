// What is known behind a call: what the file's variables may hold, what stays, the result, and the promises.
ghost use Rattle.std.specs.Prelude.{◌≡◌, ℕ, List, Option, Some, length, map, true, OnOk};
ghost use Rattle.c_runs.specs.Program as program;
ghost use Rattle.call_walks.specs.View.{arguments_over};
ghost use Rattle.call_words.specs.Sets as sets;
ghost use Rattle.call_words.specs.Words as spec;
ghost use Rattle.checked_trees.specs.View.{view_checked_function};
ghost use Rattle.c_runs.specs.Tree as core;
ghost use Rattle.program_steps.specs.Leaves.{form};
ghost use Rattle.program_steps.specs.Terms as terms;
ghost use Rattle.program_trees.specs.View.{view_contract};
ghost use Rattle.qed_terms.specs.Meaning as sense;
ghost use Rattle.qed_terms.specs.View.{term_tree};
ghost use Rattle.step_walks.specs.View.{view_state};
ghost use Rattle.step_walks.specs.Walks.{Walks};
ghost use Rattle.typed_prog.specs.Tree as t;
ghost use Rattle.value_words.specs.Laws.{AreClosed};
ghost use Rattle.walk_frames.specs.View.{facts_in, shape_in, variables_in};
ghost use Rattle.walk_frames.specs.Words.{Still};
ghost use Rattle.walk_steps.specs.Step as step;
ghost use Rattle.walk_steps.specs.Walk as walk;
ghost use Rattle.walk_words.specs.View.{view_change};
ghost use Rattle.wp_base.specs.declared.kinds.Kind.{Kind};

use crate::changes::{any_of_kind, change_at, file_changes};
use crate::claims::promised;
use crate::readings::{entered, returned};
use crate::stays::stays;
use annotation_words::kind_given;
use checked_trees::CheckedFunction;
use program_trees::Contract;
use qed_terms::Term;
use std::alloc::Global;
use step_walks::{State, change};
use value_words::answer_slot;
use walk_frames::{Frame, Texts, know_all, sizes_in, slots_at};
use walk_words::Change;
use wp_base::{CellKind, NoMemory};

// Slots change so.
fn apply<'a>(
    alloc: Global,
    frame: Frame<'a>,
    changes: Vec<Change>,
    state: &mut State,
) -> Result<(), NoMemory>
    ensures { (cs : List step.Change) (gs : List walk.Goal) → map view_change changes.items ≡ cs → OnOk result (Walks frame.entry.bases.now (step.change cs) (view_state state.old) (view_state state.new) (Still gs) (Still gs) true) }
{
    let bases = frame.bases.as_slice();
    let changes = changes.as_slice();
    change(alloc, bases, changes, state)?;
    Ok(())
}

/// Variables of the file hold any values.
pub(crate) fn change_file<'a>(
    alloc: Global,
    frame: Frame<'a>,
    contract: &Contract,
    state: &mut State,
) -> Result<(), NoMemory>
    ensures { (gs : List walk.Goal) → OnOk result (Walks frame.entry.bases.now (step.change (sets.file_changes (facts_in frame.entry) (view_contract contract.now) 0 (facts_in frame.entry).globals)) (view_state state.old) (view_state state.new) (Still gs) (Still gs) true) }
{
    let changes = file_changes(alloc, frame.facts, contract)?;
    apply(alloc, frame, changes, state)?;
    Ok(())
}

/// What a behavior doesn't name stays, where it is assumed.
pub(crate) fn know_stays<'a, T: Texts>(
    alloc: Global,
    frame: Frame<'a>,
    texts: &T,
    callee: &CheckedFunction<'a>,
    arguments: &[Term],
    state: &mut State,
) -> Result<(), NoMemory>
    ensures { (m : sense.World) (k : ℕ → Kind) (es : t.Values) (gs : List walk.Goal) → AreClosed (facts_in frame.entry) (shape_in frame.entry k) es → map term_tree arguments.now ≡ arguments_over (facts_in frame.entry) (variables_in frame.entry) (view_state state.old).olds es (length (view_checked_function callee.now).variables) → OnOk result (Walks frame.entry.bases.now (step.know (map (form m) (spec.stay_trees (facts_in frame.entry) (shape_in frame.entry k) (T.text texts.now) (view_checked_function callee.now) es))) (view_state state.old) (view_state state.new) (Still gs) (Still gs) true) }
{
    let now = slots_at(state, 0);
    let before = slots_at(state, 1);
    let labels = entered(callee.variables, before, arguments);
    let formulas = stays(
        alloc,
        frame.facts,
        texts,
        labels,
        callee.contract,
        now,
        before,
    )?;
    know_all(formulas, state)?;
    Ok(())
}

// A result of this kind is any value.
fn change_result<'a>(
    alloc: Global,
    frame: Frame<'a>,
    kind: CellKind,
    state: &mut State,
) -> Result<(), NoMemory>
    ensures { (m : sense.World) (k : ℕ → Kind) (texts : terms.Texts) (c : program.Contract) (functions : ℕ → Option (program.Function core.Steps)) (gs : List walk.Goal) → OnOk result (Walks frame.entry.bases.now (spec.answer_step m (facts_in frame.entry) (shape_in frame.entry k) texts c functions (Some kind)) (view_state state.old) (view_state state.new) (Still gs) (Still gs) true) }
{
    match kind {
        CellKind::Of(kind) => {
            let slot = answer_slot(sizes_in(frame))?;
            let any = any_of_kind(frame.facts.model, kind);
            let changes = change_at(alloc, slot, any)?;
            apply(alloc, frame, changes, state)?;
            Ok(())
        }
        CellKind::Ptr => Ok(()),
    }
}

/// The result is any value of its kind.
pub(crate) fn change_answer<'a>(
    alloc: Global,
    frame: Frame<'a>,
    result_kind: Option<CellKind>,
    state: &mut State,
) -> Result<(), NoMemory>
    ensures { (m : sense.World) (k : ℕ → Kind) (texts : terms.Texts) (c : program.Contract) (functions : ℕ → Option (program.Function core.Steps)) (gs : List walk.Goal) → OnOk result (Walks frame.entry.bases.now (spec.answer_step m (facts_in frame.entry) (shape_in frame.entry k) texts c functions result_kind) (view_state state.old) (view_state state.new) (Still gs) (Still gs) true) }
{
    match result_kind {
        Some(kind) => {
            change_result(alloc, frame, kind, state)?;
            Ok(())
        }
        None => Ok(()),
    }
}

/// What the function promises.
pub(crate) fn know_promised<'a, T: Texts>(
    alloc: Global,
    frame: Frame<'a>,
    texts: &T,
    callee: &CheckedFunction<'a>,
    arguments: &[Term],
    state: &mut State,
) -> Result<(), NoMemory>
    ensures { (m : sense.World) (k : ℕ → Kind) (es : t.Values) (gs : List walk.Goal) → AreClosed (facts_in frame.entry) (shape_in frame.entry k) es → map term_tree arguments.now ≡ arguments_over (facts_in frame.entry) (variables_in frame.entry) (view_state state.old).olds es (length (view_checked_function callee.now).variables) → OnOk result (Walks frame.entry.bases.now (step.know (map (form m) (spec.call_promises (facts_in frame.entry) (shape_in frame.entry k) (T.text texts.now) (view_checked_function callee.now) es))) (view_state state.old) (view_state state.new) (Still gs) (Still gs) true) }
{
    let answer = answer_slot(sizes_in(frame))?;
    let now = slots_at(state, 0);
    let before = slots_at(state, 1);
    let entry = entered(callee.variables, before, arguments);
    let back = returned(
        callee.variables,
        kind_given(callee.result),
        answer,
        now,
        before,
        arguments,
    );
    let formulas = promised(alloc, frame.facts, texts, entry, back, callee.contract)?;
    know_all(formulas, state)?;
    Ok(())
}
