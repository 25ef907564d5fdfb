// What is asked before a call, one check a formula.
ghost use Rattle.std.specs.Prelude.{◌≡◌, ℕ, suc, List, length, map, true, OnOk};
ghost use Rattle.c_runs.specs.Claims as broken;
ghost use Rattle.call_walks.specs.View.{arguments_over};
ghost use Rattle.call_words.specs.Sets.{inclusion_trees};
ghost use Rattle.call_words.specs.Words.{call_requires, lower_by};
ghost use Rattle.checked_trees.specs.View.{view_checked_function};
ghost use Rattle.program_steps.specs.Stops as stops;
ghost use Rattle.program_steps.specs.Temporaries.{Temporaries};
ghost use Rattle.program_steps.specs.Words as words;
ghost use Rattle.program_trees.specs.View.{view_contract};
ghost use Rattle.qed_terms.specs.Meaning as sense;
ghost use Rattle.qed_terms.specs.View.{term_tree};
ghost use Rattle.step_walks.specs.View.{view_state};
ghost use Rattle.step_walks.specs.Walks.{Walks, states};
ghost use Rattle.typed_prog.specs.Tree as t;
ghost use Rattle.value_words.specs.Laws.{AreClosed};
ghost use Rattle.walk_frames.specs.View.{facts_in, shape_in, variables_in, view_point};
ghost use Rattle.wp_base.specs.declared.kinds.Kind.{Kind};

use crate::claims::required;
use crate::measures::{are_in_cluster, lower};
use crate::readings::entered;
use crate::sets::inclusions;
use checked_trees::CheckedFunction;
use qed_terms::Term;
use std::alloc::Global;
use step_walks::{GoalSink, State};
use walk_frames::{Broken, Frame, Point, Texts, ask_all, broken_place, next_level, slots_at};
use wp_base::{Line, NoMemory};

/// What the function requires.
pub(crate) fn ask_required<'a, T: Texts, S: GoalSink>(
    alloc: Global,
    frame: Frame<'a>,
    texts: &T,
    callee: &CheckedFunction<'a>,
    arguments: &[Term],
    line: Line,
    state: &mut State,
    sink: &mut S,
) -> Result<(), NoMemory>
    ensures { (first : S) (m : sense.World) (k : ℕ → Kind) (es : t.Values) → AreClosed (facts_in frame.entry) (shape_in frame.entry k) es → map term_tree arguments.now ≡ arguments_over (facts_in frame.entry) (variables_in frame.entry) (states (view_state state.old)) es (length (view_checked_function callee.now).variables) → OnOk result (Walks frame.entry.bases.now (words.ask_all m (call_requires (facts_in frame.entry) (shape_in frame.entry k) (T.text texts.now) (view_checked_function callee.now) es) (stops.broken_place broken.requires line)) (view_state state.old) (view_state state.new) (S.fits first sink.old) (S.fits first sink.new) true) }
{
    let labels = entered(callee.variables, slots_at(state, 0), arguments);
    let formulas = required(alloc, frame.facts, texts, labels, callee.contract)?;
    ask_all(broken_place(Broken::Requires, line), formulas, state, sink)?;
    Ok(())
}

/// That the measure goes down, where the two functions call each other.
pub(crate) fn ask_lower<'a, T: Texts, S: GoalSink>(
    alloc: Global,
    frame: Frame<'a>,
    texts: &T,
    point: Point<'a>,
    callee: &CheckedFunction<'a>,
    function: u32,
    arguments: &[Term],
    line: Line,
    state: &mut State,
    sink: &mut S,
) -> Result<(), NoMemory>
    ensures { (first : S) (m : sense.World) (k : ℕ → Kind) (es : t.Values) → AreClosed (facts_in frame.entry) (shape_in frame.entry k) es → map term_tree arguments.now ≡ arguments_over (facts_in frame.entry) (variables_in frame.entry) (states (view_state state.old)) es (length (view_checked_function callee.now).variables) → OnOk result (Walks frame.entry.bases.now (words.ask_all m (lower_by (facts_in frame.entry) (shape_in frame.entry k) (T.text texts.now) (view_checked_function callee.now) es (suc point.entry.entry) ((facts_in frame.entry).in_cluster frame.entry.number function) (view_contract frame.entry.contract.now).decreases (view_checked_function callee.now).contract.decreases) (stops.broken_place broken.decreases line)) (view_state state.old) (view_state state.new) (S.fits first sink.old) (S.fits first sink.new) true) }
{
    let level = next_level(point.entry)?;
    let labels = entered(callee.variables, slots_at(state, 0), arguments);
    let in_cluster = are_in_cluster(&frame.facts.clusters, frame.number, function);
    let measure = &callee.contract.decreases;
    let formulas = lower(
        alloc, frame, texts, level, labels, in_cluster, measure, state,
    )?;
    ask_all(broken_place(Broken::Decreases, line), formulas, state, sink)?;
    Ok(())
}

/// That the function's sets lie in the set in force.
pub(crate) fn ask_inclusions<'a, T: Texts, S: GoalSink>(
    alloc: Global,
    frame: Frame<'a>,
    texts: &T,
    point: Point<'a>,
    callee: &CheckedFunction<'a>,
    arguments: &[Term],
    line: Line,
    state: &mut State,
    sink: &mut S,
) -> Result<(), NoMemory>
    ensures { (first : S) (m : sense.World) (k : ℕ → Kind) (os : List Temporaries) (es : t.Values) → AreClosed (facts_in frame.entry) (shape_in frame.entry k) es → map term_tree arguments.now ≡ arguments_over (facts_in frame.entry) (variables_in frame.entry) (states (view_state state.old)) es (length (view_checked_function callee.now).variables) → OnOk result (Walks frame.entry.bases.now (words.ask_all m (inclusion_trees (facts_in frame.entry) (shape_in frame.entry k) (T.text texts.now) (view_checked_function callee.now) es (view_contract frame.entry.contract.now) (view_point frame.entry os point.entry)) (stops.broken_place broken.assigns line)) (view_state state.old) (view_state state.new) (S.fits first sink.old) (S.fits first sink.new) true) }
{
    let level = next_level(point.entry)?;
    let labels = entered(callee.variables, slots_at(state, 0), arguments);
    let contract = callee.contract;
    let formulas = inclusions(
        alloc,
        frame,
        texts,
        level,
        point.force,
        labels,
        contract,
        state,
    )?;
    ask_all(broken_place(Broken::Assigns, line), formulas, state, sink)?;
    Ok(())
}
