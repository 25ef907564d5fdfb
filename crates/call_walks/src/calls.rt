// A call: what is asked before it, and what is known behind it.
ghost use Rattle.std.specs.Prelude.{◌≡◌, ℕ, List, Option, length, map, IfOk};
ghost use Rattle.std.specs.Borrow.{Bor};
ghost use Rattle.std.specs.Option.{option_map};
ghost use Rattle.c_runs.specs.Program as program;
ghost use Rattle.call_walks.specs.Known as known;
ghost use Rattle.call_walks.specs.View.{arguments_over, functions_in};
ghost use Rattle.call_words.specs.Words as spec;
ghost use Rattle.checked_trees.specs.View.{view_checked_function, view_goal};
ghost use Rattle.checked_trees.specs.declared.files.CheckedFunction as memory;
ghost use Rattle.c_runs.specs.Tree as core;
ghost use Rattle.program_steps.specs.Temporaries.{Temporaries};
ghost use Rattle.program_trees.specs.View.{view_contract};
ghost use Rattle.qed_terms.specs.Meaning as sense;
ghost use Rattle.qed_terms.specs.View.{term_tree};
ghost use Rattle.c_runs.specs.Checks.{Check};
ghost use Rattle.step_walks.specs.View.{view_state};
ghost use Rattle.step_walks.specs.Walks.{Walks, states};
ghost use Rattle.typed_prog.specs.Tree as t;
ghost use Rattle.typed_prog.specs.Tree.{values_of};
ghost use Rattle.typed_prog.specs.View.{view_values};
ghost use Rattle.value_words.specs.Laws.{AreClosed};
ghost use Rattle.walk_frames.specs.View.{facts_in, shape_in, variables_in, view_point};
ghost use Rattle.walk_frames.specs.Words.{GoalClosed};
ghost use Rattle.wp_base.specs.declared.kinds.Kind.{Kind};

use crate::arguments::walk_arguments;
use crate::asked::{ask_inclusions, ask_lower, ask_required};
use crate::behind::{change_answer, change_file, know_promised, know_stays};
use crate::results::receive;
use checked_trees::{CheckedFunction, Goal};
use qed_terms::Term;
use std::alloc::Global;
use step_walks::{GoalSink, State, begin_block, copy_state, end_scope, forget, remember};
use typed_prog::Value;
use value_words::answer_slot;
use walk_frames::{Frame, Point, Texts, sizes_in};
use wp_base::{Line, NoMemory};

// The function with a number, if it is there.
fn callee_of<'a, 'b>(
    functions: &'b [Option<CheckedFunction<'a>>],
    number: u32,
) -> Option<&'b CheckedFunction<'a>>
    ensures { option_map (λ (c : Bor memory.CheckedFunction). view_checked_function c.now) result ≡ functions_in functions.now number }
{
    match functions.get(number as usize) {
        Some(found) => found.as_ref(),
        None => None,
    }
}

// What is so behind the call, in the scope of its result.
fn walk_known<'a, T: Texts, S: GoalSink>(
    alloc: Global,
    frame: Frame<'a>,
    texts: &T,
    point: Point<'a>,
    callee: &CheckedFunction<'a>,
    arguments: &[Term],
    to: &Goal<'a>,
    state: &mut State,
    sink: &mut S,
) -> Result<bool, NoMemory>
    ensures { (first : S) (m : sense.World) (k : ℕ → Kind) (os : List Temporaries) (functions : ℕ → Option (program.Function core.Steps)) (es : t.Values) → AreClosed (facts_in frame.entry) (shape_in frame.entry k) es → map term_tree arguments.now ≡ arguments_over (facts_in frame.entry) (variables_in frame.entry) (view_state state.old).olds es (length (view_checked_function callee.now).variables) → GoalClosed (facts_in frame.entry) (shape_in frame.entry k) (view_goal to.now) → IfOk result (λ goes. Walks frame.entry.bases.now (known.known_word m (facts_in frame.entry) (shape_in frame.entry k) (T.text texts.now) (view_contract frame.entry.contract.now) functions (view_point frame.entry os point.entry) (view_goal to.now) (view_checked_function callee.now) es) (view_state state.old) (view_state state.new) (S.fits first sink.old) (S.fits first sink.new) goes) }
{
    change_file(alloc, frame, callee.contract, state)?;
    know_stays(alloc, frame, texts, callee, arguments, state)?;
    change_answer(alloc, frame, callee.result, state)?;
    know_promised(alloc, frame, texts, callee, arguments, state)?;
    let goes = receive(alloc, frame, texts, point, to, callee.result, state, sink)?;
    Ok(goes)
}

// Behind what is asked.
fn walk_behind<'a, T: Texts, S: GoalSink>(
    alloc: Global,
    frame: Frame<'a>,
    texts: &T,
    point: Point<'a>,
    callee: &CheckedFunction<'a>,
    arguments: &[Term],
    to: &Goal<'a>,
    state: &mut State,
    sink: &mut S,
) -> Result<bool, NoMemory>
    ensures { (first : S) (m : sense.World) (k : ℕ → Kind) (os : List Temporaries) (functions : ℕ → Option (program.Function core.Steps)) (es : t.Values) → AreClosed (facts_in frame.entry) (shape_in frame.entry k) es → map term_tree arguments.now ≡ arguments_over (facts_in frame.entry) (variables_in frame.entry) (states (view_state state.old)) es (length (view_checked_function callee.now).variables) → GoalClosed (facts_in frame.entry) (shape_in frame.entry k) (view_goal to.now) → IfOk result (λ goes. Walks frame.entry.bases.now (spec.behind_call m (facts_in frame.entry) (shape_in frame.entry k) (T.text texts.now) (view_contract frame.entry.contract.now) functions (view_point frame.entry os point.entry) (view_goal to.now) (view_checked_function callee.now) es) (view_state state.old) (view_state state.new) (S.fits first sink.old) (S.fits first sink.new) goes) }
{
    let answer = answer_slot(sizes_in(frame))?;
    remember(alloc, state)?;
    let before = copy_state(alloc, state)?;
    let outer = begin_block(alloc, state);
    let goes = walk_known(
        alloc, frame, texts, point, callee, arguments, to, state, sink,
    )?;
    end_scope(alloc, &[answer], &before, outer, state)?;
    forget(state);
    Ok(goes)
}

// A call of a function that is there.
fn walk_found<'a, T: Texts, S: GoalSink>(
    alloc: Global,
    frame: Frame<'a>,
    texts: &T,
    point: Point<'a>,
    callee: &CheckedFunction<'a>,
    to: &Goal<'a>,
    function: u32,
    line: Line,
    values: &[Value],
    state: &mut State,
    sink: &mut S,
) -> Result<bool, NoMemory>
    ensures { (first : S) (m : sense.World) (k : ℕ → Kind) (os : List Temporaries) (functions : ℕ → Option (program.Function core.Steps)) → AreClosed (facts_in frame.entry) (shape_in frame.entry k) (values_of (view_values values.now)) → GoalClosed (facts_in frame.entry) (shape_in frame.entry k) (view_goal to.now) → IfOk result (λ goes. Walks frame.entry.bases.now (spec.call_of m (facts_in frame.entry) (shape_in frame.entry k) (T.text texts.now) (view_contract frame.entry.contract.now) functions (view_point frame.entry os point.entry) (view_goal to.now) function line (view_checked_function callee.now) (values_of (view_values values.now))) (view_state state.old) (view_state state.new) (S.fits first sink.old) (S.fits first sink.new) goes) }
{
    let count = callee.variables.len();
    let made = walk_arguments(alloc, frame, count, values, state, sink)?;
    let arguments = made.as_slice();
    ask_required(alloc, frame, texts, callee, arguments, line, state, sink)?;
    ask_lower(
        alloc, frame, texts, point, callee, function, arguments, line, state, sink,
    )?;
    ask_inclusions(
        alloc, frame, texts, point, callee, arguments, line, state, sink,
    )?;
    let goes = walk_behind(
        alloc, frame, texts, point, callee, arguments, to, state, sink,
    )?;
    Ok(goes)
}

/// A call of a function by its number. Answers whether there is a way on: a function that isn't there has none.
pub fn walk_call<'a, T: Texts, S: GoalSink>(
    alloc: Global,
    frame: Frame<'a>,
    texts: &T,
    functions: &[Option<CheckedFunction<'a>>],
    point: Point<'a>,
    to: &Goal<'a>,
    function: u32,
    line: Line,
    values: &[Value],
    state: &mut State,
    sink: &mut S,
) -> Result<bool, NoMemory>
    ensures { (first : S) (m : sense.World) (k : ℕ → Kind) (os : List Temporaries) (cs : List Check) → AreClosed (facts_in frame.entry) (shape_in frame.entry k) (values_of (view_values values.now)) → GoalClosed (facts_in frame.entry) (shape_in frame.entry k) (view_goal to.now) → IfOk result (λ goes. Walks frame.entry.bases.now (spec.call_word m (facts_in frame.entry) (shape_in frame.entry k) (T.text texts.now) (view_contract frame.entry.contract.now) (functions_in functions.now) (view_point frame.entry os point.entry) cs (view_goal to.now) function line (values_of (view_values values.now))) (view_state state.old) (view_state state.new) (S.fits first sink.old) (S.fits first sink.new) goes) }
{
    match callee_of(functions, function) {
        None => Ok(false),
        Some(callee) => {
            let goes = walk_found(
                alloc, frame, texts, point, callee, to, function, line, values, state, sink,
            )?;
            Ok(goes)
        }
    }
}
