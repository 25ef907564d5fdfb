// The walk over statements. What the recursion goes down stands first; what a statement does before others inside of it, and behind them, stands in other
// files.
ghost use Rattle.std.specs.Prelude.{◌≡◌, ◌∷◌, [], ℕ, List, IfOk};
ghost use Rattle.checked_trees.specs.View.{view_step, view_steps};
ghost use Rattle.c_runs.specs.Tree as core;
ghost use Rattle.core_trees.specs.View.{view_loop};
ghost use Rattle.program_steps.specs.Temporaries.{Temporaries};
ghost use Rattle.program_steps.specs.Words as words;
ghost use Rattle.call_walks.specs.View.{functions_in};
ghost use Rattle.program_walk.specs.Branches.{FirstWalked};
ghost use Rattle.program_walk.specs.View.{Over, arm_word, step_word, steps_word};
ghost use Rattle.step_walks.specs.View.{view_state};
ghost use Rattle.step_walks.specs.Walks.{Held, Walks, now_knows, states};
ghost use Rattle.value_terms.specs.Readings.{condition};
ghost use Rattle.value_words.specs.View.{view_term};
ghost use Rattle.walk_frames.specs.View.{facts_in, shape_in, view_point};
ghost use Rattle.walk_frames.specs.Words.{StepClosed, StepsClosed};
ghost use Rattle.walk_live.specs.Bits.{all_bits, bits};
ghost use Rattle.walk_steps.specs.Forms.{Form};
ghost use Rattle.walk_steps.specs.Step as step;

use crate::branches::{FirstArm, Tested, walk_test};
use crate::scopes::{close_scope, open_all};
use crate::statements::{enter_arm, walk_exit, walk_return, walk_set, walk_start};
use crate::stores::walk_store;
use call_walks::walk_call;
use checked_trees::{CheckedFunction, Step};
use core_trees::Loop;
use loop_walks::{enter_loop, inner_point, leave_loop};
use std::alloc::Global;
use step_walks::{
    GoalSink, State, begin_arms, begin_block, copy_state, end_block, meet, turn_back,
};
use value_words::{ValueTerm, known_test};
use walk_frames::{Frame, Point, Texts, drop_unused, sizes_in, walk_claim};
use walk_live::{Behind, around, behind_all, next_behind, no_temporaries};
use wp_base::{List, NoMemory};

// A statement, behind whose end, and behind the ends of the blocks around, these temporaries are used. Answers whether its end is reached.
#[cycle(walking)]
fn walk_step<'a, T: Texts, S: GoalSink>(
    step: &Step<'a>,
    alloc: Global,
    frame: Frame<'a>,
    functions: &[Option<CheckedFunction<'a>>],
    texts: &T,
    point: Point<'a>,
    outs: &[List<bool>],
    after: &[bool],
    state: &mut State,
    sink: &mut S,
) -> Result<bool, NoMemory>
    ensures { (first : S) (g : Over) (os : List Temporaries) (f : Temporaries) → outs.now ≡ all_bits frame.entry.temporaries os → after.now ≡ bits frame.entry.temporaries f → StepClosed (facts_in frame.entry) (shape_in frame.entry g.kinds) (view_step step.now) → IfOk result (λ goes. Walks frame.entry.bases.now (step_word g frame.entry (functions_in functions.now) (T.text texts.now) (view_point frame.entry os point.entry) (view_step step.now) f) (view_state state.old) (view_state state.new) (S.fits first sink.old) (S.fits first sink.new) goes) }
{
    match step {
        Step::Set(_, temporary, value) => walk_set(alloc, frame, *temporary, value, state, sink),
        Step::Store(_, ty, line, path, values) => {
            walk_store(
                alloc, frame, texts, point, ty, *line, path, values, state, sink,
            )
        }
        Step::Start(_, variable, value) => walk_start(alloc, frame, *variable, value, state, sink),
        Step::Call(_, to, function, line, values) => {
            walk_call(
                alloc,
                frame,
                texts,
                functions,
                point,
                to,
                *function,
                *line,
                values.as_slice(),
                state,
                sink,
            )
        }
        Step::Branch(_, test, first, second) => {
            let first = first.as_slice();
            let second = second.as_slice();
            let tested = walk_test(alloc, frame, test, first, second, outs, after, state, sink)?;
            match known_test(test) {
                Some(true) => walk_arm(
                    first,
                    &tested.made,
                    true,
                    tested.sets.first.as_slice(),
                    alloc,
                    frame,
                    functions,
                    texts,
                    point,
                    outs,
                    after,
                    state,
                    sink,
                ),
                Some(false) => walk_arm(
                    second,
                    &tested.made,
                    false,
                    tested.sets.second.as_slice(),
                    alloc,
                    frame,
                    functions,
                    texts,
                    point,
                    outs,
                    after,
                    state,
                    sink,
                ),
                None => {
                    let walked = walk_first(
                        first, &tested, alloc, frame, functions, texts, point, outs, after, state,
                        sink,
                    )?;
                    walk_second(
                        second, &tested, walked, alloc, frame, functions, texts, point, outs,
                        after, state, sink,
                    )
                }
            }
        }
        Step::Repeat(l, body) => walk_loop(
            body.as_slice(),
            l,
            alloc,
            frame,
            functions,
            texts,
            point,
            outs,
            after,
            state,
            sink,
        ),
        Step::Around(body) => walk_around(
            body.as_slice(),
            alloc,
            frame,
            functions,
            texts,
            point,
            outs,
            after,
            state,
            sink,
        ),
        Step::Exit(block) => walk_exit(alloc, *block, state),
        Step::Give(_, value) => walk_return(alloc, frame, outs.len(), value, state, sink),
        Step::Claim(claim) => walk_claim(alloc, frame, texts, point, claim, state, sink),
        Step::Scope(variables, body) => {
            walk_scope(
                body.as_slice(),
                variables.as_slice(),
                alloc,
                frame,
                functions,
                texts,
                point,
                outs,
                after,
                state,
                sink,
            )
        }
    }
}

/// Statements, one after the other.
#[cycle(walking)]
pub fn walk_steps<'a, T: Texts, S: GoalSink>(
    steps: &[Step<'a>],
    alloc: Global,
    frame: Frame<'a>,
    functions: &[Option<CheckedFunction<'a>>],
    texts: &T,
    point: Point<'a>,
    outs: &[List<bool>],
    after: &[bool],
    state: &mut State,
    sink: &mut S,
) -> Result<bool, NoMemory>
    ensures { (first : S) (g : Over) (os : List Temporaries) (f : Temporaries) → outs.now ≡ all_bits frame.entry.temporaries os → after.now ≡ bits frame.entry.temporaries f → StepsClosed (facts_in frame.entry) (shape_in frame.entry g.kinds) (view_steps steps.now) → IfOk result (λ goes. Walks frame.entry.bases.now (steps_word g frame.entry (functions_in functions.now) (T.text texts.now) (view_point frame.entry os point.entry) (view_steps steps.now) f) (view_state state.old) (view_state state.new) (S.fits first sink.old) (S.fits first sink.new) goes) }
{
    let mut behind = behind_all(alloc, steps, outs, after)?;
    for step in steps {
        let Behind { live, unused } = next_behind(alloc, &mut behind);
        if !walk_step(
            step,
            alloc,
            frame,
            functions,
            texts,
            point,
            outs,
            live.as_slice(),
            state,
            sink,
        )? {
            return Ok(false);
        }
        drop_unused(alloc, sizes_in(frame), unused.as_slice(), state)?;
    }
    Ok(true)
}

// In an arm it is known that the condition is so, or that it isn't; then temporaries that aren't used in it are 0.
#[cycle(walking)]
fn walk_arm<'a, T: Texts, S: GoalSink>(
    steps: &[Step<'a>],
    made: &ValueTerm,
    is_so: bool,
    unused: &[bool],
    alloc: Global,
    frame: Frame<'a>,
    functions: &[Option<CheckedFunction<'a>>],
    texts: &T,
    point: Point<'a>,
    outs: &[List<bool>],
    after: &[bool],
    state: &mut State,
    sink: &mut S,
) -> Result<bool, NoMemory>
    ensures { (first : S) (g : Over) (os : List Temporaries) (f : Temporaries) (u : Temporaries) → outs.now ≡ all_bits frame.entry.temporaries os → after.now ≡ bits frame.entry.temporaries f → unused.now ≡ bits frame.entry.temporaries u → StepsClosed (facts_in frame.entry) (shape_in frame.entry g.kinds) (view_steps steps.now) → IfOk result (λ goes. Walks frame.entry.bases.now (arm_word g frame.entry (functions_in functions.now) (T.text texts.now) (view_point frame.entry os point.entry) u (view_steps steps.now) f) (now_knows (view_state state.old) (words.is_so (condition (view_term made.now)) is_so ∷ [])) (view_state state.new) (S.fits first sink.old) (S.fits first sink.new) goes) }
{
    enter_arm(alloc, frame, made, is_so, unused, state)?;
    walk_steps(
        steps, alloc, frame, functions, texts, point, outs, after, state, sink,
    )
}

// The first one of two arms; then the second one begins where it did.
#[cycle(walking)]
fn walk_first<'a, T: Texts, S: GoalSink>(
    steps: &[Step<'a>],
    tested: &Tested,
    alloc: Global,
    frame: Frame<'a>,
    functions: &[Option<CheckedFunction<'a>>],
    texts: &T,
    point: Point<'a>,
    outs: &[List<bool>],
    after: &[bool],
    state: &mut State,
    sink: &mut S,
) -> Result<FirstArm, NoMemory>
    ensures { (first : S) (g : Over) (os : List Temporaries) (f : Temporaries) (u : Temporaries) → outs.now ≡ all_bits frame.entry.temporaries os → after.now ≡ bits frame.entry.temporaries f → tested.now.sets.first ≡ bits frame.entry.temporaries u → StepsClosed (facts_in frame.entry) (shape_in frame.entry g.kinds) (view_steps steps.now) → IfOk result (λ walked. FirstWalked frame.entry.bases.now (arm_word g frame.entry (functions_in functions.now) (T.text texts.now) (view_point frame.entry os point.entry) u (view_steps steps.now) f) (condition (view_term tested.now.made)) walked (view_state state.old) (view_state state.new) (S.fits first sink.old) (S.fits first sink.new)) }
{
    let fork = begin_arms(alloc, state)?;
    let goes = walk_arm(
        steps,
        &tested.made,
        true,
        tested.sets.first.as_slice(),
        alloc,
        frame,
        functions,
        texts,
        point,
        outs,
        after,
        state,
        sink,
    )?;
    let arm = turn_back(fork, state)?;
    Ok(FirstArm { goes, arm })
}

// The second one, and where both meet.
#[cycle(walking)]
fn walk_second<'a, T: Texts, S: GoalSink>(
    steps: &[Step<'a>],
    tested: &Tested,
    walked: FirstArm,
    alloc: Global,
    frame: Frame<'a>,
    functions: &[Option<CheckedFunction<'a>>],
    texts: &T,
    point: Point<'a>,
    outs: &[List<bool>],
    after: &[bool],
    state: &mut State,
    sink: &mut S,
) -> Result<bool, NoMemory>
    ensures { (first : S) (g : Over) (os : List Temporaries) (f : Temporaries) (u : Temporaries) (c : Form) (a : step.Step) (p : Held) (before : S) → outs.now ≡ all_bits frame.entry.temporaries os → after.now ≡ bits frame.entry.temporaries f → tested.now.sets.second ≡ bits frame.entry.temporaries u → StepsClosed (facts_in frame.entry) (shape_in frame.entry g.kinds) (view_steps steps.now) → c.written (states p) ≡ condition (view_term tested.now.made) → FirstWalked frame.entry.bases.now a (condition (view_term tested.now.made)) walked p (view_state state.old) (S.fits first before) (S.fits first sink.old) → IfOk result (λ goes. Walks frame.entry.bases.now (step.choose c a (arm_word g frame.entry (functions_in functions.now) (T.text texts.now) (view_point frame.entry os point.entry) u (view_steps steps.now) f)) p (view_state state.new) (S.fits first before) (S.fits first sink.new) goes) }
{
    let other = walk_arm(
        steps,
        &tested.made,
        false,
        tested.sets.second.as_slice(),
        alloc,
        frame,
        functions,
        texts,
        point,
        outs,
        after,
        state,
        sink,
    )?;
    let FirstArm { goes, arm } = walked;
    meet(alloc, frame.bases.as_slice(), goes, arm, other, state)
}

// A loop: one pass, from any head.
#[cycle(walking)]
fn walk_loop<'a, T: Texts, S: GoalSink>(
    body: &[Step<'a>],
    l: &'a Loop,
    alloc: Global,
    frame: Frame<'a>,
    functions: &[Option<CheckedFunction<'a>>],
    texts: &T,
    point: Point<'a>,
    outs: &[List<bool>],
    after: &[bool],
    state: &mut State,
    sink: &mut S,
) -> Result<bool, NoMemory>
    ensures { (first : S) (g : Over) (os : List Temporaries) (f : Temporaries) → outs.now ≡ all_bits frame.entry.temporaries os → after.now ≡ bits frame.entry.temporaries f → StepsClosed (facts_in frame.entry) (shape_in frame.entry g.kinds) (view_steps body.now) → IfOk result (λ goes. Walks frame.entry.bases.now (step_word g frame.entry (functions_in functions.now) (T.text texts.now) (view_point frame.entry os point.entry) (core.repeat (view_loop l.now) (view_steps body.now)) f) (view_state state.old) (view_state state.new) (S.fits first sink.old) (S.fits first sink.new) goes) }
{
    let none = no_temporaries(alloc, after)?;
    let inner = inner_point(point, l)?;
    enter_loop(alloc, frame, texts, point, l, body, state, sink)?;
    let goes = walk_steps(
        body,
        alloc,
        frame,
        functions,
        texts,
        inner,
        outs,
        none.as_slice(),
        state,
        sink,
    )?;
    leave_loop(alloc, frame, texts, point, l, goes, state, sink)?;
    Ok(false)
}

// A block that may be left.
#[cycle(walking)]
fn walk_around<'a, T: Texts, S: GoalSink>(
    body: &[Step<'a>],
    alloc: Global,
    frame: Frame<'a>,
    functions: &[Option<CheckedFunction<'a>>],
    texts: &T,
    point: Point<'a>,
    outs: &[List<bool>],
    after: &[bool],
    state: &mut State,
    sink: &mut S,
) -> Result<bool, NoMemory>
    ensures { (first : S) (g : Over) (os : List Temporaries) (f : Temporaries) → outs.now ≡ all_bits frame.entry.temporaries os → after.now ≡ bits frame.entry.temporaries f → StepsClosed (facts_in frame.entry) (shape_in frame.entry g.kinds) (view_steps body.now) → IfOk result (λ goes. Walks frame.entry.bases.now (step_word g frame.entry (functions_in functions.now) (T.text texts.now) (view_point frame.entry os point.entry) (core.around (view_steps body.now)) f) (view_state state.old) (view_state state.new) (S.fits first sink.old) (S.fits first sink.new) goes) }
{
    let inner = around(alloc, after, outs)?;
    let outer = begin_block(alloc, state);
    let goes = walk_steps(
        body,
        alloc,
        frame,
        functions,
        texts,
        point,
        inner.as_slice(),
        after,
        state,
        sink,
    )?;
    end_block(alloc, frame.bases.as_slice(), goes, outer, state)
}

// A block with variables of its own.
#[cycle(walking)]
fn walk_scope<'a, T: Texts, S: GoalSink>(
    body: &[Step<'a>],
    variables: &[u32],
    alloc: Global,
    frame: Frame<'a>,
    functions: &[Option<CheckedFunction<'a>>],
    texts: &T,
    point: Point<'a>,
    outs: &[List<bool>],
    after: &[bool],
    state: &mut State,
    sink: &mut S,
) -> Result<bool, NoMemory>
    ensures { (first : S) (g : Over) (os : List Temporaries) (f : Temporaries) → outs.now ≡ all_bits frame.entry.temporaries os → after.now ≡ bits frame.entry.temporaries f → StepsClosed (facts_in frame.entry) (shape_in frame.entry g.kinds) (view_steps body.now) → IfOk result (λ goes. Walks frame.entry.bases.now (step_word g frame.entry (functions_in functions.now) (T.text texts.now) (view_point frame.entry os point.entry) (core.scope variables.now (view_steps body.now)) f) (view_state state.old) (view_state state.new) (S.fits first sink.old) (S.fits first sink.new) goes) }
{
    let before = copy_state(alloc, state)?;
    let outer = begin_block(alloc, state);
    open_all(alloc, frame, variables, state)?;
    let goes = walk_steps(
        body, alloc, frame, functions, texts, point, outs, after, state, sink,
    )?;
    close_scope(alloc, frame, variables, &before, outer, state)?;
    Ok(goes)
}
