// The walk of a function from where it is entered.
ghost use Rattle.std.specs.Prelude.{◌≡◌, IfOk};
ghost use Rattle.call_walks.specs.View.{functions_in};
ghost use Rattle.checked_trees.specs.View.{view_steps};
ghost use Rattle.function_goals.specs.Whole.{body_word, whole_word};
ghost use Rattle.program_steps.specs.Temporaries.{no_temporaries};
ghost use Rattle.program_walk.specs.View.{Over};
ghost use Rattle.step_walks.specs.View.{view_state};
ghost use Rattle.step_walks.specs.Walks.{Walks};
ghost use Rattle.walk_frames.specs.View.{facts_in, shape_in};
ghost use Rattle.walk_frames.specs.Words.{StepsClosed};
ghost use Rattle.walk_live.specs.Bits.{bits};

use checked_trees::{CheckedFunction, Step};
use function_walks::{ask_promises, ask_together, end_body};
use program_walk::walk_steps;
use std::alloc::Global;
use step_walks::{GoalSink, State, begin_block, end_block, forget, remember};
use walk_frames::{Force, Frame, Point, Texts};
use wp_base::{Line, NoMemory};

// So many temporaries, of which none is used.
fn none_of(alloc: Global, count: usize) -> Result<Vec<bool>, NoMemory>
    ensures { IfOk result (λ none. none.items ≡ bits count no_temporaries) }
{
    let mut none = Vec::new(alloc);
    for _temporary in 0..count {
        none.push(false)?;
    }
    Ok(none)
}

// The body. Behind it no temporary is used.
fn walk_body<'a, T: Texts, S: GoalSink>(
    alloc: Global,
    frame: Frame<'a>,
    functions: &[Option<CheckedFunction<'a>>],
    texts: &T,
    body: &[Step<'a>],
    end: Line,
    state: &mut State,
    sink: &mut S,
) -> Result<bool, NoMemory>
    ensures { (first : S) (g : Over) → StepsClosed (facts_in frame.entry) (shape_in frame.entry g.kinds) (view_steps body.now) → IfOk result (λ goes. Walks frame.entry.bases.now (body_word g frame.entry (functions_in functions.now) (T.text texts.now) (view_steps body.now) end) (view_state state.old) (view_state state.new) (S.fits first sink.old) (S.fits first sink.new) goes) }
{
    let point = Point {
        entry: 0,
        loop_entry: 0,
        force: Force::OfFunction,
    };
    let none = none_of(alloc, frame.temporaries)?;
    let outer = begin_block(alloc, state);
    let goes = walk_steps(
        body,
        alloc,
        frame,
        functions,
        texts,
        point,
        &[],
        none.as_slice(),
        state,
        sink,
    )?;
    if !goes {
        let on = end_block(alloc, frame.bases.as_slice(), goes, outer, state)?;
        return Ok(on);
    }
    let ends = end_body(frame, end, state, sink)?;
    let on = end_block(alloc, frame.bases.as_slice(), ends, outer, state)?;
    Ok(on)
}

/// What is asked at the function's entry, its body, and its promises, where it returns.
pub(crate) fn walk_entered<'a, T: Texts, S: GoalSink>(
    alloc: Global,
    frame: Frame<'a>,
    functions: &[Option<CheckedFunction<'a>>],
    texts: &T,
    body: &[Step<'a>],
    end: Line,
    state: &mut State,
    sink: &mut S,
) -> Result<bool, NoMemory>
    ensures { (first : S) (g : Over) → StepsClosed (facts_in frame.entry) (shape_in frame.entry g.kinds) (view_steps body.now) → IfOk result (λ goes. Walks frame.entry.bases.now (whole_word g frame.entry (functions_in functions.now) (T.text texts.now) (view_steps body.now) end) (view_state state.old) (view_state state.new) (S.fits first sink.old) (S.fits first sink.new) goes) }
{
    remember(alloc, state)?;
    ask_together(alloc, frame, texts, state, sink)?;
    let goes = walk_body(alloc, frame, functions, texts, body, end, state, sink)?;
    if !goes {
        forget(state);
        return Ok(false);
    }
    ask_promises(alloc, frame, texts, state, sink)?;
    forget(state);
    Ok(true)
}
