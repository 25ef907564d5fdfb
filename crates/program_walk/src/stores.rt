// Writes to objects: what the set in force asks of them (ACSL 2.3.2, 2.4.2).
ghost use Rattle.std.specs.Prelude.{◌≡◌, ℕ, List, Option, IfOk};
ghost use Rattle.c_runs.specs.Program.{Function};
ghost use Rattle.c_runs.specs.Tree as core;
ghost use Rattle.program_steps.specs.Temporaries.{Temporaries};
ghost use Rattle.program_walk.specs.View.{Over, step_word};
ghost use Rattle.c_runs.specs.Checks.{Check};
ghost use Rattle.step_walks.specs.View.{view_state};
ghost use Rattle.step_walks.specs.Walks.{Walks};
ghost use Rattle.typed_prog.specs.Tree.{values_of};
ghost use Rattle.typed_prog.specs.View.{view_values};
ghost use Rattle.value_words.specs.Laws.{AreClosed};
ghost use Rattle.walk_frames.specs.View.{facts_in, shape_in, view_point};

use std::alloc::Global;
use step_walks::{GoalSink, State};
use typed_prog::{CoreType, Path, Value};
use walk_frames::{Frame, Point, Texts, operand_number, put_to, walk_values};
use wp_base::{Line, List, NoMemory};

/// An object gets a value.
pub(crate) fn walk_store<'a, T: Texts, S: GoalSink>(
    alloc: Global,
    frame: Frame<'a>,
    texts: &T,
    point: Point<'a>,
    ty: &CoreType,
    line: Line,
    path: &Path,
    values: &List<Value>,
    state: &mut State,
    sink: &mut S,
) -> Result<bool, NoMemory>
    ensures { (first : S) (g : Over) (fs : ℕ → Option (Function core.Steps)) (cs : List Check) (os : List Temporaries) (f : Temporaries) → AreClosed (facts_in frame.entry) (shape_in frame.entry g.kinds) (values_of (view_values values.now)) → IfOk result (λ goes. Walks frame.entry.bases.now (step_word g frame.entry fs (T.text texts.now) (view_point frame.entry os point.entry) (core.store cs ty.now line path.now (values_of (view_values values.now))) f) (view_state state.old) (view_state state.new) (S.fits first sink.old) (S.fits first sink.new) goes) }
{
    let terms = walk_values(alloc, frame, values.as_slice(), state, sink)?;
    let value = operand_number(alloc, terms.as_slice(), 0)?;
    let goes = put_to(
        alloc, frame, texts, point, line, path.root, value, state, sink,
    )?;
    Ok(goes)
}
