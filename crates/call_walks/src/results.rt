// Where the result of a call goes.
ghost use Rattle.std.specs.Prelude.{◌≡◌, ◌+◌, ℕ, List, Option, true, IfOk, OnOk};
ghost use Rattle.c_runs.specs.Program as program;
ghost use Rattle.call_words.specs.Words as spec;
ghost use Rattle.checked_trees.specs.View.{view_goal};
ghost use Rattle.c_runs.specs.Tree as core;
ghost use Rattle.plain_states.specs.Slots as slots;
ghost use Rattle.program_steps.specs.Leaves.{closed, fill};
ghost use Rattle.program_steps.specs.Temporaries.{Temporaries};
ghost use Rattle.program_steps.specs.Terms as terms;
ghost use Rattle.program_steps.specs.Words as forces;
ghost use Rattle.program_steps.specs.Words.{items_step};
ghost use Rattle.program_trees.specs.View.{view_contract};
ghost use Rattle.qed_terms.specs.Meaning as sense;
ghost use Rattle.qed_terms.specs.Tree.{Tree};
ghost use Rattle.qed_terms.specs.View.{term_tree};
ghost use Rattle.step_walks.specs.View.{view_state};
ghost use Rattle.step_walks.specs.Walks.{Walks, states};
ghost use Rattle.typed_prog.specs.Tree.{values_of};
ghost use Rattle.typed_prog.specs.View.{view_values};
ghost use Rattle.value_terms.specs.Words.{words};
ghost use Rattle.value_words.specs.Laws.{AreClosed};
ghost use Rattle.value_words.specs.OverSlots.{leaf_reading};
ghost use Rattle.value_words.specs.View.{view_sizes};
ghost use Rattle.walk_frames.specs.View.{facts_in, shape_in, variables_in, view_point};
ghost use Rattle.walk_frames.specs.Words.{GoalClosed, Still};
ghost use Rattle.walk_frames.specs.declared.frames.Frame.{Frame};
ghost use Rattle.walk_steps.specs.Step as step;
ghost use Rattle.walk_steps.specs.Walk as walk;
ghost use Rattle.wp_base.specs.declared.kinds.Kind.{Kind};

use checked_trees::Goal;
use qed_terms::Term;
use std::alloc::Global;
use step_walks::{GoalSink, State, set};
use typed_prog::{Path, Value};
use value_words::{Sizes, answer_slot, read_slot, temp_slot};
use walk_frames::{Frame, Point, Texts, next_level, put_to, set_to, sizes_in, walk_values};
use wp_base::{CellKind, Line, List, NoMemory};

// The term of the result; a function without result gives what is of no use.
fn answer_term<'a>(
    alloc: Global,
    frame: Frame<'a>,
    result_kind: Option<CellKind>,
    state: &State,
) -> Result<Term, NoMemory>
    ensures { (m : sense.World) (k : ℕ → Kind) (texts : terms.Texts) (c : program.Contract) (functions : ℕ → Option (program.Function core.Steps)) → IfOk result (λ made. fill (states (view_state state.now)) (closed (spec.answer_term m (facts_in frame.entry) (shape_in frame.entry k) texts c functions result_kind)) ≡ term_tree made) }
{
    match result_kind {
        None => Ok(Term::number(0)),
        Some(_) => {
            let slot = answer_slot(sizes_in(frame))?;
            let made = read_slot(alloc, state.world.slots.as_slice(), slot)?;
            Ok(made)
        }
    }
}

// With one more state that is remembered.
fn one_further<'a>(point: Point<'a>) -> Result<Point<'a>, NoMemory>
    ensures { (x : Frame) (os : List Temporaries) → IfOk result (λ further. view_point x os further ≡ spec.one_further (view_point x os point.entry)) }
{
    let entry = next_level(point.entry)?;
    let loop_entry = next_level(point.loop_entry)?;
    Ok(Point {
        entry,
        loop_entry,
        force: point.force,
    })
}

// An object gets it: what its place asks for is asked, and the set in force has to allow the write.
fn receive_place<'a, T: Texts, S: GoalSink>(
    alloc: Global,
    frame: Frame<'a>,
    texts: &T,
    point: Point<'a>,
    line: Line,
    path: &Path,
    values: &[Value],
    value: Term,
    state: &mut State,
    sink: &mut S,
) -> Result<bool, NoMemory>
    ensures { (first : S) (m : sense.World) (k : ℕ → Kind) (os : List Temporaries) (functions : ℕ → Option (program.Function core.Steps)) (t : Tree) → AreClosed (facts_in frame.entry) (shape_in frame.entry k) (values_of (view_values values.now)) → fill (states (view_state state.old)) (closed t) ≡ term_tree value → IfOk result (λ goes. Walks frame.entry.bases.now (step.seq (items_step m (words (facts_in frame.entry) (variables_in frame.entry) (leaf_reading (facts_in frame.entry) (variables_in frame.entry)) (values_of (view_values values.now)))) (spec.placed_in m (facts_in frame.entry) (shape_in frame.entry k) (T.text texts.now) (view_contract frame.entry.contract.now) functions (spec.one_further (view_point frame.entry os point.entry)) line path.now.root t)) (view_state state.old) (view_state state.new) (S.fits first sink.old) (S.fits first sink.new) goes) }
{
    walk_values(alloc, frame, values, state, sink)?;
    let further = one_further(point)?;
    let goes = put_to(
        alloc, frame, texts, further, line, path.root, value, state, sink,
    )?;
    Ok(goes)
}

// The number of a variable among those of the file and of the function.
fn number_of(sizes: Sizes, variable: u32) -> Result<usize, NoMemory>
    ensures { IfOk result (λ number. number ≡ (view_sizes sizes).globals + variable) }
{
    sizes.globals.checked_add(variable as usize).ok_or(NoMemory)
}

// A variable of the function gets it.
fn receive_variable<'a>(
    alloc: Global,
    frame: Frame<'a>,
    variable: u32,
    value: Term,
    state: &mut State,
) -> Result<(), NoMemory>
    ensures { (m : sense.World) (t : Tree) (gs : List walk.Goal) → fill (states (view_state state.old)) (closed t) ≡ term_tree value → OnOk result (Walks frame.entry.bases.now (forces.set_variable m ((slots.sizes_of (facts_in frame.entry) (variables_in frame.entry)).globals + variable) t) (view_state state.old) (view_state state.new) (Still gs) (Still gs) true) }
{
    let number = number_of(sizes_in(frame), variable)?;
    set_to(alloc, number, value, state)?;
    Ok(())
}

/// The result goes where it is wanted. Answers whether there is a way on.
pub(crate) fn receive<'a, T: Texts, S: GoalSink>(
    alloc: Global,
    frame: Frame<'a>,
    texts: &T,
    point: Point<'a>,
    to: &Goal<'a>,
    result_kind: Option<CellKind>,
    state: &mut State,
    sink: &mut S,
) -> Result<bool, NoMemory>
    ensures { (first : S) (m : sense.World) (k : ℕ → Kind) (os : List Temporaries) (functions : ℕ → Option (program.Function core.Steps)) → GoalClosed (facts_in frame.entry) (shape_in frame.entry k) (view_goal to.now) → IfOk result (λ goes. Walks frame.entry.bases.now (spec.received m (facts_in frame.entry) (shape_in frame.entry k) (T.text texts.now) (view_contract frame.entry.contract.now) functions (view_point frame.entry os point.entry) (view_goal to.now) (spec.answer_term m (facts_in frame.entry) (shape_in frame.entry k) (T.text texts.now) (view_contract frame.entry.contract.now) functions result_kind)) (view_state state.old) (view_state state.new) (S.fits first sink.old) (S.fits first sink.new) goes) }
{
    let value = answer_term(alloc, frame, result_kind, state)?;
    match to {
        Goal::Nowhere => Ok(true),
        Goal::Temporary(number) => {
            set(alloc, temp_slot(sizes_in(frame), *number)?, value, state)?;
            Ok(true)
        }
        Goal::Place(_, _, line, path, values) => {
            let values = values.as_slice();
            let goes = receive_place(
                alloc, frame, texts, point, *line, path, values, value, state, sink,
            )?;
            Ok(goes)
        }
        Goal::Variable(number) => {
            receive_variable(alloc, frame, *number, value, state)?;
            Ok(true)
        }
    }
}
