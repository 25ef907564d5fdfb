// The walk of a loop before its pass and behind it (ACSL 2.4.2).
ghost use Rattle.std.specs.Prelude.{◌≡◌, ◌++◌, ℕ, List, length, map, true, OnOk};
ghost use Rattle.checked_trees.specs.View.{view_steps};
ghost use Rattle.core_trees.specs.View.{view_loop};
ghost use Rattle.loop_walks.specs.Parts.{end_step, head_step, set_step, turn_step};
ghost use Rattle.loop_walks.specs.Passes.{Ends, Entered, Left};
ghost use Rattle.loop_words.specs.Sets as sets;
ghost use Rattle.loop_words.specs.Words as words;
ghost use Rattle.program_steps.specs.Leaves.{form};
ghost use Rattle.program_steps.specs.Temporaries.{Temporaries};
ghost use Rattle.program_trees.specs.View.{view_contract};
ghost use Rattle.qed_terms.specs.Meaning as sense;
ghost use Rattle.step_walks.specs.View.{view_state};
ghost use Rattle.step_walks.specs.Walks.{Walks};
ghost use Rattle.walk_frames.specs.View.{facts_in, shape_in, view_point};
ghost use Rattle.walk_frames.specs.Words.{Still};
ghost use Rattle.walk_live.specs.Bits.{bits};
ghost use Rattle.walk_steps.specs.Step as step;
ghost use Rattle.walk_steps.specs.Walk as spec;
ghost use Rattle.wp_base.specs.declared.kinds.Kind.{Kind};

use crate::changes::head_changes;
use crate::ends::{end_checks, entry_checks};
use crate::heads::head_formulas;
use crate::inside::inside_formulas;
use crate::sets::file_changes;
use checked_trees::Step;
use core_trees::Loop;
use std::alloc::Global;
use step_walks::{GoalSink, State, change, forget, remember};
use walk_frames::{Broken, Frame, Point, Texts, ask_all, ask_each, broken_place, know_all};
use wp_base::NoMemory;

// What is asked of its set.
fn ask_inside<'a, T: Texts, S: GoalSink>(
    alloc: Global,
    frame: Frame<'a>,
    texts: &T,
    point: Point<'a>,
    l: &Loop,
    state: &mut State,
    sink: &mut S,
) -> Result<(), NoMemory>
    ensures { (first : S) (m : sense.World) (k : ℕ → Kind) (os : List Temporaries) → OnOk result (Walks frame.entry.bases.now (set_step m (facts_in frame.entry) (shape_in frame.entry k) (T.text texts.now) (view_contract frame.entry.contract.now) (view_point frame.entry os point.entry) (view_loop l.now)) (view_state state.old) (view_state state.new) (S.fits first sink.old) (S.fits first sink.new) true) }
{
    let formulas = inside_formulas(alloc, frame, texts, point, l, state)?;
    let place = broken_place(Broken::Assigns, l.line);
    ask_all(place, formulas, state, sink)?;
    Ok(())
}

// The invariants where it is entered.
fn ask_entry<'a, T: Texts, S: GoalSink>(
    alloc: Global,
    frame: Frame<'a>,
    texts: &T,
    point: Point<'a>,
    l: &Loop,
    state: &mut State,
    sink: &mut S,
) -> Result<(), NoMemory>
    ensures { (first : S) (m : sense.World) (k : ℕ → Kind) (os : List Temporaries) → OnOk result (Walks frame.entry.bases.now (step.ask (map (words.entry_check (facts_in frame.entry) (shape_in frame.entry k) (T.text texts.now) m (view_point frame.entry os point.entry)) (view_loop l.now).invariants)) (view_state state.old) (view_state state.new) (S.fits first sink.old) (S.fits first sink.new) true) }
{
    let checks = entry_checks(alloc, frame, texts, point, l, state)?;
    ask_each(checks, state, sink)?;
    Ok(())
}

// The slots change; then these formulas are known.
fn come_to_head<'a, T: Texts>(
    alloc: Global,
    frame: Frame<'a>,
    texts: &T,
    point: Point<'a>,
    l: &Loop,
    body: &[Step<'a>],
    state: &mut State,
) -> Result<(), NoMemory>
    ensures { (m : sense.World) (k : ℕ → Kind) (os : List Temporaries) (gs : List spec.Goal) → OnOk result (Walks frame.entry.bases.now (turn_step m (facts_in frame.entry) (shape_in frame.entry k) (T.text texts.now) (view_contract frame.entry.contract.now) (view_point frame.entry os point.entry) (view_loop l.now) (view_steps body.now)) (view_state state.old) (view_state state.new) (Still gs) (Still gs) true) }
{
    let changing = file_changes(alloc, frame, point, l)?;
    let changes = head_changes(alloc, frame, l, body, changing.as_slice())?;
    change(alloc, frame.bases.as_slice(), changes.as_slice(), state)?;
    let formulas = head_formulas(alloc, frame, texts, point, l, changing.as_slice(), state)?;
    know_all(formulas, state)?;
    Ok(())
}

/// Up to the pass: the set lies inside, the invariants hold where the loop is entered, its turns change what they may, and the head is come to. The loop's
/// entry and the head are remembered from then on.
pub fn enter_loop<'a, T: Texts, S: GoalSink>(
    alloc: Global,
    frame: Frame<'a>,
    texts: &T,
    point: Point<'a>,
    l: &Loop,
    body: &[Step<'a>],
    state: &mut State,
    sink: &mut S,
) -> Result<(), NoMemory>
    ensures { (first : S) (m : sense.World) (k : ℕ → Kind) (os : List Temporaries) → OnOk result (Entered frame.entry.bases.now (set_step m (facts_in frame.entry) (shape_in frame.entry k) (T.text texts.now) (view_contract frame.entry.contract.now) (view_point frame.entry os point.entry) (view_loop l.now)) (head_step m (facts_in frame.entry) (shape_in frame.entry k) (T.text texts.now) (view_contract frame.entry.contract.now) (view_point frame.entry os point.entry) (view_loop l.now) (view_steps body.now)) (S.fits first) (view_state state.old) (view_state state.new) sink.old sink.new) }
{
    ask_inside(alloc, frame, texts, point, l, state, sink)?;
    remember(alloc, state)?;
    ask_entry(alloc, frame, texts, point, l, state, sink)?;
    come_to_head(alloc, frame, texts, point, l, body, state)?;
    remember(alloc, state)?;
    Ok(())
}

// What is asked where the end of the pass is reached.
fn ask_checks<'a, T: Texts, S: GoalSink>(
    alloc: Global,
    frame: Frame<'a>,
    texts: &T,
    point: Point<'a>,
    l: &Loop,
    state: &mut State,
    sink: &mut S,
) -> Result<(), NoMemory>
    ensures { (first : S) (m : sense.World) (k : ℕ → Kind) (os : List Temporaries) → OnOk result (Walks frame.entry.bases.now (end_step m (facts_in frame.entry) (shape_in frame.entry k) (T.text texts.now) (view_contract frame.entry.contract.now) (view_point frame.entry os point.entry) (view_loop l.now)) (view_state state.old) (view_state state.new) (S.fits first sink.old) (S.fits first sink.new) true) }
{
    let checks = end_checks(alloc, frame, texts, point, l, state)?;
    ask_each(checks, state, sink)?;
    Ok(())
}

// Nothing is asked where it isn't reached.
fn ask_end<'a, T: Texts, S: GoalSink>(
    alloc: Global,
    frame: Frame<'a>,
    texts: &T,
    point: Point<'a>,
    l: &Loop,
    goes: bool,
    state: &mut State,
    sink: &mut S,
) -> Result<(), NoMemory>
    ensures { (first : S) (m : sense.World) (k : ℕ → Kind) (os : List Temporaries) → OnOk result (Ends frame.entry.bases.now (end_step m (facts_in frame.entry) (shape_in frame.entry k) (T.text texts.now) (view_contract frame.entry.contract.now) (view_point frame.entry os point.entry) (view_loop l.now)) goes (view_state state.old) (view_state state.new) (S.fits first sink.old) (S.fits first sink.new)) }
{
    if !goes {
        return Ok(());
    }
    ask_checks(alloc, frame, texts, point, l, state, sink)?;
    Ok(())
}

/// Behind the pass, whose end was reached or wasn't: the invariants are kept, and the variant is smaller. The loop's entry and the head are forgotten. There
/// is no way on: loops are left by exits.
pub fn leave_loop<'a, T: Texts, S: GoalSink>(
    alloc: Global,
    frame: Frame<'a>,
    texts: &T,
    point: Point<'a>,
    l: &Loop,
    goes: bool,
    state: &mut State,
    sink: &mut S,
) -> Result<(), NoMemory>
    ensures { (first : S) (m : sense.World) (k : ℕ → Kind) (os : List Temporaries) → OnOk result (Left frame.entry.bases.now (end_step m (facts_in frame.entry) (shape_in frame.entry k) (T.text texts.now) (view_contract frame.entry.contract.now) (view_point frame.entry os point.entry) (view_loop l.now)) goes (view_state state.old) (view_state state.new) (S.fits first sink.old) (S.fits first sink.new)) }
{
    ask_end(alloc, frame, texts, point, l, goes, state, sink)?;
    forget(state);
    forget(state);
    Ok(())
}
