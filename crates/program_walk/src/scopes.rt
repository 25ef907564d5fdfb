// Scopes: where the variables of a block begin.
ghost use Rattle.std.specs.Prelude.{◌≡◌, ℕ, List, map, slice_get, true, IfOk, OnOk};
ghost use Rattle.program_steps.specs.Words as words;
ghost use Rattle.walk_frames.specs.View.{facts_in, shape_in};
ghost use Rattle.walk_frames.specs.Words.{Still, unset_word};
ghost use Rattle.plain_runs.specs.Fitting.{sizes};
ghost use Rattle.qed_terms.specs.Meaning as sense;
ghost use Rattle.step_walks.specs.View.{view_state};
ghost use Rattle.step_walks.specs.Walks.{Walks};
ghost use Rattle.walk_steps.specs.Walk as spec;
ghost use Rattle.step_walks.specs.Ways.{now_put_back};
ghost use Rattle.walk_words.specs.View.{exits_at, view_change, view_world};
ghost use Rattle.wp_base.specs.declared.kinds.Kind.{Kind};

use crate::statements::own_number;
use qed_terms::Term;
use std::alloc::Global;
use step_walks::{State, change, end_scope, set};
use value_words::{flag_slot, local_flag, local_value, value_slot};
use walk_frames::{Frame, set_to, sizes_in};
use walk_words::{Change, Exit, World};
use wp_base::NoMemory;

// Any value in this slot alone.
#[tactic(auto, using(crate::proofs::Opening::any_push, crate::proofs::Opening::any_end))]
fn any_at(alloc: Global, slot: usize) -> Result<Vec<Change>, NoMemory>
    ensures { IfOk result (λ made. map view_change made.items ≡ words.any_at slot) }
{
    let mut made = Vec::new(alloc);
    for _slot in 0..slot {
        made.push(Change::Keeps)?;
    }
    made.push(Change::Any)?;
    Ok(made)
}

// A variable that isn't set yet.
fn open_unset<'a>(
    alloc: Global,
    frame: Frame<'a>,
    variable: usize,
    state: &mut State,
) -> Result<(), NoMemory>
    ensures { (m : sense.World) (gs : List spec.Goal) → OnOk result (Walks frame.entry.bases.now (unset_word m variable) (view_state state.old) (view_state state.new) (Still gs) (Still gs) true) }
{
    let value = value_slot(variable)?;
    let changes = any_at(alloc, value)?;
    change(alloc, frame.bases.as_slice(), changes.as_slice(), state)?;
    let flag = flag_slot(variable)?;
    set(alloc, flag, Term::number(0), state)?;
    Ok(())
}

// A variable of the function, where its block begins.
fn open_one<'a>(
    alloc: Global,
    frame: Frame<'a>,
    variable: u32,
    state: &mut State,
) -> Result<(), NoMemory>
    ensures { (m : sense.World) (k : ℕ → Kind) (gs : List spec.Goal) → OnOk result (Walks frame.entry.bases.now (words.opened m (shape_in frame.entry k) (sizes (facts_in frame.entry) (shape_in frame.entry k)) variable (slice_get (shape_in frame.entry k).variables variable)) (view_state state.old) (view_state state.new) (Still gs) (Still gs) true) }
{
    let at = variable as usize;
    let variables = frame.variables.as_slice();
    if at >= variables.len() {
        return Ok(());
    }
    let number = own_number(frame, variable)?;
    if variables[at].has_value {
        set_to(alloc, number, Term::number(0), state)?;
        return Ok(());
    }
    open_unset(alloc, frame, number, state)?;
    Ok(())
}

/// The variables of a block, where it begins.
pub(crate) fn open_all<'a>(
    alloc: Global,
    frame: Frame<'a>,
    variables: &[u32],
    state: &mut State,
) -> Result<(), NoMemory>
    ensures { (m : sense.World) (k : ℕ → Kind) (gs : List spec.Goal) → OnOk result (Walks frame.entry.bases.now (words.all_opened m (shape_in frame.entry k) (sizes (facts_in frame.entry) (shape_in frame.entry k)) variables.now) (view_state state.old) (view_state state.new) (Still gs) (Still gs) true) }
{
    for variable in variables {
        open_one(alloc, frame, *variable, state)?;
    }
    Ok(())
}

// The slots of these variables.
fn slots_of<'a>(alloc: Global, frame: Frame<'a>, variables: &[u32]) -> Result<Vec<usize>, NoMemory>
    ensures { (k : ℕ → Kind) → IfOk result (λ made. made.items ≡ words.slots_of (sizes (facts_in frame.entry) (shape_in frame.entry k)) variables.now) }
{
    let sizes = sizes_in(frame);
    let mut made = Vec::new(alloc);
    for variable in variables {
        let value = local_value(sizes, *variable)?;
        let flag = local_flag(sizes, *variable)?;
        made.push(value)?;
        made.push(flag)?;
    }
    Ok(made)
}

/// Where the block of these variables ends: they are as they were before it; the exits of the blocks around are `outer`.
pub(crate) fn close_scope<'a>(
    alloc: Global,
    frame: Frame<'a>,
    variables: &[u32],
    before: &World,
    outer: Vec<Exit>,
    state: &mut State,
) -> Result<(), NoMemory>
    ensures { (k : ℕ → Kind) → OnOk result (view_state state.new ≡ now_put_back (words.slots_of (sizes (facts_in frame.entry) (shape_in frame.entry k)) variables.now) (view_world before.now) (exits_at outer.items) (view_state state.old)) }
{
    let places = slots_of(alloc, frame, variables)?;
    end_scope(alloc, places.as_slice(), before, outer, state)?;
    Ok(())
}
