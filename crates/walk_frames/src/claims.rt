// Annotations as formulas, over the slots of states.
ghost use Rattle.std.specs.Prelude.{◌≡◌, suc, ℕ, IfOk};
ghost use Rattle.std.specs.Option.{option_map};
ghost use Rattle.acsl_encode.specs.Encode as encode;
ghost use Rattle.acsl_trees.specs.Tree.{view_tree, view_trees};
ghost use Rattle.c_runs.specs.Claims as broken;
ghost use Rattle.core_trees.specs.View.{view_claim};
ghost use Rattle.program_steps.specs.Leaves.{fill};
ghost use Rattle.program_steps.specs.Stops as stops;
ghost use Rattle.program_steps.specs.Terms.{assumed_tree, body_reading, claim_tree, entry_reading};
ghost use Rattle.program_steps.specs.Words.{ask_one};
ghost use Rattle.qed_terms.specs.Meaning as sense;
ghost use Rattle.qed_terms.specs.View.{formula_tree, term_tree};
ghost use Rattle.step_walks.specs.View.{view_state};
ghost use Rattle.step_walks.specs.Walks.{Walks, states};
ghost use Rattle.walk_frames.specs.View.{facts_in, shape_in};
ghost use Rattle.wp_base.specs.declared.kinds.Kind.{Kind};

use crate::frames::{Frame, Point, Texts, next_level};
use crate::places::{Broken, broken_place};
use crate::readings::{assumed_in, body_labels, claim_in, number_in};
use acsl_trees::Tree;
use core_trees::Claim;
use qed_terms::{Formula, Term};
use std::alloc::Global;
use step_walks::{GoalSink, State, ask};
use wp_base::NoMemory;

/// The formula of an annotation in the body of a function, by the levels of the state in force, of the function's entry and of that of the innermost loop.
pub fn claim_at<'a, T: Texts>(
    alloc: Global,
    frame: Frame<'a>,
    texts: &T,
    here: usize,
    entry: usize,
    loop_entry: usize,
    tree: &Tree,
    state: &State,
) -> Result<Formula, NoMemory>
    ensures { (k : ℕ → Kind) → IfOk result (λ made. formula_tree made ≡ fill (states (view_state state.now)) (claim_tree (facts_in frame.entry) (shape_in frame.entry k) (T.text texts.now) (body_reading (facts_in frame.entry) (shape_in frame.entry k) (T.text texts.now) here entry loop_entry) (view_tree tree.now))) }
{
    let labels = body_labels(frame, state, here, entry, loop_entry);
    claim_in(alloc, frame.facts, texts, labels, tree)
}

/// The term of a number there, if it has one.
pub fn number_at<'a, T: Texts>(
    alloc: Global,
    frame: Frame<'a>,
    texts: &T,
    here: usize,
    entry: usize,
    loop_entry: usize,
    tree: &Tree,
    state: &State,
) -> Result<Option<Term>, NoMemory>
    ensures { (k : ℕ → Kind) → IfOk result (λ made. option_map term_tree made ≡ option_map (fill (states (view_state state.now))) (encode.term_of (body_reading (facts_in frame.entry) (shape_in frame.entry k) (T.text texts.now) here entry loop_entry (view_tree tree.now)) (view_tree tree.now))) }
{
    let labels = body_labels(frame, state, here, entry, loop_entry);
    number_in(alloc, frame.facts, texts, labels, tree)
}

/// What is assumed where the function was entered, in the state of this level.
pub fn assumed_at<'a, T: Texts>(
    alloc: Global,
    frame: Frame<'a>,
    texts: &T,
    level: usize,
    trees: &[Tree],
    state: &State,
) -> Result<Formula, NoMemory>
    ensures { (k : ℕ → Kind) → IfOk result (λ made. formula_tree made ≡ fill (states (view_state state.now)) (assumed_tree (facts_in frame.entry) (shape_in frame.entry k) (T.text texts.now) (entry_reading (facts_in frame.entry) (shape_in frame.entry k) (T.text texts.now) level) (view_trees trees.now))) }
{
    let labels = body_labels(frame, state, level, level, level);
    assumed_in(alloc, frame.facts, texts, labels, trees)
}

/// An assertion.
pub fn walk_claim<'a, T: Texts, S: GoalSink>(
    alloc: Global,
    frame: Frame<'a>,
    texts: &T,
    point: Point<'a>,
    claim: &Claim,
    state: &mut State,
    sink: &mut S,
) -> Result<bool, NoMemory>
    ensures { (first : S) (m : sense.World) (k : ℕ → Kind) → IfOk result (λ goes. Walks frame.entry.bases.now (ask_one m (claim_tree (facts_in frame.entry) (shape_in frame.entry k) (T.text texts.now) (body_reading (facts_in frame.entry) (shape_in frame.entry k) (T.text texts.now) 0 (suc point.entry.entry) (suc point.entry.loop_entry)) (view_claim claim.now).what) (stops.broken_place broken.assert (view_claim claim.now).line)) (view_state state.old) (view_state state.new) (S.fits first sink.old) (S.fits first sink.new) goes) }
{
    let entry = next_level(point.entry)?;
    let loop_entry = next_level(point.loop_entry)?;
    let formula = claim_at(
        alloc,
        frame,
        texts,
        0,
        entry,
        loop_entry,
        &claim.what,
        state,
    )?;
    ask(
        broken_place(Broken::Assert, claim.line),
        formula,
        state,
        sink,
    )?;
    Ok(true)
}
