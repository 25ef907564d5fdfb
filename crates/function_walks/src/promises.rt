// What is asked where a function's body ends and where it returns (C11 6.9.1p12, ACSL 2.3.1).
ghost use Rattle.std.specs.Prelude.{◌≡◌, ◌∷◌, ◌++◌, [], ℕ, List, map, true, IfOk, OnOk};
ghost use Rattle.acsl_trees.specs.Tree as acsl;
ghost use Rattle.acsl_trees.specs.Tree.{view_tree};
ghost use Rattle.annotation_words.specs.Bodies.{return_over};
ghost use Rattle.core_trees.specs.View.{view_claim};
ghost use Rattle.function_walks.specs.Ending.{written_checks};
ghost use Rattle.program_steps.specs.Functions as spec;
ghost use Rattle.program_steps.specs.Leaves.{fill};
ghost use Rattle.program_steps.specs.Terms as terms;
ghost use Rattle.program_steps.specs.Terms.{claim_tree, return_reading};
ghost use Rattle.program_trees.specs.View.{view_behavior, view_contract};
ghost use Rattle.qed_terms.specs.Meaning as sense;
ghost use Rattle.qed_terms.specs.View.{formula_tree};
ghost use Rattle.step_walks.specs.View.{view_state};
ghost use Rattle.step_walks.specs.Walks.{Walks, states};
ghost use Rattle.walk_frames.specs.Asked.{view_asked, written_check};
ghost use Rattle.walk_frames.specs.Labelled.{reading_in};
ghost use Rattle.walk_frames.specs.View.{facts_in, shape_in};
ghost use Rattle.walk_steps.specs.State.{at_or};
ghost use Rattle.walk_steps.specs.Step as step;
ghost use Rattle.wp_base.specs.declared.kinds.Kind.{Kind};

use acsl_trees::Tree;
use annotation_words::{Locals, Seen, SlotAt, kind_given};
use core_trees::Claim;
use program_trees::Behavior;
use qed_terms::Formula;
use std::alloc::Global;
use step_walks::{GoalSink, Place, State, ask};
use value_words::result_slot;
use walk_frames::{
    Asked, Broken, Frame, Labels, Texts, ask_each, broken_place, claim_in, claim_under, sizes_in,
    slots_at,
};
use wp_base::{Line, List, NoMemory};

// ---- where it returns

// Parameters have their values at entry, which is the last state that is remembered.
fn return_labels<'a>(frame: Frame<'a>, state: &'a State) -> Result<Labels<'a>, NoMemory>
    ensures { (k : ℕ → Kind) (texts : terms.Texts) (a : acsl.Tree) → IfOk result (λ labels. reading_in (facts_in frame.entry) texts labels a ≡ return_over (facts_in frame.entry) (shape_in frame.entry k) texts.called (texts.binders a) (at_or [] (states (view_state state.now)) 0) (at_or [] (states (view_state state.now)) 1)) }
{
    let now = slots_at(state, 0);
    let before = slots_at(state, 1);
    let at = result_slot(sizes_in(frame))?;
    Ok(Labels {
        here: Seen {
            file: now,
            locals: Locals::Slots(frame.variables, before),
        },
        pre: Seen {
            file: before,
            locals: Locals::Slots(frame.variables, before),
        },
        post: Seen {
            file: now,
            locals: Locals::Slots(frame.variables, before),
        },
        loop_entry: Seen {
            file: before,
            locals: Locals::Slots(frame.variables, before),
        },
        result: Some(SlotAt {
            slots: now,
            at,
            kind: kind_given(frame.result),
        }),
    })
}

// The formula of a promise.
fn promise_at<'a, T: Texts>(
    alloc: Global,
    frame: Frame<'a>,
    texts: &T,
    tree: &Tree,
    state: &State,
) -> Result<Formula, NoMemory>
    ensures { (k : ℕ → Kind) → IfOk result (λ made. formula_tree made ≡ fill (states (view_state state.now)) (claim_tree (facts_in frame.entry) (shape_in frame.entry k) (T.text texts.now) (return_reading (facts_in frame.entry) (shape_in frame.entry k) (T.text texts.now) 1) (view_tree tree.now))) }
{
    let labels = return_labels(frame, state)?;
    claim_in(alloc, frame.facts, texts, labels, tree)
}

// A promise, where the behavior's assumptions held at entry.
fn promise_asked<'a, T: Texts>(
    alloc: Global,
    frame: Frame<'a>,
    texts: &T,
    is_plain: bool,
    behavior: &Behavior,
    claim: &Claim,
    state: &State,
) -> Result<Asked, NoMemory>
    ensures { (m : sense.World) (k : ℕ → Kind) → IfOk result (λ made. view_asked made ≡ written_check (states (view_state state.now)) (spec.ensure_check m (facts_in frame.entry) (shape_in frame.entry k) (T.text texts.now) is_plain (view_behavior behavior.now) (view_claim claim.now))) }
{
    let place = broken_place(Broken::Ensures, claim.line);
    let promise = promise_at(alloc, frame, texts, &claim.what, state)?;
    let under = claim_under(alloc, frame, texts, 1, is_plain, behavior, promise, state)?;
    Ok(Asked {
        place,
        claim: under,
    })
}

// The promises of a behavior.
fn put_behavior<'a, T: Texts>(
    alloc: Global,
    frame: Frame<'a>,
    texts: &T,
    is_plain: bool,
    behavior: &Behavior,
    state: &State,
    made: &mut List<Asked>,
) -> Result<(), NoMemory>
    ensures { (m : sense.World) (k : ℕ → Kind) → OnOk result (map view_asked made.new ≡ map view_asked made.old ++ written_checks (states (view_state state.now)) (spec.ensure_checks m (facts_in frame.entry) (shape_in frame.entry k) (T.text texts.now) is_plain (view_behavior behavior.now))) }
{
    for claim in behavior.ensures_.as_slice() {
        let asked = promise_asked(alloc, frame, texts, is_plain, behavior, claim, state)?;
        made.push(asked)?;
    }
    Ok(())
}

// Those of all behaviors.
fn put_behaviors<'a, T: Texts>(
    alloc: Global,
    frame: Frame<'a>,
    texts: &T,
    state: &State,
    made: &mut List<Asked>,
) -> Result<(), NoMemory>
    ensures { (m : sense.World) (k : ℕ → Kind) → OnOk result (map view_asked made.new ≡ map view_asked made.old ++ written_checks (states (view_state state.now)) (spec.all_ensured m (facts_in frame.entry) (shape_in frame.entry k) (T.text texts.now) (view_contract frame.entry.contract.now).behaviors)) }
{
    for behavior in frame.contract.behaviors.as_slice() {
        put_behavior(alloc, frame, texts, false, behavior, state, made)?;
    }
    Ok(())
}

/// Where the function returns its promises are asked. The state in which it was entered is the last one that is remembered.
pub fn ask_promises<'a, T: Texts, S: GoalSink>(
    alloc: Global,
    frame: Frame<'a>,
    texts: &T,
    state: &mut State,
    sink: &mut S,
) -> Result<(), NoMemory>
    ensures { (first : S) (m : sense.World) (k : ℕ → Kind) → OnOk result (Walks frame.entry.bases.now (step.ask (spec.ensure_checks m (facts_in frame.entry) (shape_in frame.entry k) (T.text texts.now) true (view_contract frame.entry.contract.now).plain ++ spec.all_ensured m (facts_in frame.entry) (shape_in frame.entry k) (T.text texts.now) (view_contract frame.entry.contract.now).behaviors)) (view_state state.old) (view_state state.new) (S.fits first sink.old) (S.fits first sink.new) true) }
{
    let mut checks = List::new(alloc);
    put_behavior(
        alloc,
        frame,
        texts,
        true,
        &frame.contract.plain,
        state,
        &mut checks,
    )?;
    put_behaviors(alloc, frame, texts, state, &mut checks)?;
    ask_each(checks, state, sink)
}

// ---- where its body ends

/// The end of a body that gives a result isn't come to. Answers whether the function goes on there.
pub fn end_body<'a, S: GoalSink>(
    frame: Frame<'a>,
    line: Line,
    state: &mut State,
    sink: &mut S,
) -> Result<bool, NoMemory>
    ensures { (first : S) (m : sense.World) (k : ℕ → Kind) (texts : terms.Texts) → IfOk result (λ goes. Walks frame.entry.bases.now (spec.ending m (facts_in frame.entry) (shape_in frame.entry k) texts frame.entry.result line) (view_state state.old) (view_state state.new) (S.fits first sink.old) (S.fits first sink.new) goes) }
{
    match frame.result {
        None => Ok(true),
        Some(_) => {
            ask(Place { kind: 8, line }, Formula::False, state, sink)?;
            Ok(false)
        }
    }
}
