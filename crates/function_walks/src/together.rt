// What behaviors say of each other, asked where the function is entered (ACSL 2.3.3).
ghost use Rattle.std.specs.Prelude.{◌≡◌, ◌∷◌, ◌++◌, [], ℕ, List, map, slice_get, true, IfOk, OnOk};
ghost use Rattle.std.specs.Option.{option_map};
ghost use Rattle.c_runs.specs.Claims.{in_order};
ghost use Rattle.function_walks.specs.Ending.{saying, says, written_checks};
ghost use Rattle.program_steps.specs.Functions as spec;
ghost use Rattle.program_steps.specs.Leaves.{fill};
ghost use Rattle.program_trees.specs.View.{view_behavior, view_contract, view_together};
ghost use Rattle.qed_terms.specs.Meaning as sense;
ghost use Rattle.qed_terms.specs.View.{formula_tree};
ghost use Rattle.step_walks.specs.View.{view_state};
ghost use Rattle.step_walks.specs.Walks.{Walks, states};
ghost use Rattle.walk_frames.specs.Asked.{view_asked, written_check};
ghost use Rattle.walk_frames.specs.View.{facts_in, shape_in};
ghost use Rattle.walk_steps.specs.Step as step;
ghost use Rattle.wp_base.specs.declared.kinds.Kind.{Kind};

use program_trees::{Behavior, Together};
use qed_terms::Formula;
use std::alloc::Global;
use step_walks::{GoalSink, State};
use walk_frames::{Asked, Broken, Frame, Texts, all_of, ask_each, assumed_at, broken_place};
use wp_base::{List, NoMemory};

// ---- lists of formulas

// One stands alone, and none is `false`.
#[tactic(auto, using(crate::proofs::Choices::no_choice, crate::proofs::Choices::only_choice, crate::proofs::Choices::many_choices))]
fn any_of(parts: List<Formula>) -> Formula
    ensures { formula_tree result ≡ spec.any_of (map formula_tree parts) }
{
    if parts.len() > 1 {
        return Formula::or(parts);
    }
    let mut parts = parts.into_vec();
    if parts.is_empty() {
        Formula::False
    } else {
        parts.remove(0)
    }
}

// These two aren't true at once.
fn not_both(alloc: Global, first: &Formula, second: &Formula) -> Result<Formula, NoMemory>
    ensures { IfOk result (λ made. formula_tree made ∷ [] ≡ spec.not_both (formula_tree first.now) (formula_tree second.now ∷ [])) }
{
    let first = first.copy(alloc)?;
    let second = second.copy(alloc)?;
    let both = Formula::both(alloc, first, second)?;
    Formula::negation(alloc, both)
}

// The first one isn't true with any other.
fn put_not_both(
    alloc: Global,
    first: &Formula,
    others: &[Formula],
    made: &mut List<Formula>,
) -> Result<(), NoMemory>
    ensures { OnOk result (map formula_tree made.new ≡ map formula_tree made.old ++ spec.not_both (formula_tree first.now) (map formula_tree others.now)) }
{
    for other in others {
        let both = not_both(alloc, first, other)?;
        made.push(both)?;
    }
    Ok(())
}

// Each two of them aren't true at once.
#[tactic(auto, using(crate::proofs::Choices::no_two_step))]
fn no_two(alloc: Global, parts: &[Formula]) -> Result<List<Formula>, NoMemory>
    ensures { IfOk result (λ made. map formula_tree made ≡ spec.no_two (map formula_tree parts.now)) }
{
    let mut made = List::new(alloc);
    let mut rest = parts;
    while let Some((first, others)) = rest.split_first() {
        put_not_both(alloc, first, others, &mut made)?;
        rest = others;
    }
    Ok(made)
}

// ---- behaviors

// What a behavior assumes of the function's entry.
fn behavior_formula<'a, T: Texts>(
    alloc: Global,
    frame: Frame<'a>,
    texts: &T,
    behavior: &Behavior,
    state: &State,
) -> Result<Formula, NoMemory>
    ensures { (m : sense.World) (k : ℕ → Kind) → IfOk result (λ made. formula_tree made ≡ fill (states (view_state state.now)) (spec.behavior_tree m (facts_in frame.entry) (shape_in frame.entry k) (T.text texts.now) (view_behavior behavior.now))) }
{
    assumed_at(alloc, frame, texts, 1, behavior.assumes.as_slice(), state)
}

// That of the behavior with this number.
fn named_formula<'a, T: Texts>(
    alloc: Global,
    frame: Frame<'a>,
    texts: &T,
    number: u32,
    state: &State,
) -> Result<Formula, NoMemory>
    ensures { (m : sense.World) (k : ℕ → Kind) → IfOk result (λ made. formula_tree made ≡ fill (states (view_state state.now)) (spec.named_tree m (facts_in frame.entry) (shape_in frame.entry k) (T.text texts.now) (slice_get (view_contract frame.entry.contract.now).behaviors number))) }
{
    match frame.contract.behaviors.get(number as usize) {
        Some(behavior) => behavior_formula(alloc, frame, texts, behavior, state),
        None => Ok(Formula::False),
    }
}

// Those of all behaviors.
fn all_formulas<'a, T: Texts>(
    alloc: Global,
    frame: Frame<'a>,
    texts: &T,
    state: &State,
) -> Result<List<Formula>, NoMemory>
    ensures { (m : sense.World) (k : ℕ → Kind) → IfOk result (λ made. map formula_tree made ≡ map (fill (states (view_state state.now))) (spec.named_trees m (facts_in frame.entry) (shape_in frame.entry k) (T.text texts.now) (view_contract frame.entry.contract.now).behaviors [])) }
{
    let mut made = List::new(alloc);
    for behavior in frame.contract.behaviors.as_slice() {
        let formula = behavior_formula(alloc, frame, texts, behavior, state)?;
        made.push(formula)?;
    }
    Ok(made)
}

// Those of the behaviors with these numbers; none are named for all of them.
fn named_formulas<'a, T: Texts>(
    alloc: Global,
    frame: Frame<'a>,
    texts: &T,
    numbers: &[u32],
    state: &State,
) -> Result<List<Formula>, NoMemory>
    ensures { (m : sense.World) (k : ℕ → Kind) → IfOk result (λ made. map formula_tree made ≡ map (fill (states (view_state state.now))) (spec.named_trees m (facts_in frame.entry) (shape_in frame.entry k) (T.text texts.now) (view_contract frame.entry.contract.now).behaviors numbers.now)) }
{
    if numbers.is_empty() {
        return all_formulas(alloc, frame, texts, state);
    }
    let mut made = List::new(alloc);
    for number in numbers {
        let formula = named_formula(alloc, frame, texts, *number, state)?;
        made.push(formula)?;
    }
    Ok(made)
}

// ---- what is asked

// That one of the behaviors is there, or that no two of them are at once.
fn together_asked<'a, T: Texts>(
    alloc: Global,
    frame: Frame<'a>,
    texts: &T,
    together: &Together,
    state: &State,
) -> Result<Asked, NoMemory>
    ensures { (m : sense.World) (k : ℕ → Kind) → IfOk result (λ made. view_asked made ≡ written_check (states (view_state state.now)) (spec.together_check m (facts_in frame.entry) (shape_in frame.entry k) (T.text texts.now) (view_contract frame.entry.contract.now).behaviors (view_together together.now))) }
{
    let formulas = named_formulas(alloc, frame, texts, together.numbers.as_slice(), state)?;
    if together.is_complete {
        let place = broken_place(Broken::Complete, together.line);
        let claim = any_of(formulas);
        return Ok(Asked { place, claim });
    }
    let place = broken_place(Broken::Disjoint, together.line);
    let parts = no_two(alloc, formulas.as_slice())?;
    let claim = all_of(parts);
    Ok(Asked { place, claim })
}

fn is_said(together: &Together, is_complete: bool) -> bool
    ensures { result ≡ says is_complete (view_together together.now) }
{
    if is_complete {
        together.is_complete
    } else {
        !together.is_complete
    }
}

// This one, where it says the one of these two things.
#[tactic(auto, using(crate::proofs::Behaviors::not_here))]
fn put_said<'a, T: Texts>(
    alloc: Global,
    frame: Frame<'a>,
    texts: &T,
    is_complete: bool,
    together: &Together,
    state: &State,
    made: &mut List<Asked>,
) -> Result<(), NoMemory>
    ensures { (m : sense.World) (k : ℕ → Kind) → OnOk result (map view_asked made.new ≡ map view_asked made.old ++ written_checks (states (view_state state.now)) (map (spec.together_check m (facts_in frame.entry) (shape_in frame.entry k) (T.text texts.now) (view_contract frame.entry.contract.now).behaviors) (saying is_complete (view_together together.now ∷ [])))) }
{
    if !is_said(together, is_complete) {
        return Ok(());
    }
    let asked = together_asked(alloc, frame, texts, together, state)?;
    made.push(asked)?;
    Ok(())
}

// Those that say it, in the order of the text.
fn put_together<'a, T: Texts>(
    alloc: Global,
    frame: Frame<'a>,
    texts: &T,
    is_complete: bool,
    state: &State,
    made: &mut List<Asked>,
) -> Result<(), NoMemory>
    ensures { (m : sense.World) (k : ℕ → Kind) → OnOk result (map view_asked made.new ≡ map view_asked made.old ++ written_checks (states (view_state state.now)) (map (spec.together_check m (facts_in frame.entry) (shape_in frame.entry k) (T.text texts.now) (view_contract frame.entry.contract.now).behaviors) (saying is_complete (view_contract frame.entry.contract.now).together))) }
{
    for together in frame.contract.together.as_slice() {
        put_said(alloc, frame, texts, is_complete, together, state, made)?;
    }
    Ok(())
}

/// What behaviors say of each other is asked, where the state in which the function was entered is the last one that is remembered.
pub fn ask_together<'a, T: Texts, S: GoalSink>(
    alloc: Global,
    frame: Frame<'a>,
    texts: &T,
    state: &mut State,
    sink: &mut S,
) -> Result<(), NoMemory>
    ensures { (first : S) (m : sense.World) (k : ℕ → Kind) → OnOk result (Walks frame.entry.bases.now (step.ask (map (spec.together_check m (facts_in frame.entry) (shape_in frame.entry k) (T.text texts.now) (view_contract frame.entry.contract.now).behaviors) (in_order (view_contract frame.entry.contract.now).together))) (view_state state.old) (view_state state.new) (S.fits first sink.old) (S.fits first sink.new) true) }
{
    let mut checks = List::new(alloc);
    put_together(alloc, frame, texts, true, state, &mut checks)?;
    put_together(alloc, frame, texts, false, state, &mut checks)?;
    ask_each(checks, state, sink)
}
