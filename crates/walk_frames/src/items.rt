// What expressions ask for, and terms of their values.
ghost use Rattle.std.specs.Prelude.{◌≡◌, ◌∷◌, [], ℕ, List, map, true, IfOk, OnOk};
ghost use Rattle.std.specs.List.{list_all};
ghost use Rattle.program_steps.specs.Typed.{is_closed_item};
ghost use Rattle.program_steps.specs.Words.{items_step};
ghost use Rattle.walk_frames.specs.Evaluated.{Evaluated, EvaluatedAll, made_item};
ghost use Rattle.walk_frames.specs.View.{facts_in, shape_in, variables_in};
ghost use Rattle.qed_terms.specs.Meaning as sense;
ghost use Rattle.qed_terms.specs.View.{term_tree};
ghost use Rattle.step_walks.specs.View.{view_state};
ghost use Rattle.step_walks.specs.Walks.{Walks, states};
ghost use Rattle.typed_prog.specs.Tree.{values_of};
ghost use Rattle.typed_prog.specs.View.{view_value, view_values};
ghost use Rattle.value_terms.specs.Readings.{number_term, term_at};
ghost use Rattle.value_terms.specs.Words as words;
ghost use Rattle.value_words.specs.Laws.{AreClosed, IsClosed};
ghost use Rattle.value_words.specs.OverSlots.{fill_item};
ghost use Rattle.value_words.specs.View.{view_item, view_items, view_term, view_terms};
ghost use Rattle.wp_base.specs.declared.kinds.Kind.{Kind};

use crate::frames::Frame;
use crate::places::undefined_place;
use qed_terms::Term;
use std::alloc::Global;
use step_walks::{GoalSink, State, ask, know};
use typed_prog::Value;
use value_words::{Item, ValueTerm, word_of, words_of};
use wp_base::NoMemory;

// An item is asked, or known.
fn walk_item<S: GoalSink>(item: Item, state: &mut State, sink: &mut S) -> Result<(), NoMemory>
    ensures { (first : S) (bases : List (List ℕ)) → OnOk result (Walks bases (made_item (view_item item)) (view_state state.old) (view_state state.new) (S.fits first sink.old) (S.fits first sink.new) true) }
{
    match item {
        Item::Asked(kind, line, formula) => ask(undefined_place(kind, line), formula, state, sink),
        Item::Known(formula) => {
            know(state, formula)?;
            Ok(())
        }
    }
}

/// Items, one after the other.
pub fn walk_items<S: GoalSink>(
    items: Vec<Item>,
    state: &mut State,
    sink: &mut S,
) -> Result<(), NoMemory>
    ensures { (first : S) (m : sense.World) (bases : List (List ℕ)) (is : List words.Item) → list_all is_closed_item is ≡ true → view_items items.items ≡ map (fill_item (states (view_state state.old))) is → OnOk result (Walks bases (items_step m is) (view_state state.old) (view_state state.new) (S.fits first sink.old) (S.fits first sink.new) true) }
{
    for item in items {
        walk_item(item, state, sink)?;
    }
    Ok(())
}

/// What an expression asks for is asked; then its value is made.
pub fn walk_value<'a, S: GoalSink>(
    alloc: Global,
    frame: Frame<'a>,
    value: &Value,
    state: &mut State,
    sink: &mut S,
) -> Result<ValueTerm, NoMemory>
    ensures { (first : S) (m : sense.World) (k : ℕ → Kind) → IsClosed (facts_in frame.entry) (shape_in frame.entry k) (view_value value.now) → IfOk result (λ made. Evaluated m frame.entry.bases.now (facts_in frame.entry) (variables_in frame.entry) (view_value value.now) (view_term made) (view_state state.old) (view_state state.new) (S.fits first sink.old) (S.fits first sink.new)) }
{
    let mut items = Vec::new(alloc);
    let made = word_of(
        alloc,
        frame.facts,
        frame.variables.as_slice(),
        state.world.slots.as_slice(),
        value,
        &mut items,
    )?;
    walk_items(items, state, sink)?;
    Ok(made)
}

/// What operands ask for is asked, one after the other; then their values are made.
pub fn walk_values<'a, S: GoalSink>(
    alloc: Global,
    frame: Frame<'a>,
    values: &[Value],
    state: &mut State,
    sink: &mut S,
) -> Result<Vec<ValueTerm>, NoMemory>
    ensures { (first : S) (m : sense.World) (k : ℕ → Kind) → AreClosed (facts_in frame.entry) (shape_in frame.entry k) (values_of (view_values values.now)) → IfOk result (λ made. EvaluatedAll m frame.entry.bases.now (facts_in frame.entry) (variables_in frame.entry) (values_of (view_values values.now)) (view_terms made.items) (view_state state.old) (view_state state.new) (S.fits first sink.old) (S.fits first sink.new)) }
{
    let mut items = Vec::new(alloc);
    let made = words_of(
        alloc,
        frame.facts,
        frame.variables.as_slice(),
        state.world.slots.as_slice(),
        values,
        &mut items,
    )?;
    walk_items(items, state, sink)?;
    Ok(made)
}

/// The number of an operand, 0 where there is none.
pub fn operand_number(alloc: Global, terms: &[ValueTerm], at: usize) -> Result<Term, NoMemory>
    ensures { IfOk result (λ made. term_tree made ≡ number_term (term_at (view_terms terms.now) at)) }
{
    if at < terms.len() {
        terms[at].number(alloc)
    } else {
        Ok(Term::number(0))
    }
}
