// The terms of arguments.
ghost use Rattle.std.specs.Prelude.{◌≡◌, ℕ, map, IfOk};
ghost use Rattle.call_walks.specs.Passed.{Passed};
ghost use Rattle.call_walks.specs.View.{numbers_to};
ghost use Rattle.qed_terms.specs.Meaning as sense;
ghost use Rattle.qed_terms.specs.View.{term_tree};
ghost use Rattle.step_walks.specs.View.{view_state};
ghost use Rattle.typed_prog.specs.Tree.{values_of};
ghost use Rattle.typed_prog.specs.View.{view_values};
ghost use Rattle.value_words.specs.Laws.{AreClosed};
ghost use Rattle.value_words.specs.View.{view_terms};
ghost use Rattle.walk_frames.specs.View.{facts_in, shape_in, variables_in};
ghost use Rattle.wp_base.specs.declared.kinds.Kind.{Kind};

use qed_terms::Term;
use std::alloc::Global;
use step_walks::{GoalSink, State};
use typed_prog::Value;
use value_words::ValueTerm;
use walk_frames::{Frame, operand_number, walk_values};
use wp_base::{List, NoMemory};

// The numbers of so many operands.
#[tactic(auto, using(crate::proofs::Passing::numbers_next))]
fn numbers_to(alloc: Global, terms: &[ValueTerm], count: usize) -> Result<List<Term>, NoMemory>
    ensures { IfOk result (λ made. map term_tree made ≡ numbers_to (view_terms terms.now) count) }
{
    let mut made = List::new(alloc);
    for at in 0..count {
        made.push(operand_number(alloc, terms, at)?)?;
    }
    Ok(made)
}

/// What arguments ask for is asked; then so many terms of them are made.
pub(crate) fn walk_arguments<'a, S: GoalSink>(
    alloc: Global,
    frame: Frame<'a>,
    count: usize,
    values: &[Value],
    state: &mut State,
    sink: &mut S,
) -> Result<List<Term>, NoMemory>
    ensures { (first : S) (m : sense.World) (k : ℕ → Kind) → AreClosed (facts_in frame.entry) (shape_in frame.entry k) (values_of (view_values values.now)) → IfOk result (λ made. Passed m frame.entry.bases.now (facts_in frame.entry) (variables_in frame.entry) (values_of (view_values values.now)) count (map term_tree made) (view_state state.old) (view_state state.new) (S.fits first sink.old) (S.fits first sink.new)) }
{
    let terms = walk_values(alloc, frame, values, state, sink)?;
    let made = numbers_to(alloc, terms.as_slice(), count)?;
    Ok(made)
}
