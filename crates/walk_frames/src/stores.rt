// Writes to objects.
ghost use Rattle.std.specs.Prelude.{◌≡◌, ℕ, List, IfOk};
ghost use Rattle.plain_states.specs.Slots as slots;
ghost use Rattle.program_steps.specs.Leaves.{closed, fill};
ghost use Rattle.program_steps.specs.Temporaries.{Temporaries};
ghost use Rattle.program_steps.specs.Words as words;
ghost use Rattle.program_trees.specs.View.{view_contract};
ghost use Rattle.qed_terms.specs.Meaning as sense;
ghost use Rattle.qed_terms.specs.Tree.{Tree};
ghost use Rattle.qed_terms.specs.View.{term_tree};
ghost use Rattle.step_walks.specs.View.{view_state};
ghost use Rattle.step_walks.specs.Walks.{Walks, states};
ghost use Rattle.value_words.specs.View.{view_sizes};
ghost use Rattle.walk_frames.specs.View.{facts_in, shape_in, view_point};
ghost use Rattle.walk_frames.specs.Words.{put_word};
ghost use Rattle.wp_base.specs.declared.kinds.Kind.{Kind};

use crate::asks::ask_all;
use crate::clauses::write_formulas;
use crate::frames::{Frame, Point, Texts};
use crate::places::{Broken, broken_place};
use crate::slots::{set_to, sizes_in};
use qed_terms::Term;
use std::alloc::Global;
use step_walks::{GoalSink, State};
use typed_prog::{Root, Variable};
use value_words::Sizes;
use wp_base::{Line, NoMemory};

// The number of a variable among those of the file and of the function.
fn number_of(sizes: Sizes, variable: Variable) -> Result<usize, NoMemory>
    ensures { IfOk result (λ number. number ≡ words.variable_number (view_sizes sizes) variable) }
{
    match variable {
        Variable::Global(number) => Ok(number as usize),
        Variable::Local(number) => sizes.globals.checked_add(number as usize).ok_or(NoMemory),
    }
}

/// An object gets a value, which the set in force has to allow. There is no way on from a place to which a pointer leads.
pub fn put_to<'a, T: Texts, S: GoalSink>(
    alloc: Global,
    frame: Frame<'a>,
    texts: &T,
    point: Point<'a>,
    line: Line,
    root: Root,
    value: Term,
    state: &mut State,
    sink: &mut S,
) -> Result<bool, NoMemory>
    ensures { (first : S) (m : sense.World) (k : ℕ → Kind) (os : List Temporaries) (t : Tree) → fill (states (view_state state.old)) (closed t) ≡ term_tree value → IfOk result (λ goes. Walks frame.entry.bases.now (put_word m (facts_in frame.entry) (shape_in frame.entry k) (T.text texts.now) (view_contract frame.entry.contract.now) (view_point frame.entry os point.entry) line root t) (view_state state.old) (view_state state.new) (S.fits first sink.old) (S.fits first sink.new) goes) }
{
    let Root::Variable(variable) = root else {
        return Ok(false);
    };
    let asked = write_formulas(alloc, frame, texts, point, variable, state)?;
    ask_all(broken_place(Broken::Assigns, line), asked, state, sink)?;
    let number = number_of(sizes_in(frame), variable)?;
    set_to(alloc, number, value, state)?;
    Ok(true)
}
