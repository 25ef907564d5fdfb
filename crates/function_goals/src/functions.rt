// The goals of a function.
ghost use Rattle.std.specs.Prelude.{◌≡◌, [], ℕ, List, OnOk};
ghost use Rattle.checked_trees.specs.View.{view_checked_function, view_checked_program};
ghost use Rattle.function_goals.specs.Whole.{written_in};
ghost use Rattle.plain_runs.specs.Fitting.{shape_of};
ghost use Rattle.program_goals.specs.Words.{start_in, word_of};
ghost use Rattle.qed_terms.specs.Meaning as sense;
ghost use Rattle.walk_frames.specs.Words.{StepsClosed};
ghost use Rattle.walk_steps.specs.Laws.{goals};
ghost use Rattle.wp_base.specs.declared.kinds.Kind.{Kind};

use crate::bodies::walk_entered;
use checked_trees::{CheckedFunction, CheckedProgram};
use function_walks::enter;
use std::alloc::Global;
use step_walks::GoalSink;
use walk_frames::{Frame, Texts};
use wp_base::{List, NoMemory, Str};

/// The goals of a function of a program, by its number; it has so many temporaries, and its slots have these base names.
pub fn walk_function<'a, T: Texts, S: GoalSink>(
    alloc: Global,
    program: &CheckedProgram<'a>,
    number: u32,
    function: &CheckedFunction<'a>,
    temporaries: usize,
    bases: &'a List<Str>,
    texts: &T,
    sink: &mut S,
) -> Result<(), NoMemory>
    ensures { (first : S) (m : sense.World) (k : ℕ → Kind) → StepsClosed (view_checked_program program.now).facts (shape_of (view_checked_function function.now) temporaries k) (view_checked_function function.now).body → S.fits first sink.old [] → OnOk result (S.fits first sink.new (goals bases.now (start_in m (view_checked_program program.now) (T.text texts.now) number (view_checked_function function.now) (written_in temporaries k bases.now)) (word_of m (view_checked_program program.now) (T.text texts.now) number (view_checked_function function.now) (written_in temporaries k bases.now)))) }
{
    let frame = Frame {
        bases,
        facts: program.facts,
        variables: function.variables,
        result: function.result,
        contract: function.contract,
        number,
        temporaries,
    };
    let mut state = enter(alloc, frame, texts, function.params)?;
    walk_entered(
        alloc,
        frame,
        program.functions.as_slice(),
        texts,
        function.body.as_slice(),
        function.end,
        &mut state,
        sink,
    )?;
    Ok(())
}
