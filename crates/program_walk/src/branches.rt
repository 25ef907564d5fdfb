// Branches: what stands before their arms, and between them.
ghost use Rattle.std.specs.Prelude.{◌≡◌, ℕ, List, IfOk};
ghost use Rattle.checked_trees.specs.View.{view_steps};
ghost use Rattle.program_steps.specs.Temporaries.{Temporaries};
ghost use Rattle.program_walk.specs.Branches.{Tests};
ghost use Rattle.qed_terms.specs.Meaning as sense;
ghost use Rattle.step_walks.specs.View.{view_state};
ghost use Rattle.typed_prog.specs.View.{view_value};
ghost use Rattle.value_words.specs.Laws.{IsClosed};
ghost use Rattle.walk_frames.specs.View.{facts_in, shape_in, variables_in};
ghost use Rattle.walk_live.specs.Bits.{all_bits, bits};
ghost use Rattle.wp_base.specs.declared.kinds.Kind.{Kind};

use checked_trees::Step;
use std::alloc::Global;
use step_walks::{Arm, GoalSink, State};
use typed_prog::Value;
use value_words::ValueTerm;
use walk_frames::{Frame, walk_value};
use walk_live::{ArmSets, in_arms};
use wp_base::{List, NoMemory};

/// The value of a test, and which temporaries aren't used in each arm.
#[derive(Drop)]
pub struct Tested {
    pub sets: ArmSets,
    pub made: ValueTerm,
}

/// What the first arm came to, and whether its end is reached.
#[derive(Drop)]
pub struct FirstArm {
    pub goes: bool,
    pub arm: Arm,
}

/// What a test asks for is asked.
pub(crate) fn walk_test<'a, S: GoalSink>(
    alloc: Global,
    frame: Frame<'a>,
    test: &Value,
    first: &[Step<'a>],
    second: &[Step<'a>],
    outs: &[List<bool>],
    after: &[bool],
    state: &mut State,
    sink: &mut S,
) -> Result<Tested, NoMemory>
    ensures { (start : S) (m : sense.World) (k : ℕ → Kind) (os : List Temporaries) (f : Temporaries) → outs.now ≡ all_bits frame.entry.temporaries os → after.now ≡ bits frame.entry.temporaries f → IsClosed (facts_in frame.entry) (shape_in frame.entry k) (view_value test.now) → IfOk result (λ tested. Tests m frame.entry os f (view_value test.now) (view_steps first.now) (view_steps second.now) tested (view_state state.old) (view_state state.new) (S.fits start sink.old) (S.fits start sink.new)) }
{
    let sets = in_arms(alloc, test, first, second, outs, after)?;
    let made = walk_value(alloc, frame, test, state, sink)?;
    Ok(Tested { sets, made })
}
