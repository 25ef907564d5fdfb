// How many temporaries a function has.
ghost use Rattle.std.specs.Prelude.{◌≡◌};
ghost use Rattle.checked_trees.specs.View.{view_goal, view_step, view_steps};
ghost use Rattle.plain_words.specs.Temporaries as spec;

use checked_trees::{Goal, Step};

// At least so many.
fn raise(most: usize, to: usize) -> usize
    ensures { result ≡ spec.greater most to }
{
    if most < to { to } else { most }
}

fn raise_by_goal(to: &Goal<'_>, most: usize) -> usize
    ensures { result ≡ spec.greater most (spec.temporaries_of (view_goal to.now)) }
{
    match to {
        Goal::Temporary(number) => raise(most, *number as usize + 1),
        Goal::Nowhere | Goal::Place(_, _, _, _, _) | Goal::Variable(_) => raise(most, 0),
    }
}

#[cycle(temporaries)]
#[tactic(auto, using(checked_trees::proofs::Equations::step_laws, crate::proofs::Greatest::greatest))]
fn raise_by(step: &Step<'_>, most: usize) -> usize
    ensures { result ≡ spec.greater most (spec.temporaries_by (view_step step.now)) }
{
    match step {
        Step::Set(_, number, _) => raise(most, *number as usize + 1),
        Step::Call(_, to, _, _, _) => raise_by_goal(to, most),
        Step::Branch(_, _, first, second) => {
            let most = raise_by_all(first.as_slice(), most);
            raise_by_all(second.as_slice(), most)
        }
        Step::Repeat(_, body) => raise_by_all(body.as_slice(), most),
        Step::Around(body) => raise_by_all(body.as_slice(), most),
        Step::Scope(_, body) => raise_by_all(body.as_slice(), most),
        Step::Store(_, _, _, _, _) => raise(most, 0),
        Step::Start(_, _, _) => raise(most, 0),
        Step::Exit(_) => raise(most, 0),
        Step::Give(_, _) => raise(most, 0),
        Step::Claim(_) => raise(most, 0),
    }
}

#[cycle(temporaries)]
fn raise_by_all(steps: &[Step<'_>], most: usize) -> usize
    ensures { result ≡ spec.greater most (spec.temporaries_in (view_steps steps.now)) }
{
    let mut greatest = most;
    for step in steps {
        greatest = raise_by(step, greatest);
    }
    greatest
}

/// One more than the greatest number of a temporary that is set, and none where none is set.
#[tactic(auto, using(crate::proofs::Greatest::from_none))]
pub fn temporaries_in(steps: &[Step<'_>]) -> usize
    ensures { result ≡ spec.temporaries_in (view_steps steps.now) }
{
    raise_by_all(steps, 0)
}
