// Whether the annotations in a body are over plain integers (ACSL 2.4).
ghost use Rattle.std.specs.Prelude.{◌≡◌, ◌&&◌};
ghost use Rattle.checked_trees.specs.View.{view_step, view_steps};
ghost use Rattle.core_trees.specs.View.{view_variables};
ghost use Rattle.plain_annotations.specs.Annotated as spec;
ghost use Rattle.plain_trees.specs.Taking.{shape_with, taking};
ghost use Rattle.program_trees.specs.View.{view_facts};

use crate::claims::is_claim;
use crate::contracts::is_loop;
use checked_trees::Step;
use core_trees::FunctionVariable;
use program_trees::Facts;
use wp_base::CellKind;

#[cycle(step_claims)]
#[tactic(auto, using(checked_trees::proofs::Equations::step_laws))]
fn step_claims(
    step: &Step<'_>,
    facts: &Facts,
    takes: &[Option<usize>],
    own: &[FunctionVariable],
    gives: Option<CellKind>,
) -> bool
    ensures { result ≡ spec.step_claims (view_facts facts.now) (taking takes.now) (shape_with (view_variables own.now) gives) (view_step step.now) }
{
    match step {
        Step::Claim(claim) => is_claim(facts, takes, own, false, &claim.what),
        Step::Repeat(claims, body) => {
            is_loop(facts, takes, own, gives, claims)
                && all_claim(body.as_slice(), facts, takes, own, gives)
        }
        Step::Branch(_, _, first, second) => {
            all_claim(first.as_slice(), facts, takes, own, gives)
                && all_claim(second.as_slice(), facts, takes, own, gives)
        }
        Step::Around(body) => all_claim(body.as_slice(), facts, takes, own, gives),
        Step::Scope(_, body) => all_claim(body.as_slice(), facts, takes, own, gives),
        Step::Set(_, _, _) => true,
        Step::Store(_, _, _, _, _) => true,
        Step::Start(_, _, _) => true,
        Step::Call(_, _, _, _, _) => true,
        Step::Exit(_) => true,
        Step::Give(_, _) => true,
    }
}

/// The annotations in statements of a function with these variables and this result.
#[cycle(step_claims)]
#[tactic(auto, using(crate::proofs::Passing::step_laws))]
pub(crate) fn all_claim(
    steps: &[Step<'_>],
    facts: &Facts,
    takes: &[Option<usize>],
    own: &[FunctionVariable],
    gives: Option<CellKind>,
) -> bool
    ensures { result ≡ spec.all_claim (view_facts facts.now) (taking takes.now) (shape_with (view_variables own.now) gives) (view_steps steps.now) }
{
    for at in 0..steps.len() {
        let fits = step_claims(&steps[at], facts, takes, own, gives);
        if !fits {
            return false;
        }
    }
    true
}
