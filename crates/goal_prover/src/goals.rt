// The verdict on a goal.
ghost use Rattle.std.specs.Prelude.{◌≡◌, true, map, IfOk};
ghost use Rattle.qed_terms.specs.Setting.{is_regular};
ghost use Rattle.qed_terms.specs.Tree.{goal_of};
ghost use Rattle.qed_terms.specs.View.{formula_tree, view_setting};
ghost use Rattle.prover.specs.Prover.{IsProverVerdict};

use known_bounds::is_told_by;
use prover::prove;
use qed_terms::{Formula, Setting, Verdict};
use std::alloc::Global;
use walk_words::copy_known;
use wp_base::{List, NoMemory};

// The goal as one formula.
#[tactic(auto, using(crate::proofs::Telling::as_goal))]
fn goal_formula(alloc: Global, known: &[Formula], claim: &Formula) -> Result<Formula, NoMemory>
    ensures { IfOk result (λ formula. formula_tree formula ≡ goal_of (map formula_tree known.now) (formula_tree claim.now)) }
{
    let known = Formula::And(List::from_vec(copy_known(alloc, known)?));
    let claim = claim.copy(alloc)?;
    Formula::implication(alloc, known, claim)
}

/// The verdict on the goal that a claim holds where all that is known does, in a regular setting. A claim that the bounds of names settle is proved by
/// these, which are read off in one turn over what is known; any other goal as `prove` tells.
#[tactic(auto, using(crate::proofs::Telling::told_is_proved))]
pub fn prove_goal(
    alloc: Global,
    known: &[Formula],
    claim: &Formula,
    fuel: u32,
    branches: u32,
    world: &Setting,
) -> Result<Verdict, NoMemory>
    requires { is_regular (view_setting world.now) ≡ true }
    ensures { IfOk result (λ verdict. IsProverVerdict (view_setting world.now) fuel branches (goal_of (map formula_tree known.now) (formula_tree claim.now)) verdict) }
{
    if is_told_by(alloc, known, claim)? {
        return Ok(Verdict::Proved);
    }
    let formula = goal_formula(alloc, known, claim)?;
    let verdict = prove(alloc, &formula, fuel, branches, world)?;
    Ok(verdict)
}
