// Temporaries in statements.
ghost use Rattle.std.specs.Prelude.{◌≡◌, OnOk, ℕ, map};
ghost use Rattle.std.specs.Option.{option_map};
ghost use Rattle.checked_trees.specs.View.{view_checked_function, view_goal, view_step, view_steps};
ghost use Rattle.program_trees.specs.Files.{at};
ghost use Rattle.temporary_kinds.specs.Kinds as spec;
ghost use Rattle.temporary_kinds.specs.View.{Tells, results_in};
ghost use Rattle.typed_prog.specs.Tree.{values_of};
ghost use Rattle.typed_prog.specs.View.{view_value, view_values};

use crate::found::mention;
use crate::values::{kind_given, mention_given, mention_value, mention_values};
use checked_trees::{CheckedFunction, Goal, Step};
use typed_prog::Value;
use wp_base::{CellKind, NoMemory};

// What a function gives, by its number.
#[tactic(auto, using(crate::proofs::Statements::given_laws))]
fn result_of(functions: &[Option<CheckedFunction>], number: u32) -> Option<CellKind>
    ensures { result ≡ results_in functions.now number }
{
    let at = number as usize;
    if at >= functions.len() {
        return None;
    }
    match &functions[at] {
        None => None,
        Some(function) => function.result,
    }
}

// A temporary gets a value.
#[tactic(auto, using(crate::proofs::Telling::then_told))]
fn mention_set(
    number: u32,
    value: &Value,
    kinds: &mut Vec<Option<CellKind>>,
) -> Result<(), NoMemory>
    ensures { OnOk result (Tells kinds.old.items kinds.new.items (spec.set_kind number (view_value value.now)) (spec.set_count number (view_value value.now))) }
{
    mention_value(value, kinds)?;
    mention(kinds, number, Some(kind_given(&value.ty)))?;
    Ok(())
}

// Where what a call gives goes.
#[tactic(auto, using(crate::proofs::Telling::nothing_told))]
fn mention_goal(
    to: &Goal,
    given: Option<CellKind>,
    kinds: &mut Vec<Option<CellKind>>,
) -> Result<(), NoMemory>
    ensures { OnOk result (Tells kinds.old.items kinds.new.items (spec.goal_kind (view_goal to.now) given) (spec.goal_count (view_goal to.now))) }
{
    match to {
        Goal::Temporary(number) => {
            mention(kinds, *number, given)?;
            Ok(())
        }
        Goal::Place(_, _, _, _, operands) => {
            mention_values(operands.as_slice(), kinds)?;
            Ok(())
        }
        Goal::Nowhere => Ok(()),
        Goal::Variable(_) => Ok(()),
    }
}

#[tactic(auto, using(crate::proofs::Telling::then_told))]
fn mention_call(
    to: &Goal,
    given: Option<CellKind>,
    operands: &[Value],
    kinds: &mut Vec<Option<CellKind>>,
) -> Result<(), NoMemory>
    ensures { OnOk result (Tells kinds.old.items kinds.new.items (spec.call_kind (view_goal to.now) given (values_of (view_values operands.now))) (spec.call_count (view_goal to.now) (values_of (view_values operands.now)))) }
{
    mention_values(operands, kinds)?;
    mention_goal(to, given, kinds)?;
    Ok(())
}

#[cycle(mention_step)]
#[tactic(auto, using(checked_trees::proofs::Equations::step_laws, crate::proofs::Telling::nothing_told))]
fn mention_step(
    step: &Step,
    functions: &[Option<CheckedFunction>],
    kinds: &mut Vec<Option<CellKind>>,
) -> Result<(), NoMemory>
    ensures { OnOk result (Tells kinds.old.items kinds.new.items (spec.step_kind (results_in functions.now) (view_step step.now)) (spec.step_count (view_step step.now))) }
{
    match step {
        Step::Set(_, number, value) => mention_set(*number, value, kinds),
        Step::Store(_, _, _, _, operands) => mention_values(operands.as_slice(), kinds),
        Step::Start(_, _, value) => mention_value(value, kinds),
        Step::Call(_, to, function, _, operands) => {
            let given = result_of(functions, *function);
            mention_call(to, given, operands.as_slice(), kinds)
        }
        Step::Branch(_, test, first, second) => {
            mention_value(test, kinds)?;
            mention_steps(first.as_slice(), functions, kinds)?;
            mention_steps(second.as_slice(), functions, kinds)?;
            Ok(())
        }
        Step::Repeat(_, body) => mention_steps(body.as_slice(), functions, kinds),
        Step::Around(body) => mention_steps(body.as_slice(), functions, kinds),
        Step::Exit(_) => Ok(()),
        Step::Give(_, value) => mention_given(value, kinds),
        Step::Claim(_) => Ok(()),
        Step::Scope(_, body) => mention_steps(body.as_slice(), functions, kinds),
    }
}

/// Statements, one after the other.
#[cycle(mention_step)]
pub(crate) fn mention_steps(
    steps: &[Step],
    functions: &[Option<CheckedFunction>],
    kinds: &mut Vec<Option<CellKind>>,
) -> Result<(), NoMemory>
    ensures { OnOk result (Tells kinds.old.items kinds.new.items (spec.steps_kind (results_in functions.now) (view_steps steps.now)) (spec.steps_count (view_steps steps.now))) }
{
    for at in 0..steps.len() {
        mention_step(&steps[at], functions, kinds)?;
    }
    Ok(())
}
