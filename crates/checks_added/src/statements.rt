// Statements that have no others in them, with the checks that are asked before them.
ghost use Rattle.std.specs.Prelude.{◌≡◌, IfOk};
ghost use Rattle.std.specs.Option.{option_map};
ghost use Rattle.checked_trees.specs.View.{view_goal, view_step, view_steps};
ghost use Rattle.c_runs.specs.Adding as adding;
ghost use Rattle.c_runs.specs.Tree as checked;
ghost use Rattle.c_runs.specs.Core as core;
ghost use Rattle.core_trees.specs.View.{view_target, view_variables};
ghost use Rattle.c_runs.specs.Checks as checks;
ghost use Rattle.typed_prog.specs.Tree.{values_of};
ghost use Rattle.typed_prog.specs.View.{view_value, view_values};

use check_lists::{all_checks, checks_of, given_checks, place_checks};
use checked_trees::{Goal, Step};
use core_trees::{FunctionVariable, Target};
use std::alloc::Global;
use typed_prog::{CoreType, Path, Value};
use wp_base::{Line, List, NoMemory};

fn goal_of<'a>(
    alloc: Global,
    variables: &[FunctionVariable],
    to: &'a Target,
) -> Result<Goal<'a>, NoMemory>
    ensures { IfOk result (λ made. view_goal made ≡ adding.goal_of (view_variables variables.now) (view_target to.now)) }
{
    match to {
        Target::Nowhere => Ok(Goal::Nowhere),
        Target::Temporary(number) => Ok(Goal::Temporary(*number)),
        Target::Place(ty, line, path, operands) => {
            let checks = place_checks(alloc, variables, path, operands.as_slice())?;
            Ok(Goal::Place(checks, ty, *line, path, operands))
        }
        Target::Variable(number) => Ok(Goal::Variable(*number)),
    }
}

/// A temporary gets a value.
#[tactic(auto, using(checked_trees::proofs::Equations::step_laws))]
pub(crate) fn set_step<'a>(
    alloc: Global,
    variables: &[FunctionVariable],
    number: u32,
    value: &'a Value,
) -> Result<Step<'a>, NoMemory>
    ensures { IfOk result (λ made. view_step made ≡ adding.step_of (view_variables variables.now) (core.set number (view_value value.now))) }
{
    let checks = checks_of(alloc, variables, value)?;
    Ok(Step::Set(checks, number, value))
}

/// An object gets one.
#[tactic(auto, using(checked_trees::proofs::Equations::step_laws))]
pub(crate) fn store_step<'a>(
    alloc: Global,
    variables: &[FunctionVariable],
    ty: &'a CoreType,
    line: Line,
    path: &'a Path,
    values: &'a List<Value>,
) -> Result<Step<'a>, NoMemory>
    ensures { IfOk result (λ made. view_step made ≡ adding.step_of (view_variables variables.now) (core.store ty.now line path.now (values_of (view_values values.now)))) }
{
    let checks = place_checks(alloc, variables, path, values.as_slice())?;
    Ok(Step::Store(checks, ty, line, path, values))
}

/// The value that a variable is declared with.
#[tactic(auto, using(checked_trees::proofs::Equations::step_laws))]
pub(crate) fn start_step<'a>(
    alloc: Global,
    variables: &[FunctionVariable],
    number: u32,
    value: &'a Value,
) -> Result<Step<'a>, NoMemory>
    ensures { IfOk result (λ made. view_step made ≡ adding.step_of (view_variables variables.now) (core.start number (view_value value.now))) }
{
    let checks = checks_of(alloc, variables, value)?;
    Ok(Step::Start(checks, number, value))
}

/// A call.
#[tactic(auto, using(checked_trees::proofs::Equations::step_laws))]
pub(crate) fn call_step<'a>(
    alloc: Global,
    variables: &[FunctionVariable],
    to: &'a Target,
    function: u32,
    line: Line,
    arguments: &'a List<Value>,
) -> Result<Step<'a>, NoMemory>
    ensures { IfOk result (λ made. view_step made ≡ adding.step_of (view_variables variables.now) (core.call (view_target to.now) function line (values_of (view_values arguments.now)))) }
{
    let to = goal_of(alloc, variables, to)?;
    let checks = all_checks(alloc, variables, arguments.as_slice())?;
    Ok(Step::Call(checks, to, function, line, arguments))
}

/// Two ways.
#[tactic(auto, using(checked_trees::proofs::Equations::step_laws))]
pub(crate) fn branch_step<'a>(
    alloc: Global,
    variables: &[FunctionVariable],
    test: &'a Value,
    first: List<Step<'a>>,
    second: List<Step<'a>>,
) -> Result<Step<'a>, NoMemory>
    ensures { IfOk result (λ made. view_step made ≡ checked.branch (checks.checks_of (view_variables variables.now) (view_value test.now)) (view_value test.now) (view_steps first.entry) (view_steps second.entry)) }
{
    let checks = checks_of(alloc, variables, test)?;
    Ok(Step::Branch(checks, test, first, second))
}

/// The function returns.
#[tactic(auto, using(checked_trees::proofs::Equations::step_laws))]
pub(crate) fn give_step<'a>(
    alloc: Global,
    variables: &[FunctionVariable],
    value: &'a Option<Value>,
) -> Result<Step<'a>, NoMemory>
    ensures { IfOk result (λ made. view_step made ≡ adding.step_of (view_variables variables.now) (core.give (option_map view_value value.now))) }
{
    let checks = given_checks(alloc, variables, value)?;
    Ok(Step::Give(checks, value))
}
