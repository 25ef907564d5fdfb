// Statements with their checks. What the recursion goes down stands first.
ghost use Rattle.std.specs.Prelude.{◌≡◌, IfOk};
ghost use Rattle.checked_trees.specs.View.{view_step, view_steps};
ghost use Rattle.c_runs.specs.Adding as adding;
ghost use Rattle.core_trees.specs.View.{view_core, view_cores, view_variables};

use crate::statements::{branch_step, call_step, give_step, set_step, start_step, store_step};
use checked_trees::Step;
use core_trees::{Core, FunctionVariable};
use std::alloc::Global;
use wp_base::{List, NoMemory};

#[cycle(adding)]
#[tactic(auto, using(checked_trees::proofs::Equations::step_laws, core_trees::proofs::Equations::core_laws))]
fn step_of<'a>(
    alloc: Global,
    core: &'a Core,
    variables: &[FunctionVariable],
) -> Result<Step<'a>, NoMemory>
    ensures { IfOk result (λ made. view_step made ≡ adding.step_of (view_variables variables.now) (view_core core.now)) }
{
    match core {
        Core::Set(number, value) => set_step(alloc, variables, *number, value),
        Core::Store(ty, line, path, values) => {
            store_step(alloc, variables, ty, *line, path, values)
        }
        Core::Start(number, value) => start_step(alloc, variables, *number, value),
        Core::Call(to, function, line, arguments) => {
            call_step(alloc, variables, to, *function, *line, arguments)
        }
        Core::Branch(test, first, second) => {
            let first = steps_of(alloc, first.as_slice(), variables)?;
            let second = steps_of(alloc, second.as_slice(), variables)?;
            branch_step(alloc, variables, test, first, second)
        }
        Core::Repeat(claims, body) => {
            let body = steps_of(alloc, body.as_slice(), variables)?;
            Ok(Step::Repeat(claims, body))
        }
        Core::Around(body) => {
            let body = steps_of(alloc, body.as_slice(), variables)?;
            Ok(Step::Around(body))
        }
        Core::Exit(block) => Ok(Step::Exit(*block)),
        Core::Give(value) => give_step(alloc, variables, value),
        Core::Claim(claim) => Ok(Step::Claim(claim)),
        Core::Scope(locals, body) => {
            let body = steps_of(alloc, body.as_slice(), variables)?;
            Ok(Step::Scope(locals, body))
        }
    }
}

/// Statements of a core program with their checks, in a function with these variables.
#[cycle(adding)]
#[tactic(auto, using(crate::proofs::Mapping::steps_laws))]
pub(crate) fn steps_of<'a>(
    alloc: Global,
    cores: &'a [Core],
    variables: &[FunctionVariable],
) -> Result<List<Step<'a>>, NoMemory>
    ensures { IfOk result (λ made. view_steps made ≡ adding.steps_of (view_variables variables.now) (view_cores cores.now)) }
{
    let mut made = List::new(alloc);
    for core in cores {
        made.push(step_of(alloc, core, variables)?)?;
    }
    Ok(made)
}
