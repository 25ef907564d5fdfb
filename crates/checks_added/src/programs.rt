// Programs with their checks (C11 6.9).
ghost use Rattle.std.specs.Prelude.{◌≡◌, IfOk, map};
ghost use Rattle.std.specs.Option.{option_map};
ghost use Rattle.checked_trees.specs.View.{view_checked_function, view_checked_program};
ghost use Rattle.c_runs.specs.Adding as adding;
ghost use Rattle.program_trees.specs.View.{view_core_function, view_core_program};

use crate::steps::steps_of;
use checked_trees::{CheckedFunction, CheckedProgram};
use program_trees::{CoreFunction, CoreProgram};
use std::alloc::Global;
use wp_base::{List, NoMemory};

fn function_of<'a, 'b>(
    alloc: Global,
    function: &'a CoreFunction<'b>,
) -> Result<CheckedFunction<'a>, NoMemory>
    ensures { IfOk result (λ made. view_checked_function made ≡ adding.function_of (view_core_function function.now)) }
{
    let body = steps_of(
        alloc,
        function.body.as_slice(),
        function.variables.as_slice(),
    )?;
    Ok(CheckedFunction {
        params: function.params,
        variables: function.variables,
        result: function.result,
        contract: function.contract,
        body,
        end: function.end,
    })
}

// One without a body stays one.
fn function_if_any<'a, 'b>(
    alloc: Global,
    function: &'a Option<CoreFunction<'b>>,
) -> Result<Option<CheckedFunction<'a>>, NoMemory>
    ensures { IfOk result (λ made. option_map view_checked_function made ≡ option_map adding.function_of (option_map view_core_function function.now)) }
{
    match function {
        None => Ok(None),
        Some(function) => Ok(Some(function_of(alloc, function)?)),
    }
}

#[tactic(auto, using(crate::proofs::Mapping::mapping_laws))]
fn functions_of<'a, 'b>(
    alloc: Global,
    functions: &'a [Option<CoreFunction<'b>>],
) -> Result<List<Option<CheckedFunction<'a>>>, NoMemory>
    ensures { IfOk result (λ made. map (option_map view_checked_function) made ≡ map (option_map adding.function_of) (map (option_map view_core_function) functions.now)) }
{
    let mut made = List::new(alloc);
    for function in functions {
        made.push(function_if_any(alloc, function)?)?;
    }
    Ok(made)
}

/// A core program with its checks, each before the statement that has its operation.
pub fn add_checks<'a, 'b>(
    alloc: Global,
    program: &'a CoreProgram<'b>,
) -> Result<CheckedProgram<'a>, NoMemory>
    ensures { IfOk result (λ made. view_checked_program made ≡ adding.add_checks (view_core_program program.now)) }
{
    let functions = functions_of(alloc, program.functions.as_slice())?;
    Ok(CheckedProgram {
        facts: program.facts,
        functions,
    })
}
