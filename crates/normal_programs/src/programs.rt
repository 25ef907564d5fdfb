// Programs (C11 6.9).
ghost use Rattle.std.specs.Prelude.{◌≡◌, IfOk, map};
ghost use Rattle.std.specs.Option.{option_map};
ghost use Rattle.c_runs.specs.Normal as spec;
ghost use Rattle.program_trees.specs.View.{view_core_function, view_core_program, view_function, view_program};

use normal_bodies::normalise_body;
use program_trees::{CoreFunction, CoreProgram, Function, Program};
use std::alloc::Global;
use wp_base::{List, NoMemory};

fn normal_function<'a, 'b>(
    alloc: Global,
    function: &'a Function<'b>,
) -> Result<CoreFunction<'a>, NoMemory>
    ensures { IfOk result (λ made. view_core_function made ≡ spec.normal_function (view_function function.now)) }
{
    let variables = function.variables.as_slice();
    let body = normalise_body(alloc, variables, function.body.as_slice())?;
    Ok(CoreFunction {
        params: function.params,
        variables: &function.variables,
        result: function.result,
        contract: &function.contract,
        body,
        end: function.end,
    })
}

// One without a body stays one.
fn normal_if_any<'a, 'b>(
    alloc: Global,
    function: &'a Option<Function<'b>>,
) -> Result<Option<CoreFunction<'a>>, NoMemory>
    ensures { IfOk result (λ made. option_map view_core_function made ≡ option_map spec.normal_function (option_map view_function function.now)) }
{
    match function {
        None => Ok(None),
        Some(function) => Ok(Some(normal_function(alloc, function)?)),
    }
}

#[tactic(auto, using(crate::proofs::Mapping::mapping_laws))]
fn normal_functions<'a, 'b>(
    alloc: Global,
    functions: &'a [Option<Function<'b>>],
) -> Result<List<Option<CoreFunction<'a>>>, NoMemory>
    ensures { IfOk result (λ made. map (option_map view_core_function) made ≡ map (option_map spec.normal_function) (map (option_map view_function) functions.now)) }
{
    let mut made = List::new(alloc);
    for function in functions {
        made.push(normal_if_any(alloc, function)?)?;
    }
    Ok(made)
}

/// The core program of a program as spelled. What is known of the file, contracts and variables are those of the spelled one.
pub fn normalise<'a, 'b>(
    alloc: Global,
    program: &'a Program<'b>,
) -> Result<CoreProgram<'a>, NoMemory>
    ensures { IfOk result (λ made. view_core_program made ≡ spec.normal (view_program program.now)) }
{
    let functions = normal_functions(alloc, program.functions.as_slice())?;
    Ok(CoreProgram {
        facts: &program.facts,
        functions,
    })
}
