// Whether a source is verified.
ghost use Rattle.std.specs.Prelude.{◌≡◌, map, IfOk};
ghost use Rattle.std.specs.List.{list_all};
ghost use Rattle.std.specs.Option.{option_copied, option_map};
ghost use Rattle.binder_tables.specs.View.{view_table};
ghost use Rattle.checked_trees.specs.View.{view_checked_program};
ghost use Rattle.program_trees.specs.Files.{at};
ghost use Rattle.program_trees.specs.View.{view_function, view_program};
ghost use Rattle.typed_unit.specs.View.{view_body, view_typed};
ghost use Rattle.verified_sources.specs.Tests as spec;

use crate::items::item_at;
use binder_tables::Table;
use checked_trees::CheckedProgram;
use file_spellings::file_names;
use logic_settings::{Order, order_of};
use logic_sources::bodies_fit;
use loop_sets::sets_stand;
use plain_test::is_plain;
use program_trees::{Function, Program};
use std::alloc::Global;
use typed_unit::{Body, Typed};
use wp_base::{NoMemory, Str};

// Whether sets of a function's loops name what is in scope.
fn loops_stand(alloc: Global, function: Option<&Function<'_>>) -> Result<bool, NoMemory>
    ensures { IfOk result (λ so. so ≡ spec.loops_stand (option_map view_function (option_copied function.entry))) }
{
    match function {
        None => Ok(true),
        Some(function) => sets_stand(alloc, function.params, function.body.as_slice()),
    }
}

// The same of the function with a number.
#[tactic(auto, using(crate::proofs::Numbered::seen))]
fn loops_stand_at(
    alloc: Global,
    functions: &[Option<Function<'_>>],
    number: u32,
) -> Result<bool, NoMemory>
    ensures { IfOk result (λ so. so ≡ spec.loops_stand (at (map (option_map view_function) functions.now) number)) }
{
    let function = item_at(functions, number);
    loops_stand(alloc, function)
}

// The same of the functions of all bodies.
fn all_loops_stand(
    alloc: Global,
    functions: &[Option<Function<'_>>],
    bodies: &[Body<'_>],
) -> Result<bool, NoMemory>
    ensures { IfOk result (λ so. so ≡ list_all (spec.body_stands (at (map (option_map view_function) functions.now))) (map view_body bodies.now)) }
{
    for body in bodies {
        if !loops_stand_at(alloc, functions, body.function)? {
            return Ok(false);
        }
    }
    Ok(true)
}

// Binders have names, sets of loops name what is in scope, and functions fit.
fn rest_fits(
    alloc: Global,
    takes: &[Option<usize>],
    typed: &Typed<'_>,
    program: &Program<'_>,
    checked: &CheckedProgram<'_>,
    table: &Table<'_>,
    file: &[Str],
) -> Result<bool, NoMemory>
    ensures { IfOk result (λ so. so ≡ spec.rest_fits takes.now (view_typed typed.now) (view_program program.now) (view_checked_program checked.now) (view_table table.now) file.now) }
{
    if !table.is_named() {
        return Ok(false);
    }
    let bodies = typed.bodies.as_slice();
    if !all_loops_stand(alloc, program.functions.as_slice(), bodies)? {
        return Ok(false);
    }
    bodies_fit(alloc, checked, takes, file, bodies)
}

/// Of a source that is verified what is found of its logic functions; of any other one nothing. Of the source this program, this core program with its checks
/// and this table of annotations are made, and its variables have these names.
pub fn verified_order(
    alloc: Global,
    typed: &Typed<'_>,
    program: &Program<'_>,
    checked: &CheckedProgram<'_>,
    table: &Table<'_>,
    file: &[Str],
) -> Result<Option<Order>, NoMemory>
    ensures { IfOk result (λ found. spec.Verifies (view_typed typed.now) (view_program program.now) (view_checked_program checked.now) (view_table table.now) file.now found) }
{
    let plain = is_plain(typed);
    if !plain {
        return Ok(None);
    }
    let names = file_names(alloc, typed)?;
    let Some(order) = order_of(alloc, &program.facts, &names)? else {
        return Ok(None);
    };
    let fits = rest_fits(
        alloc,
        order.takes.as_slice(),
        typed,
        program,
        checked,
        table,
        file,
    )?;
    if fits { Ok(Some(order)) } else { Ok(None) }
}
