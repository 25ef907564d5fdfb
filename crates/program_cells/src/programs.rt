// What a program speaks of.
ghost use Rattle.std.specs.Prelude.{◌≡◌, map, slice_get, None, IfOk, OnOk};
ghost use Rattle.std.specs.Option.{option_map};
ghost use Rattle.acsl_expand.specs.Expansion.{view_meant};
ghost use Rattle.c_runs.specs.Program.{Program};
ghost use Rattle.c_runs.specs.Tree.{Steps};
ghost use Rattle.memory_words.specs.Shapes as shapes;
ghost use Rattle.program_trees.specs.Files.{at};
ghost use Rattle.typed_unit.specs.Unit as u;
ghost use Rattle.checked_trees.specs.View.{view_checked_function, view_checked_program};
ghost use Rattle.core_trees.specs.View.{view_variable, view_variables};
ghost use Rattle.program_cells.specs.Programs as spec;
ghost use Rattle.program_cells.specs.View.{Adds, HasCells, view_declared};
ghost use Rattle.program_trees.specs.View.{view_facts};
ghost use Rattle.typed_unit.specs.View.{view_body, view_typed};

use crate::annotations::add_contract;
use crate::cells::{Cells, add_blocks, add_kinds};
use crate::declared::Declared;
use crate::steps::add_steps;
use crate::trees::add_tree;
use acsl_expand::Meant;
use c_scopes::Signature;
use checked_trees::{CheckedFunction, CheckedProgram};
use core_trees::FunctionVariable;
use program_trees::Facts;
use std::alloc::Global;
use typed_prog::CoreType;
use typed_unit::{Body, Typed};
use wp_base::{CellKind, NoMemory};

// ---- variables

#[tactic(auto, using(crate::proofs::Adding::nothing))]
fn add_if_pointer(kind: CellKind, cells: &mut Cells)
    ensures { Adds cells.old cells.new (spec.if_pointer kind) }
{
    match kind {
        CellKind::Of(_) => {}
        CellKind::Ptr => add_blocks(cells),
    }
}

// The kind of what a variable holds that no pointer leads to.
fn kind_of(variable: &FunctionVariable) -> CellKind
    ensures { result ≡ shapes.kind_of (view_variable variable.now) }
{
    match variable.layout.cells.as_slice().first() {
        Some(kind) => *kind,
        None => CellKind::Ptr,
    }
}

#[tactic(auto, using(crate::proofs::Adding::first_then))]
fn add_variable(variable: &FunctionVariable, cells: &mut Cells) -> Result<(), NoMemory>
    ensures { OnOk result (Adds cells.old cells.new (spec.variable_parts (view_variable variable.now))) }
{
    if variable.is_plain {
        add_if_pointer(kind_of(variable), cells);
        return Ok(());
    }
    add_blocks(cells);
    add_kinds(variable.layout.cells.as_slice(), cells)?;
    Ok(())
}

#[tactic(auto, using(crate::proofs::Clauses::parts_of_variables, crate::proofs::Adding::onward_laws))]
fn add_variables(variables: &[FunctionVariable], cells: &mut Cells) -> Result<(), NoMemory>
    ensures { OnOk result (Adds cells.old cells.new (spec.variables_parts (view_variables variables.now))) }
{
    for at in 0..variables.len() {
        add_variable(&variables[at], cells)?;
    }
    Ok(())
}

#[tactic(auto, using(crate::proofs::Adding::nothing))]
fn add_result(given: Option<CellKind>, cells: &mut Cells)
    ensures { Adds cells.old cells.new (spec.given_parts given) }
{
    match given {
        None => {}
        Some(kind) => add_if_pointer(kind, cells),
    }
}

// ---- functions

#[tactic(auto, using(crate::proofs::Adding::then))]
fn add_function<'a>(
    function: &CheckedFunction,
    facts: &Facts,
    declared: Declared<'a>,
    cells: &mut Cells,
) -> Result<(), NoMemory>
    ensures { OnOk result (Adds cells.old cells.new (spec.function_parts (view_facts facts.now) (view_declared declared.entry) (view_checked_function function.now))) }
{
    let own = function.variables.as_slice();
    add_variables(own, cells)?;
    add_result(function.result, cells);
    add_contract(function.contract, facts, own, declared, cells)?;
    add_steps(function.body.as_slice(), facts, own, declared, cells)?;
    Ok(())
}

#[tactic(auto, using(crate::proofs::Adding::nothing, crate::proofs::Functions::found_laws))]
fn add_function_at<'a>(
    functions: &[Option<CheckedFunction>],
    number: u32,
    facts: &Facts,
    declared: Declared<'a>,
    cells: &mut Cells,
) -> Result<(), NoMemory>
    ensures { OnOk result (Adds cells.old cells.new (spec.function_parts_if (view_facts facts.now) (view_declared declared.entry) (at (map (option_map view_checked_function) functions.now) number))) }
{
    let at = number as usize;
    if at >= functions.len() {
        return Ok(());
    }
    match &functions[at] {
        None => Ok(()),
        Some(function) => {
            add_function(function, facts, declared, cells)?;
            Ok(())
        }
    }
}

// What a function gives, by its number.
fn result_in<'a>(functions: &'a [Signature], number: u32) -> Option<&'a CoreType>
    ensures { option_map (λ r. r.now) result ≡ spec.result_in (slice_get functions.now number) }
{
    match functions.get(number as usize) {
        None => None,
        Some(signature) => Some(&signature.result),
    }
}

fn declared_in<'a>(typed: &'a Typed, body: &'a Body) -> Declared<'a>
    ensures { (q : Program Steps) → view_declared result ≡ spec.declared_in (view_typed typed.now) q (view_body body.now) }
{
    Declared {
        globals: typed.file.globals.as_slice(),
        locals: body.locals.as_slice(),
        structs: typed.file.structs.as_slice(),
        result: result_in(typed.file.functions.as_slice(), body.function),
    }
}

fn declared_alone<'a>(typed: &'a Typed) -> Declared<'a>
    ensures { (q : Program Steps) → view_declared result ≡ spec.declared_alone (view_typed typed.now) q }
{
    Declared {
        globals: typed.file.globals.as_slice(),
        locals: &[],
        structs: typed.file.structs.as_slice(),
        result: None,
    }
}

// ---- files

// The function of a body.
fn add_body(
    body: &Body,
    typed: &Typed,
    program: &CheckedProgram,
    cells: &mut Cells,
) -> Result<(), NoMemory>
    ensures { OnOk result (Adds cells.old cells.new (spec.body_parts (view_typed typed.now) (view_checked_program program.now) (view_body body.now))) }
{
    let declared = declared_in(typed, body);
    let functions = program.functions.as_slice();
    add_function_at(functions, body.function, program.facts, declared, cells)?;
    Ok(())
}

#[tactic(auto, using(crate::proofs::Functions::parts_of_bodies, crate::proofs::Adding::onward_laws))]
fn add_bodies(typed: &Typed, program: &CheckedProgram, cells: &mut Cells) -> Result<(), NoMemory>
    ensures { OnOk result (Adds cells.old cells.new (spec.bodies_parts (view_typed typed.now) (view_checked_program program.now) (view_typed typed.now).bodies)) }
{
    let bodies = typed.bodies.as_slice();
    for at in 0..bodies.len() {
        add_body(&bodies[at], typed, program, cells)?;
    }
    Ok(())
}

// A logic function that calls itself stays in annotations.
#[tactic(auto, using(crate::proofs::Adding::nothing))]
fn add_definition(
    definition: &Meant,
    typed: &Typed,
    program: &CheckedProgram,
    cells: &mut Cells,
) -> Result<(), NoMemory>
    ensures { OnOk result (Adds cells.old cells.new (spec.definition_parts (view_typed typed.now) (view_checked_program program.now) (view_meant definition.now))) }
{
    if !definition.is_recursive {
        return Ok(());
    }
    let declared = declared_alone(typed);
    add_tree(&definition.body, program.facts, &[], declared, cells)?;
    Ok(())
}

#[tactic(auto, using(crate::proofs::Functions::parts_of_definitions, crate::proofs::Adding::onward_laws))]
fn add_definitions(
    typed: &Typed,
    program: &CheckedProgram,
    cells: &mut Cells,
) -> Result<(), NoMemory>
    ensures { OnOk result (Adds cells.old cells.new (spec.definitions_parts (view_typed typed.now) (view_checked_program program.now) (view_checked_program program.now).facts.definitions)) }
{
    let definitions = program.facts.definitions.as_slice();
    for at in 0..definitions.len() {
        add_definition(&definitions[at], typed, program, cells)?;
    }
    Ok(())
}

// All that a program speaks of.
#[tactic(auto, using(crate::proofs::Adding::then), unfolding(crate::specs::Programs::program_parts))]
fn add_program(typed: &Typed, program: &CheckedProgram, cells: &mut Cells) -> Result<(), NoMemory>
    ensures { OnOk result (Adds cells.old cells.new (spec.program_parts (view_typed typed.now) (view_checked_program program.now))) }
{
    add_variables(program.facts.globals.as_slice(), cells)?;
    add_bodies(typed, program, cells)?;
    add_definitions(typed, program, cells)?;
    Ok(())
}

/// The cells of a file: those that its program speaks of.
#[tactic(auto, using(crate::proofs::Adding::all_told))]
pub fn program_cells(
    alloc: Global,
    typed: &Typed,
    program: &CheckedProgram,
) -> Result<Cells, NoMemory>
    ensures { IfOk result (λ cells. HasCells cells (spec.program_cells (view_typed typed.now) (view_checked_program program.now))) }
{
    let mut cells = Cells {
        has_blocks: false,
        kinds: Vec::new(alloc),
    };
    add_program(typed, program, &mut cells)?;
    Ok(cells)
}
