// The variables of a file, with their names.
ghost use Rattle.std.specs.Prelude.{◌≡◌, ◌∷◌, [], map, IfOk};
ghost use Rattle.acsl_encode.specs.Readings as readings;
ghost use Rattle.annotation_words.specs.View.{view_global};
ghost use Rattle.core_trees.specs.View.{view_variable, view_variables};
ghost use Rattle.logic_calls.specs.View.{name_at};
ghost use Rattle.plain_annotations.specs.Settings.{globals_from};
ghost use Rattle.plain_states.specs.Scopes as scopes;

use annotation_words::GlobalName;
use core_trees::FunctionVariable;
use std::alloc::Global;
use wp_base::{CellKind, Kind, List, NoMemory, Str};

// The kind of a first cell.
fn cell_kind(cell: CellKind) -> Kind
    ensures { result ≡ scopes.kind_in (cell ∷ []) }
{
    match cell {
        CellKind::Of(kind) => kind,
        CellKind::Ptr => Kind::Int,
    }
}

/// The kind of a variable.
#[tactic(auto, using(annotation_words::proofs::Holding::first_kind, annotation_words::proofs::Holding::no_cell))]
pub(crate) fn kind_of(variable: &FunctionVariable) -> Kind
    ensures { result ≡ scopes.kind_of (view_variable variable.now) }
{
    let cells = variable.layout.cells.as_slice();
    if cells.is_empty() {
        Kind::Int
    } else {
        cell_kind(cells[0])
    }
}

// The name at a place.
#[tactic(auto, using(crate::proofs::Filing::name_laws))]
fn name_at(alloc: Global, names: &[Str], at: usize) -> Result<Str, NoMemory>
    ensures { IfOk result (λ name. name ≡ name_at names.now at) }
{
    if at < names.len() {
        names[at].copy(alloc)
    } else {
        Ok(Str::from_vec(Vec::new(alloc)))
    }
}

fn number_at(at: usize) -> Result<u32, NoMemory>
    ensures { IfOk result (λ number. number ≡ at) }
{
    match u32::try_from(at) {
        Ok(number) => Ok(number),
        Err(_) => Err(NoMemory),
    }
}

fn global_at(
    alloc: Global,
    variable: &FunctionVariable,
    names: &[Str],
    at: usize,
) -> Result<GlobalName, NoMemory>
    ensures { IfOk result (λ global. view_global global ≡ readings.integer_global at (scopes.kind_of (view_variable variable.now)) (name_at names.now at)) }
{
    let number = number_at(at)?;
    let name = name_at(alloc, names, at)?;
    Ok(GlobalName::Integer(number, kind_of(variable), name))
}

/// The variables of a file.
#[tactic(auto, using(crate::proofs::Filing::file_laws))]
pub fn file_globals(
    alloc: Global,
    variables: &[FunctionVariable],
    names: &[Str],
) -> Result<List<GlobalName>, NoMemory>
    ensures { IfOk result (λ made. map view_global made ≡ globals_from 0 (view_variables variables.now) names.now) }
{
    let mut made = List::new(alloc);
    for at in 0..variables.len() {
        made.push(global_at(alloc, &variables[at], names, at)?)?;
    }
    Ok(made)
}
