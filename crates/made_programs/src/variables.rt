// Variables with their cells (C11 6.2.5p20, 6.7.2.1p15).
ghost use Rattle.std.specs.Prelude.{◌≡◌, [], ◌∷◌, false, IfOk, slice_index_or};
ghost use Rattle.c_scopes.specs.Extents.{element_cells as cells_of_element};
ghost use Rattle.core_trees.specs.View.{view_variable, view_variables};
ghost use Rattle.c_programs.specs.Files as spec;

use c_scopes::{Object, Structure};
use core_trees::FunctionVariable;
use std::alloc::Global;
use typed_prog::{Base, CoreType};
use wp_base::{CellKind, Layout, List, NoMemory};

fn one_cell(alloc: Global, kind: CellKind) -> Result<List<CellKind>, NoMemory>
    ensures { IfOk result (λ cells. cells ≡ kind ∷ []) }
{
    Ok(List::from_vec(Vec::from_array(alloc, [kind])?))
}

// The cells of one element of a type.
fn element_cells(
    alloc: Global,
    structs: &[Structure],
    ty: &CoreType,
) -> Result<List<CellKind>, NoMemory>
    ensures { IfOk result (λ cells. cells ≡ spec.or_none (cells_of_element structs.now ty.now.base ty.now.stars)) }
{
    if ty.stars.len() != 0 {
        return one_cell(alloc, CellKind::Ptr);
    }
    match ty.base {
        Base::Void => Ok(List::new(alloc)),
        Base::Of(kind) => one_cell(alloc, CellKind::Of(kind)),
        Base::Struct(number) => match structs.get(number as usize) {
            Some(structure) => Ok(List::from_vec(Vec::from_slice(
                alloc,
                structure.layout.cells.as_slice(),
            )?)),
            None => Ok(List::new(alloc)),
        },
    }
}

fn variable_of(
    alloc: Global,
    structs: &[Structure],
    object: &Object,
    is_plain: bool,
    has_value: bool,
) -> Result<FunctionVariable, NoMemory>
    ensures { IfOk result (λ variable. view_variable variable ≡ spec.variable_of structs.now object.now is_plain has_value) }
{
    let cells = element_cells(alloc, structs, &object.ty)?;
    Ok(FunctionVariable {
        layout: Layout {
            count: object.ty.count.unwrap_or(1),
            cells,
            writable: !object.is_const,
        },
        is_plain,
        has_value,
    })
}

fn test_at(tests: &[bool], place: usize) -> bool
    ensures { result ≡ slice_index_or tests.now place false }
{
    match tests.get(place) {
        Some(test) => *test,
        None => false,
    }
}

/// Variables for these objects, with what is known of them by their numbers.
#[tactic(auto, using(crate::proofs::Listing::variable_laws))]
pub(crate) fn variables_of(
    alloc: Global,
    structs: &[Structure],
    plain: &[bool],
    valued: &[bool],
    objects: &[Object],
) -> Result<List<FunctionVariable>, NoMemory>
    ensures { IfOk result (λ made. view_variables made ≡ spec.variables_from structs.now plain.now valued.now 0 objects.now) }
{
    let mut made = List::new(alloc);
    for i in 0..objects.len() {
        let is_plain = test_at(plain, i);
        let has_value = test_at(valued, i);
        made.push(variable_of(alloc, structs, &objects[i], is_plain, has_value)?)?;
    }
    Ok(made)
}
