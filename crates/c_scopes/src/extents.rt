// The cells of objects (C11 6.2.5p20, 6.7.2.1p15).
ghost use Rattle.std.specs.Prelude.{◌≡◌, IfOk};
ghost use Rattle.c_answers.specs.Answers.{Gives};
ghost use Rattle.c_scopes.specs.Extents as spec;

use crate::symbols::{Resolved, Structure};
use c_answers::refused;
use c_kinds::MOST_CELLS;
use std::alloc::Global;
use typed_prog::{Base, CoreType};
use wp_base::{CellKind, Layout, Line, List, NoMemory, Rule, Stop};

/// How many cells an object has at most.
pub const MOST_OBJECT_CELLS: u64 = 1_000_000;

// The cells of one element of a type, if an object can have it.
fn element_cells(
    alloc: Global,
    structs: &List<Structure>,
    ty: &CoreType,
) -> Result<Option<List<CellKind>>, NoMemory>
    ensures { IfOk result (λ cells. cells ≡ spec.element_cells structs.now ty.now.base ty.now.stars) }
{
    if ty.stars.len() != 0 {
        return Ok(Some(List::from_vec(Vec::from_array(alloc, [CellKind::Ptr])?)));
    }
    match ty.base {
        Base::Void => Ok(None),
        Base::Of(kind) => Ok(Some(List::from_vec(Vec::from_array(alloc, [CellKind::Of(kind)])?))),
        Base::Struct(number) => match structs.get(number as usize) {
            Some(structure) => Ok(Some(List::from_vec(Vec::from_slice(
                alloc,
                structure.layout.cells.as_slice(),
            )?))),
            None => Ok(None),
        },
    }
}

/// The layout of an object of a type, or its fault at this line: no object can have the type, or it would have too many cells.
pub fn extent(
    alloc: Global,
    structs: &List<Structure>,
    line: Line,
    ty: &Resolved,
) -> Result<Layout, Stop>
    ensures { Gives (λ t. t) result (spec.extent structs.now line ty.now) }
{
    let Some(cells) = element_cells(alloc, structs, &ty.ty)? else {
        return Err(refused(Rule::Typing, line));
    };
    let count = ty.ty.count.unwrap_or(1);
    if u64::from(count).saturating_mul(cells.len() as u64) > MOST_OBJECT_CELLS {
        return Err(refused(Rule::Limit, line));
    }
    Ok(Layout {
        count,
        cells,
        writable: !ty.is_const,
    })
}

/// How many cells a struct has up to and with a field, from those before it, or the fault at the field's line: they are too many.
pub fn cells_with(line: Line, before: u32, part: &Layout) -> Result<u32, Stop>
    ensures { Gives (λ cells. cells) result (spec.cells_with line before part.now) }
{
    let cells = u64::from(part.count)
        .saturating_mul(part.cells.len() as u64)
        .saturating_add(u64::from(before));
    if cells > u64::from(MOST_CELLS) {
        return Err(refused(Rule::Limit, line));
    }
    Ok(cells as u32)
}
