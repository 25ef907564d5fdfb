// The cells of structs.
ghost use Rattle.std.specs.Prelude.{◌≡◌, ◌≤◌, ◌<◌, ◌++◌, length, slice_index, IfOk, OnOk};
ghost use Rattle.wp_base.specs.Blocks.{cells_of as cells_in};
ghost use Rattle.c_kinds.specs.Layouts as spec;

use std::alloc::Global;
use wp_base::{CellKind, Layout, List, NoMemory};

/// How many cells a struct has at most.
pub const MOST_CELLS: u32 = 64;

/// The cells of a struct, and the first one of each field.
#[derive(Drop)]
pub struct StructLayout {
    pub fields: List<u32>,
    pub cells: List<CellKind>,
}

// Puts the cells of a field behind those that are there.
#[tactic(auto, using(crate::proofs::Laying::repeated_more))]
fn put_cells(cells: &mut Vec<CellKind>, part: &Layout) -> Result<(), NoMemory>
    ensures { OnOk result (cells.new.items ≡ cells.old.items ++ cells_in part.now) }
{
    for _ in 0..part.count {
        cells.extend_from_slice(part.cells.as_slice())?;
    }
    Ok(())
}

/// The layout of a struct whose fields have these layouts, in order (C11 6.7.2.1p15, in cells): at most 64 cells.
#[tactic(auto, using(crate::proofs::Laying::fields_turn, crate::proofs::Laying::cells_turn, crate::proofs::Laying::made_within))]
pub fn cells_of(alloc: Global, parts: &List<Layout>) -> Result<StructLayout, NoMemory>
    requires { length (spec.all_cells parts.now) ≤ MOST_CELLS }
    ensures { IfOk result (λ made. (made.fields ≡ spec.places 0 parts.now) × (made.cells ≡ spec.all_cells parts.now)) }
{
    let mut fields = Vec::new(alloc);
    let mut cells = Vec::new(alloc);
    for part in parts.as_slice() {
        fields.push(cells.len() as u32)?;
        put_cells(&mut cells, part)?;
    }
    Ok(StructLayout {
        fields: List::from_vec(fields),
        cells: List::from_vec(cells),
    })
}

/// The first cell of a field, by the field's place from 0.
pub fn field_offset(of: &StructLayout, field: usize) -> u32
    requires { field < length of.now.fields }
    ensures { result ≡ slice_index of.now.fields field }
{
    of.fields.as_slice()[field]
}
