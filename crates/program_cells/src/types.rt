// What types tell of cells (C11 6.2.5).
ghost use Rattle.std.specs.Prelude.{◌≡◌, ◌∷◌, [], map, OnOk};
ghost use Rattle.std.specs.Option.{option_map};
ghost use Rattle.c_runs.specs.Claims.{struct_cells};
ghost use Rattle.program_cells.specs.Parts as spec;
ghost use Rattle.program_cells.specs.View.{Adds, view_outline};
ghost use Rattle.program_trees.specs.View.{view_facts};

use crate::cells::{Cells, add_blocks, add_kind, add_kinds};
use program_trees::Facts;
use typed_prog::{Base, CoreType};
use wp_base::{CellKind, NoMemory};

/// What of a type tells its cells: what it is made of, the pointers around that, and whether it is an array.
#[derive(Clone, Copy)]
pub struct Outline<'a> {
    pub base: Base,
    pub stars: &'a [bool],
    pub is_array: bool,
}

pub(crate) fn outline_of<'a>(ty: &'a CoreType) -> Outline<'a>
    ensures { view_outline result ≡ spec.outline_of ty.now }
{
    Outline {
        base: ty.base,
        stars: ty.stars.as_slice(),
        is_array: ty.count.is_some(),
    }
}

/// The type of an array's elements; any other one stays.
pub(crate) fn element_of<'a>(outline: Outline<'a>) -> Outline<'a>
    ensures { view_outline result ≡ spec.element_of (view_outline outline.entry) }
{
    let Outline {
        base,
        stars,
        is_array: _,
    } = outline;
    Outline {
        base,
        stars,
        is_array: false,
    }
}

/// What a pointer points to.
pub(crate) fn target_of<'a>(outline: Outline<'a>) -> Option<Outline<'a>>
    ensures { option_map view_outline result ≡ spec.target_of (view_outline outline.entry) }
{
    if outline.is_array {
        return None;
    }
    match outline.stars.split_first() {
        None => None,
        Some((_, stars)) => Some(Outline {
            base: outline.base,
            stars,
            is_array: false,
        }),
    }
}

/// The number of a struct.
pub(crate) fn struct_of<'a>(outline: Outline<'a>) -> Option<u32>
    ensures { result ≡ spec.struct_of (view_outline outline.entry) }
{
    if outline.is_array || !outline.stars.is_empty() {
        return None;
    }
    match outline.base {
        Base::Struct(number) => Some(number),
        Base::Void => None,
        Base::Of(_) => None,
    }
}

/// The cells of a struct.
#[tactic(auto, using(crate::proofs::Adding::nothing))]
pub(crate) fn add_struct(facts: &Facts, number: u32, cells: &mut Cells) -> Result<(), NoMemory>
    ensures { OnOk result (Adds cells.old cells.new (map spec.of_kind (struct_cells (view_facts facts.now) number))) }
{
    match facts.structs.as_slice().get(number as usize) {
        None => Ok(()),
        Some(kinds) => {
            add_kinds(kinds.as_slice(), cells)?;
            Ok(())
        }
    }
}

// The cells of an object; of an array those of an element.
#[tactic(auto, using(crate::proofs::Adding::nothing))]
fn add_object(facts: &Facts, base: Base, stars: &[bool], cells: &mut Cells) -> Result<(), NoMemory>
    ensures { OnOk result (Adds cells.old cells.new (map spec.of_kind (spec.cells_by (view_facts facts.now) base stars.now))) }
{
    if !stars.is_empty() {
        add_kind(CellKind::Ptr, cells)?;
        return Ok(());
    }
    match base {
        Base::Void => Ok(()),
        Base::Of(kind) => {
            add_kind(CellKind::Of(kind), cells)?;
            Ok(())
        }
        Base::Struct(number) => {
            add_struct(facts, number, cells)?;
            Ok(())
        }
    }
}

/// An object that is spoken of where pointers lead.
#[tactic(auto, using(crate::proofs::Adding::nothing, crate::proofs::Adding::first_then))]
pub(crate) fn add_target<'a>(
    facts: &Facts,
    target: Option<Outline<'a>>,
    cells: &mut Cells,
) -> Result<(), NoMemory>
    ensures { OnOk result (Adds cells.old cells.new (spec.target_parts (view_facts facts.now) (option_map view_outline target.entry))) }
{
    match target {
        None => Ok(()),
        Some(outline) => {
            add_blocks(cells);
            add_object(facts, outline.base, outline.stars, cells)?;
            Ok(())
        }
    }
}

/// What a value of the type leads to.
pub(crate) fn add_type(facts: &Facts, ty: &CoreType, cells: &mut Cells) -> Result<(), NoMemory>
    ensures { OnOk result (Adds cells.old cells.new (spec.type_parts (view_facts facts.now) ty.now)) }
{
    add_target(facts, target_of(outline_of(ty)), cells)?;
    Ok(())
}
