// The cells of a file, as they are gathered.
ghost use Rattle.std.specs.Prelude.{◌≡◌, ◌==◌, ◌||◌, ◌∷◌, [], ℕ, false, map, slice_index_or, OnOk};
ghost use Rattle.program_cells.specs.Parts as spec;
ghost use Rattle.program_cells.specs.View.{Adds};
ghost use Rattle.wp_base.specs.Kinds as kinds;

use wp_base::{CellKind, Kind, NoMemory};

/// Which cells a file has: whether there is a block or a pointer at all, and a flag for each kind of cells, in their order; flags that aren't there are
/// not set.
#[derive(Drop)]
pub struct Cells {
    pub has_blocks: bool,
    pub kinds: Vec<bool>,
}

fn kind_place(kind: Kind) -> usize
    ensures { result ≡ kinds.kind_place kind }
{
    match kind {
        Kind::Bool => 0,
        Kind::Char => 1,
        Kind::SChar => 2,
        Kind::UChar => 3,
        Kind::Short => 4,
        Kind::UShort => 5,
        Kind::Int => 6,
        Kind::UInt => 7,
        Kind::Long => 8,
        Kind::ULong => 9,
        Kind::LLong => 10,
        Kind::ULLong => 11,
    }
}

fn cell_place(kind: CellKind) -> usize
    ensures { result ≡ kinds.cell_place kind }
{
    match kind {
        CellKind::Of(kind) => kind_place(kind),
        CellKind::Ptr => 12,
    }
}

// There are more flags than this number.
#[tactic(auto, using(crate::proofs::Flags::one_more))]
fn reach(flags: &mut Vec<bool>, at: usize) -> Result<(), NoMemory>
    ensures { OnOk result ((n : ℕ) → slice_index_or flags.new.items n false ≡ slice_index_or flags.old.items n false) }
{
    for _place in flags.len()..=at {
        flags.push(false)?;
    }
    Ok(())
}

// A flag is set.
fn mark(flags: &mut Vec<bool>, at: usize) -> Result<(), NoMemory>
    ensures { OnOk result ((n : ℕ) → slice_index_or flags.new.items n false ≡ (slice_index_or flags.old.items n false || n == at)) }
{
    reach(flags, at)?;
    if at >= flags.len() {
        return Err(NoMemory);
    }
    flags[at] = true;
    Ok(())
}

/// There are blocks.
pub(crate) fn add_blocks(cells: &mut Cells)
    ensures { Adds cells.old cells.new (spec.blocks ∷ []) }
{
    cells.has_blocks = true;
}

/// Cells of a kind are spoken of.
#[tactic(auto, using(crate::proofs::Adding::kind_added))]
pub(crate) fn add_kind(kind: CellKind, cells: &mut Cells) -> Result<(), NoMemory>
    ensures { OnOk result (Adds cells.old cells.new (spec.of_kind kind ∷ [])) }
{
    mark(&mut cells.kinds, cell_place(kind))?;
    Ok(())
}

/// Cells of these kinds are.
#[tactic(auto, using(crate::proofs::Adding::nothing, crate::proofs::Adding::one_kind_more))]
pub(crate) fn add_kinds(kinds: &[CellKind], cells: &mut Cells) -> Result<(), NoMemory>
    ensures { OnOk result (Adds cells.old cells.new (map spec.of_kind kinds.now)) }
{
    for at in 0..kinds.len() {
        add_kind(kinds[at], cells)?;
    }
    Ok(())
}
