// Kinds of integers and of cells, and the layouts of objects.
ghost use Rattle.std.specs.Prelude.{◌≡◌, IfOk};

use crate::list::List;
use crate::memory::NoMemory;
use std::alloc::Global;

/// An integer kind (C11 6.2.5), in order of rank, the signed one first.
#[derive(Clone, Copy, Debug, PartialEq, Eq)]
pub enum Kind {
    Bool,
    Char,
    SChar,
    UChar,
    Short,
    UShort,
    Int,
    UInt,
    Long,
    ULong,
    LLong,
    ULLong,
}

/// What a cell of memory holds: an integer of a kind, or a pointer.
#[derive(Clone, Copy, Debug, PartialEq, Eq)]
pub enum CellKind {
    Of(Kind),
    Ptr,
}

/// The cells of an object: so many elements with these cells each, and whether they may be written.
#[derive(Drop)]
pub struct Layout {
    pub count: u32,
    pub cells: List<CellKind>,
    pub writable: bool,
}

impl Layout {
    /// A copy, which equals its source.
    pub fn copy(&self, alloc: Global) -> Result<Layout, NoMemory>
        ensures { IfOk result (λ layout. layout ≡ self.now) }
    {
        let cells = List::from_vec(Vec::from_slice(alloc, self.cells.as_slice())?);
        Ok(Layout {
            count: self.count,
            cells,
            writable: self.writable,
        })
    }
}
