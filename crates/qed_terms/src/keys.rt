// What the order of terms reads of a head beside its kids: its place in the order of heads, and what stands before, between and
// after the kids.
ghost use Rattle.std.specs.Prelude.{◌≡◌, length, map, slice_index_or};
ghost use Rattle.wp_base.specs.Kinds.{cell_place, kind_place};
ghost use Rattle.qed_terms.specs.Order.{form_back, form_number, form_rank, layout_back, region_starts, shape_place, shape_terms, sort_place, term_back, term_number, term_rank, form_starts};

use crate::head::{FormOp, Shape, Sort, TermOp};
use wp_base::{CellKind, Kind, Layout};

fn kind_place(kind: Kind) -> u8
    ensures { result ≡ kind_place kind }
{
    match kind {
        Kind::Bool => 0,
        Kind::Char => 1,
        Kind::SChar => 2,
        Kind::UChar => 3,
        Kind::Short => 4,
        Kind::UShort => 5,
        Kind::Int => 6,
        Kind::UInt => 7,
        Kind::Long => 8,
        Kind::ULong => 9,
        Kind::LLong => 10,
        Kind::ULLong => 11,
    }
}

fn cell_place(kind: CellKind) -> u8
    ensures { result ≡ cell_place kind }
{
    match kind {
        CellKind::Of(kind) => kind_place(kind),
        CellKind::Ptr => 12,
    }
}

pub(crate) fn sort_place(sort: Sort) -> u8
    ensures { result ≡ sort_place sort }
{
    match sort {
        Sort::Int => 0,
        Sort::Memory => 1,
        Sort::Table => 2,
    }
}

fn shape_place(shape: Shape) -> u8
    ensures { result ≡ shape_place shape }
{
    match shape {
        Shape::Cells => 0,
        Shape::New => 1,
    }
}

/// How many terms a region of this shape has.
fn shape_terms(shape: Shape) -> usize
    ensures { result ≡ shape_terms shape }
{
    match shape {
        Shape::Cells => 3,
        Shape::New => 1,
    }
}

/// The number that stands before the term at a place among the terms of the regions.
#[tactic(auto, using(crate::proofs::Places::region_laws))]
fn region_start(shapes: &[Shape], place: usize) -> u8
    ensures { result ≡ slice_index_or (region_starts shapes.now) place 0 }
{
    let mut left = place;
    for shape in shapes {
        let terms = shape_terms(*shape);
        if left < terms {
            return shape_place(*shape);
        }
        left -= terms;
    }
    0
}

#[tactic(auto, using(crate::proofs::Places::place_laws))]
fn shape_at(shapes: &[Shape], at: usize) -> u32
    ensures { result ≡ slice_index_or (map shape_place shapes.now) at 0 }
{
    if at < shapes.len() {
        u32::from(shape_place(shapes[at]))
    } else {
        0
    }
}

#[tactic(auto, using(crate::proofs::Places::place_laws))]
fn cell_at(cells: &[CellKind], at: usize) -> u32
    ensures { result ≡ slice_index_or (map cell_place cells.now) at 0 }
{
    if at < cells.len() {
        u32::from(cell_place(cells[at]))
    } else {
        0
    }
}

fn layout_back_len(layout: &Layout) -> usize
    ensures { result ≡ length (layout_back layout.now) }
{
    layout.cells.as_slice().len() + 2
}

#[tactic(auto, using(crate::proofs::Places::place_laws))]
fn layout_back(layout: &Layout, at: usize) -> u32
    ensures { result ≡ slice_index_or (layout_back layout.now) at 0 }
{
    if at == 0 {
        return if layout.writable { 1 } else { 0 };
    }
    if at == 1 {
        return layout.count;
    }
    cell_at(layout.cells.as_slice(), at - 2)
}

impl TermOp {
    /// Its place in the order of heads.
    pub(crate) fn rank(&self) -> u8
        ensures { result ≡ term_rank self.now }
    {
        match self {
            TermOp::Add => 2,
            TermOp::Sub => 3,
            TermOp::Mul => 4,
            TermOp::Neg => 5,
            TermOp::Div => 6,
            TermOp::Mod => 7,
            TermOp::Wrap(_) => 8,
            TermOp::ShiftLeft => 9,
            TermOp::ShiftRight => 10,
            TermOp::BitAnd => 11,
            TermOp::BitOr => 12,
            TermOp::BitXor => 13,
            TermOp::BitNot => 14,
            TermOp::Load => 16,
            TermOp::Count => 17,
            TermOp::Len => 18,
            TermOp::Store => 20,
            TermOp::Alloc(_) => 21,
            TermOp::Grow => 22,
        }
    }

    /// The number that stands before its kids.
    pub(crate) fn number(&self) -> u8
        ensures { result ≡ term_number self.now }
    {
        match self {
            TermOp::Wrap(kind) => kind_place(*kind),
            _ => 0,
        }
    }

    /// How many numbers stand after its kids, and the one at a place.
    pub(crate) fn back_len(&self) -> usize
        ensures { result ≡ length (term_back self.now) }
    {
        match self {
            TermOp::Alloc(layout) => layout_back_len(layout),
            _ => 0,
        }
    }

    pub(crate) fn back(&self, at: usize) -> u32
        ensures { result ≡ slice_index_or (term_back self.now) at 0 }
    {
        match self {
            TermOp::Alloc(layout) => layout_back(layout, at),
            _ => 0,
        }
    }
}

impl FormOp {
    /// Its place in the order of heads.
    pub(crate) fn rank(&self) -> u8
        ensures { result ≡ form_rank self.now }
    {
        match self {
            FormOp::Equal => 23,
            FormOp::AtMost => 24,
            FormOp::Less => 25,
            FormOp::Same => 26,
            FormOp::Read(_) => 36,
            FormOp::Write(_) => 37,
            FormOp::Live => 38,
            FormOp::Has(_) => 39,
            FormOp::WellFormed(_) => 40,
            FormOp::Frame(_) => 41,
        }
    }

    /// The number that stands before its kids.
    pub(crate) fn number(&self) -> u8
        ensures { result ≡ form_number self.now }
    {
        match self {
            FormOp::Read(kind) => cell_place(*kind),
            FormOp::Write(kind) => cell_place(*kind),
            FormOp::WellFormed(kind) => cell_place(*kind),
            _ => 0,
        }
    }

    /// How many numbers stand after its kids, and the one at a place.
    pub(crate) fn back_len(&self) -> usize
        ensures { result ≡ length (form_back self.now) }
    {
        match self {
            FormOp::Has(layout) => layout_back_len(layout),
            FormOp::Frame(shapes) => shapes.len(),
            _ => 0,
        }
    }

    pub(crate) fn back(&self, at: usize) -> u32
        ensures { result ≡ slice_index_or (form_back self.now) at 0 }
    {
        match self {
            FormOp::Has(layout) => layout_back(layout, at),
            FormOp::Frame(shapes) => shape_at(shapes.as_slice(), at),
            _ => 0,
        }
    }

    /// The number that stands before the kid at a place.
    pub(crate) fn start(&self, at: usize) -> u8
        ensures { result ≡ slice_index_or (form_starts self.now) at 0 }
    {
        match self {
            FormOp::Frame(shapes) => {
                if at < 2 {
                    return 0;
                }
                region_start(shapes.as_slice(), at - 2)
            }
            _ => 0,
        }
    }
}
