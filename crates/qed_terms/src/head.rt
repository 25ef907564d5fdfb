// What stands at a node of a term or a formula.

use wp_base::{CellKind, Kind, Layout, List, Str};

/// What a term stands for: an integer of any size, a memory, or a table of blocks.
#[derive(Clone, Copy, Debug, PartialEq, Eq)]
pub enum Sort {
    Int,
    Memory,
    Table,
}

/// A head of a term over terms.
#[derive(Drop)]
pub enum TermOp {
    Add,
    Sub,
    Mul,
    Neg,
    Div,
    Mod,
    Wrap(Kind),
    ShiftLeft,
    ShiftRight,
    BitAnd,
    BitOr,
    BitXor,
    BitNot,
    Load,
    Count,
    Len,
    Store,
    Alloc(Layout),
    Grow,
}

/// The shape of a region: the cells of a block from an offset up to below another (three terms), or the
/// blocks from a number on (one term).
#[derive(Clone, Copy, Debug, PartialEq, Eq)]
pub enum Shape {
    Cells,
    New,
}

/// A head of a formula over terms.
#[derive(Drop)]
pub enum FormOp {
    Equal,
    AtMost,
    Less,
    Same,
    Read(CellKind),
    Write(CellKind),
    Live,
    Has(Layout),
    WellFormed(CellKind),
    /// Two memories, then the terms of these regions.
    Frame(List<Shape>),
}

/// The head of a term or a formula, without its kids.
#[derive(Drop)]
pub enum Head {
    Num(i128),
    Var(Str, Sort),
    Term(TermOp),
    Ite,
    App(Str),
    Form(FormOp),
    True,
    False,
    Not,
    And,
    Or,
    Imp,
    Iff,
    Forall(Str),
    Exists(Str),
}
