// Checks: what may be undefined, and where (C11 6.5).
use wp_base::{Line, List};

/// What may be undefined.
#[derive(Clone, Copy)]
pub enum Undefined {
    /// A variable is read before it was set.
    Init,
    Overflow,
    DivZero,
    Shift,
    /// What a pointer leads to is no cell of the kind, or may not be written.
    Access,
    /// An index lies outside of its array.
    Index,
    /// A pointer is made that leads neither into its object nor right behind it.
    Pointing,
    /// Pointers into two objects are subtracted or put in order.
    Comparing,
}

/// A check: what may be undefined, its line, of an index the number of its step, and the way from the whole expression to the
/// operation, by the numbers of operands.
#[derive(Drop)]
pub struct Check {
    pub kind: Undefined,
    pub line: Line,
    pub step: u32,
    pub way: List<u32>,
}
