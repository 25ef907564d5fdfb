// The data models, and what a range is.

/// A data model: how wide `long` and pointers are (C11 5.2.4.2.1).
#[derive(Clone, Copy, Debug, PartialEq, Eq)]
pub enum Machdep {
    /// `long` and pointers of 32 bits.
    X86_32,
    /// `long` and pointers of 64 bits.
    X86_64,
}

/// The least and the greatest number of a kind.
#[derive(Clone, Copy, Debug, PartialEq, Eq)]
pub struct Range {
    pub low: i128,
    pub high: i128,
}
