// Terms as operands (ACSL 2.2.3).
use crate::heads::Label;
use crate::tree::Tree;
use typed_prog::CoreType;

/// The type of a value: unbounded integers, whatever kind it is read from, or that of a pointer. The value of a `\let` may have no type: where it
/// is a struct, which is a fault behind the predicate under it.
#[derive(Drop)]
pub enum TermType {
    Integer,
    Pointer(CoreType),
    Unknown,
}

/// What a term is.
#[derive(Drop)]
pub enum Sort {
    /// An object of this type, whose tree gives its address. One that is read in a state of its own is no lvalue.
    Object(CoreType, Option<Label>),
    /// An integer; its number, where it is spelled as one.
    Integer(Option<i128>),
    /// A pointer of this type, and whether it is the null pointer without a type of its own.
    Pointer(CoreType, bool),
    /// A value without a type.
    Unknown,
}

/// A term with its tree.
#[derive(Drop)]
pub struct Operand {
    pub tree: Tree,
    pub sort: Sort,
}
