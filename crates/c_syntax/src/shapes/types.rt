// Types by what they hold (C11 6.7.2, 6.7.6).
ghost use Rattle.std.specs.Prelude.{◌≡◌};
ghost use Rattle.c_syntax.specs.TypeShapes.{type_whole};

use crate::expr::{CType, Expr};
use wp_base::{Boxed, Kind, Str};

/// A type in which there is no other one.
#[derive(Clone, Copy)]
pub enum TypeLeaf<'a> {
    Void,
    Kind(Kind),
    Integer,
    Struct(&'a Str),
    Enum(&'a Str),
    Named(&'a Str),
}

/// A type by what it holds.
pub enum TypeShape<'a> {
    Leaf(TypeLeaf<'a>),
    Pointer(&'a Boxed<CType>),
    Array(&'a Boxed<CType>, &'a Boxed<Expr>),
    Const(&'a Boxed<CType>),
}

impl CType {
    /// What this type holds.
    pub fn look(&self) -> TypeShape<'_>
        ensures { self.now ≡ type_whole result }
    {
        match self {
            CType::Void => TypeShape::Leaf(TypeLeaf::Void),
            CType::Kind(kind) => TypeShape::Leaf(TypeLeaf::Kind(*kind)),
            CType::Integer => TypeShape::Leaf(TypeLeaf::Integer),
            CType::Struct(name) => TypeShape::Leaf(TypeLeaf::Struct(name)),
            CType::Enum(name) => TypeShape::Leaf(TypeLeaf::Enum(name)),
            CType::Named(name) => TypeShape::Leaf(TypeLeaf::Named(name)),
            CType::Pointer(of) => TypeShape::Pointer(of),
            CType::Array(of, length) => TypeShape::Array(of, length),
            CType::Const(of) => TypeShape::Const(of),
        }
    }
}
