// What names stand for (C11 6.2.1, 6.2.3).
ghost use Rattle.std.specs.Prelude.{◌≡◌, IfOk, position, bytes_eq};
ghost use Rattle.c_scopes.specs.Meanings as spec;

use c_kinds::StructLayout;
use std::alloc::Global;
use typed_prog::{CoreType, Variable};
use wp_base::{Kind, Line, List, NoMemory, Str};

/// What an ordinary name is, by its number among those of its sort.
#[derive(Clone, Copy)]
pub enum Symbol {
    Object(Variable),
    Function(u32),
    /// A constant of an enumerated type, with its value.
    Enumerator(i128),
    Typedef(u32),
}

/// What a tag is. An enumerated type is the same as an integer kind (C11 6.7.2.2p4).
#[derive(Clone, Copy)]
pub enum Tag {
    Struct(u32),
    Enum(Kind),
}

/// A type, and whether what has it is constant.
#[derive(Drop)]
pub struct Resolved {
    pub ty: CoreType,
    pub is_const: bool,
}

/// A declared object: a variable of the file, a local or a parameter.
#[derive(Drop)]
pub struct Object {
    pub name: Str,
    pub ty: CoreType,
    pub is_const: bool,
    pub line: Line,
}

/// A declared function.
#[derive(Drop)]
pub struct Signature {
    pub name: Str,
    pub result: CoreType,
    pub params: List<CoreType>,
    pub line: Line,
}

/// A field of a struct.
#[derive(Drop)]
pub struct Field {
    pub name: Str,
    pub ty: CoreType,
    pub is_const: bool,
}

/// A struct with all its fields, and its cells.
#[derive(Drop)]
pub struct Structure {
    pub name: Str,
    pub fields: List<Field>,
    pub layout: StructLayout,
}

/// The number of the first field with this name, if a struct with these fields has one.
pub fn field_number(fields: &List<Field>, name: &Str) -> Option<usize>
    ensures { result ≡ position (λ field. bytes_eq name.now field.name) fields.now }
{
    fields
        .as_slice()
        .iter()
        .position(|field| name.bytes() == field.name.bytes())
}

impl Resolved {
    /// A type of what isn't constant.
    pub fn plain(ty: CoreType) -> Resolved
        ensures { result ≡ spec.plain ty }
    {
        Resolved {
            ty,
            is_const: false,
        }
    }

    /// A copy, which equals its source.
    pub fn copy(&self, alloc: Global) -> Result<Resolved, NoMemory>
        ensures { IfOk result (λ copy. copy ≡ self.now) }
    {
        Ok(Resolved {
            ty: self.ty.copy(alloc)?,
            is_const: self.is_const,
        })
    }
}
