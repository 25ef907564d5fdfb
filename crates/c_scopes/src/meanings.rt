// What types mean as spelled (C11 6.7.2, 6.7.3, 6.7.6, 6.7.8).
ghost use Rattle.std.specs.Prelude.{◌≡◌, IfOk, Some};
ghost use Rattle.c_syntax.specs.View.{view_ctype};
ghost use Rattle.c_syntax.specs.TypeShapes.{type_leaf};
ghost use Rattle.c_answers.specs.Answers.{Gives};
ghost use Rattle.c_scopes.specs.Meanings as spec;
ghost use Rattle.c_scopes.specs.Levels.{leveled, around};

use crate::file::File;
use crate::symbols::{Resolved, Symbol, Tag};
use c_answers::refused;
use c_syntax::{CType, TypeLeaf, TypeShape};
use std::alloc::Global;
use typed_prog::{Base, CoreType};
use wp_base::{Line, List, NoMemory, Rule, Stop, Str};

fn struct_named(
    alloc: Global,
    file: &File,
    line: Line,
    name: &Str,
) -> Result<Option<Resolved>, Stop>
    ensures { Gives (λ t. t) result (spec.struct_named file.now line name.now) }
{
    match file.tags.find(name) {
        Some(Tag::Struct(number)) => Ok(Some(Resolved::plain(CoreType {
            base: Base::Struct(number),
            stars: List::new(alloc),
            count: None,
        }))),
        Some(Tag::Enum(_)) => Err(refused(Rule::Name, line)),
        None => Err(refused(Rule::Name, line)),
    }
}

fn enum_named(alloc: Global, file: &File, line: Line, name: &Str) -> Result<Option<Resolved>, Stop>
    ensures { Gives (λ t. t) result (spec.enum_named file.now line name.now) }
{
    match file.tags.find(name) {
        Some(Tag::Enum(kind)) => Ok(Some(Resolved::plain(CoreType::of_kind(alloc, kind)))),
        Some(Tag::Struct(_)) => Err(refused(Rule::Name, line)),
        None => Err(refused(Rule::Name, line)),
    }
}

fn typedef_named(
    alloc: Global,
    file: &File,
    line: Line,
    name: &Str,
) -> Result<Option<Resolved>, Stop>
    ensures { Gives (λ t. t) result (spec.typedef_named file.now line name.now) }
{
    match file.names.find(name) {
        Some(Symbol::Typedef(number)) => match file.typedefs.get(number as usize) {
            Some(ty) => Ok(Some(ty.copy(alloc)?)),
            None => Err(refused(Rule::Name, line)),
        },
        Some(Symbol::Object(_)) | Some(Symbol::Function(_)) | Some(Symbol::Enumerator(_)) => Err(
            refused(Rule::Name, line),
        ),
        None => Err(refused(Rule::Name, line)),
    }
}

// What a type means in which there is no other one.
#[tactic(auto, using(c_syntax::proofs::Equations::expr_laws))]
fn leaf(
    alloc: Global,
    file: &File,
    line: Line,
    head: TypeLeaf<'_>,
) -> Result<Option<Resolved>, Stop>
    ensures { Gives (λ t. t) result (spec.named file.now line (view_ctype (type_leaf head.entry))) }
{
    match head {
        TypeLeaf::Void => Ok(Some(Resolved::plain(CoreType::void(alloc)))),
        TypeLeaf::Kind(kind) => Ok(Some(Resolved::plain(CoreType::of_kind(alloc, kind)))),
        TypeLeaf::Integer => Ok(None),
        TypeLeaf::Struct(name) => struct_named(alloc, file, line, name),
        TypeLeaf::Enum(name) => enum_named(alloc, file, line, name),
        TypeLeaf::Named(name) => typedef_named(alloc, file, line, name),
    }
}

// Whether there are pointers to a type, and arrays of it.
fn has_pointers(ty: &CoreType) -> bool
    ensures { result ≡ spec.has_pointers ty.now }
{
    !ty.is_void() && ty.count.is_none()
}

// The type with its levels around it, the outermost first.
#[tactic(auto, using(crate::proofs::Leveling::leveled_type, crate::proofs::Leveling::not_pointed))]
fn with_levels(
    mut levels: Vec<bool>,
    is_const: bool,
    inner: Resolved,
) -> Result<Option<Resolved>, NoMemory>
    ensures { IfOk result (λ t. t ≡ leveled levels.items is_const (Some inner)) }
{
    let is_const = is_const | inner.is_const;
    if levels.len() == 0 {
        return Ok(Some(Resolved {
            ty: inner.ty,
            is_const,
        }));
    }
    if !has_pointers(&inner.ty) {
        return Ok(None);
    }
    levels.push(is_const)?;
    levels.extend_from_slice(inner.ty.stars.as_slice())?;
    let outermost = levels.remove(0);
    Ok(Some(Resolved {
        ty: CoreType {
            base: inner.ty.base,
            stars: List::from_vec(levels),
            count: None,
        },
        is_const: outermost,
    }))
}

/// A type with its names looked up, or the fault of a name at this line. None is no type of the language, which `type_of` refuses once all that
/// stands inside the declaration or cast was looked at.
// Goes down the stars by a loop, since these may be as many as there are tokens.
#[tactic(auto, using(crate::proofs::Leveling::turns, c_syntax::proofs::Equations::expr_laws))]
pub fn named(alloc: Global, file: &File, line: Line, ty: &CType) -> Result<Option<Resolved>, Stop>
    ensures { Gives (λ t. t) result (spec.named file.now line (view_ctype ty.now)) }
{
    let mut levels = Vec::new(alloc);
    let mut is_const = false;
    let mut is_array = false;
    let mut inner = ty;
    loop {
        match inner.look() {
            TypeShape::Leaf(head) => {
                let meant = leaf(alloc, file, line, head)?;
                return Ok(finished(is_array, levels, is_const, meant)?);
            }
            TypeShape::Pointer(to) => {
                levels.push(is_const)?;
                is_const = false;
                inner = to.get();
            }
            TypeShape::Array(of, _) => {
                is_array = true;
                inner = of.get();
            }
            TypeShape::Const(of) => {
                is_const = true;
                inner = of.get();
            }
        }
    }
}

// What comes of a type by what stands around it.
#[tactic(auto, using(crate::proofs::Leveling::none_through))]
fn finished(
    is_array: bool,
    levels: Vec<bool>,
    is_const: bool,
    meant: Option<Resolved>,
) -> Result<Option<Resolved>, NoMemory>
    ensures { IfOk result (λ t. t ≡ around is_array levels.items is_const meant) }
{
    if is_array {
        return Ok(None);
    }
    match meant {
        Some(inner) => with_levels(levels, is_const, inner),
        None => Ok(None),
    }
}

/// The type, or the fault that it is none, at this line.
pub fn type_of(line: Line, named: Option<Resolved>) -> Result<Resolved, Stop>
    ensures { Gives (λ t. t) result (spec.type_of line named) }
{
    match named {
        Some(ty) => Ok(ty),
        None => Err(refused(Rule::Typing, line)),
    }
}

/// What a type means that isn't an array, or its fault at this line.
#[tactic(auto, using(c_answers::proofs::After::after_laws))]
pub fn meaning(alloc: Global, file: &File, line: Line, ty: &CType) -> Result<Resolved, Stop>
    ensures { Gives (λ t. t) result (spec.meaning file.now line (view_ctype ty.now)) }
{
    let named = named(alloc, file, line, ty)?;
    type_of(line, named)
}

/// Whether a type is spelled as a pointer to `void`, to which null may be cast.
#[tactic(auto, using(c_answers::proofs::After::after_laws, c_syntax::proofs::Equations::expr_laws))]
pub fn is_void_pointer(alloc: Global, file: &File, line: Line, ty: &CType) -> Result<bool, Stop>
    ensures { Gives (λ b. b) result (spec.is_void_pointer file.now line (view_ctype ty.now)) }
{
    match ty.look() {
        TypeShape::Pointer(to) => {
            let named = named(alloc, file, line, to.get())?;
            Ok(is_plain_void(&named))
        }
        TypeShape::Leaf(_) => Ok(false),
        TypeShape::Array(_, _) => Ok(false),
        TypeShape::Const(_) => Ok(false),
    }
}

fn is_plain_void(named: &Option<Resolved>) -> bool
    ensures { result ≡ spec.is_plain_void named.now }
{
    match named {
        Some(ty) => !ty.is_const && ty.ty.is_void(),
        None => false,
    }
}

// The type of an array's elements, where their number is right.
#[tactic(auto, using(c_answers::proofs::After::after_laws))]
fn elements_of(
    line: Line,
    length_line: Line,
    element: Option<Resolved>,
    length: i128,
) -> Result<Resolved, Stop>
    ensures { Gives (λ t. t) result (spec.elements_of line length_line element length) }
{
    if length < 1 {
        return Err(refused(Rule::Typing, length_line));
    }
    let element = type_of(line, element)?;
    if !has_pointers(&element.ty) {
        return Err(refused(Rule::Typing, line));
    }
    Ok(element)
}

/// The array of so many elements of a type, or its fault: of the length at its own line, and else at this line.
#[tactic(auto, using(c_answers::proofs::After::after_laws))]
pub fn array_meaning(
    line: Line,
    length_line: Line,
    element: Option<Resolved>,
    length: i128,
) -> Result<Resolved, Stop>
    ensures { Gives (λ t. t) result (spec.array_meaning line length_line element length) }
{
    let element = elements_of(line, length_line, element, length)?;
    if length > u32::MAX as i128 {
        return Err(refused(Rule::Limit, line));
    }
    Ok(Resolved {
        ty: CoreType {
            base: element.ty.base,
            stars: element.ty.stars,
            count: Some(length as u32),
        },
        is_const: element.is_const,
    })
}

/// The type of a parameter that is declared as an array of so many elements of a type, or its fault, as that of the array.
#[tactic(auto, using(c_answers::proofs::After::after_laws))]
pub fn sized_parameter(
    alloc: Global,
    line: Line,
    length_line: Line,
    element: Option<Resolved>,
    length: i128,
) -> Result<Resolved, Stop>
    ensures { Gives (λ t. t) result (spec.sized_parameter line length_line element length) }
{
    let element = elements_of(line, length_line, element, length)?;
    Ok(Resolved::plain(element.ty.pointer(alloc, element.is_const)?))
}

/// The type of a parameter that is declared with this one: a pointer in place of an array.
pub fn parameter_of(alloc: Global, declared: Resolved) -> Result<Resolved, NoMemory>
    ensures { IfOk result (λ parameter. parameter ≡ spec.parameter_of declared) }
{
    match declared.ty.count {
        Some(_) => Ok(Resolved::plain(declared.ty.pointer(alloc, declared.is_const)?)),
        None => Ok(declared),
    }
}
