// What a term is by its sort, and what stands at an address (ACSL 2.2.3).
ghost use Rattle.std.specs.Prelude.{◌≡◌, IfOk};
ghost use Rattle.acsl_rules.specs.Sorts as spec;
ghost use Rattle.c_rules.specs.Pointers.{are_alike as alike_types};

use acsl_trees::{Content, Sort};
use c_rules::stride;
use std::alloc::Global;
use typed_prog::CoreType;
use wp_base::NoMemory;

/// What an object of this type holds; none where it is an array or `void`.
pub fn content(ty: &CoreType) -> Option<Content>
    ensures { result ≡ spec.content ty.now }
{
    if ty.is_pointer() {
        return Some(Content::Pointer);
    }
    if let Some(kind) = ty.kind() {
        return Some(Content::Integer(kind));
    }
    match ty.structure() {
        Some(number) => Some(Content::Struct(number)),
        None => None,
    }
}

pub(crate) fn is_unknown(sort: &Sort) -> bool
    ensures { result ≡ spec.is_unknown sort.now }
{
    match sort {
        Sort::Unknown => true,
        Sort::Object(_, _) | Sort::Integer(_) | Sort::Pointer(_, _) => false,
    }
}

pub(crate) fn is_integer(sort: &Sort) -> bool
    ensures { result ≡ spec.is_integer sort.now }
{
    match sort {
        Sort::Integer(_) => true,
        Sort::Object(_, _) | Sort::Pointer(_, _) | Sort::Unknown => false,
    }
}

pub(crate) fn is_pointer(sort: &Sort) -> bool
    ensures { result ≡ spec.is_pointer sort.now }
{
    match sort {
        Sort::Pointer(_, _) => true,
        Sort::Object(_, _) | Sort::Integer(_) | Sort::Unknown => false,
    }
}

pub(crate) fn may_be_integer(sort: &Sort) -> bool
    ensures { result ≡ spec.may_be_integer sort.now }
{
    is_integer(sort) || is_unknown(sort)
}

/// The number that an integer is spelled as.
pub(crate) fn known_in(sort: &Sort) -> Option<i128>
    ensures { result ≡ spec.known_in sort.now }
{
    match sort {
        Sort::Integer(known) => *known,
        Sort::Object(_, _) | Sort::Pointer(_, _) | Sort::Unknown => None,
    }
}

pub(crate) fn is_zero(known: Option<i128>) -> bool
    ensures { result ≡ spec.is_zero known }
{
    match known {
        Some(known) => known == 0,
        None => false,
    }
}

/// The null pointer without a type of its own.
pub(crate) fn is_untyped_null(sort: &Sort) -> bool
    ensures { result ≡ spec.is_untyped_null sort.now }
{
    match sort {
        Sort::Pointer(_, null) => *null,
        Sort::Object(_, _) | Sort::Integer(_) | Sort::Unknown => false,
    }
}

/// A null pointer constant (C11 6.3.2.3p3).
pub(crate) fn is_null(sort: &Sort) -> bool
    ensures { result ≡ spec.is_null sort.now }
{
    is_zero(known_in(sort)) || is_untyped_null(sort)
}

/// How many elements an array has; none where the term is none.
pub(crate) fn array_count(sort: &Sort) -> Option<u32>
    ensures { result ≡ spec.array_count sort.now }
{
    match sort {
        Sort::Object(ty, _) => ty.count,
        Sort::Integer(_) | Sort::Pointer(_, _) | Sort::Unknown => None,
    }
}

/// How many cells the elements have that a pointer can be moved over; none where it is no pointer to an object.
pub(crate) fn stride_of(sizes: &[u32], sort: &Sort) -> Option<u32>
    ensures { result ≡ spec.stride_of sizes.now sort.now }
{
    match sort {
        Sort::Pointer(ty, _) => stride(sizes, ty),
        Sort::Object(_, _) | Sort::Integer(_) | Sort::Unknown => None,
    }
}

/// Whether both types are pointers to objects of one type, constant or not.
pub(crate) fn are_alike(
    alloc: Global,
    first: &CoreType,
    second: &CoreType,
) -> Result<bool, NoMemory>
    ensures { IfOk result (λ b. b ≡ alike_types first.now second.now) }
{
    let one = first.with_const_target(alloc)?;
    let other = second.with_const_target(alloc)?;
    Ok(first.is_pointer() && second.is_pointer() && one.is_same(&other))
}

pub(crate) fn alike_to(alloc: Global, ty: &CoreType, sort: &Sort) -> Result<bool, NoMemory>
    ensures { IfOk result (λ b. b ≡ spec.alike_to ty.now sort.now) }
{
    match sort {
        Sort::Pointer(other, _) => are_alike(alloc, ty, other),
        Sort::Object(_, _) | Sort::Integer(_) | Sort::Unknown => Ok(false),
    }
}

/// Whether both are pointers to objects of one type, constant or not.
pub(crate) fn alike(alloc: Global, first: &Sort, second: &Sort) -> Result<bool, NoMemory>
    ensures { IfOk result (λ b. b ≡ spec.alike first.now second.now) }
{
    match first {
        Sort::Pointer(ty, _) => alike_to(alloc, ty, second),
        Sort::Object(_, _) | Sort::Integer(_) | Sort::Unknown => Ok(false),
    }
}

/// A copy, which equals its source.
pub(crate) fn sort_copy(alloc: Global, sort: &Sort) -> Result<Sort, NoMemory>
    ensures { IfOk result (λ copy. copy ≡ sort.now) }
{
    match sort {
        Sort::Object(ty, label) => Ok(Sort::Object(ty.copy(alloc)?, *label)),
        Sort::Integer(known) => Ok(Sort::Integer(*known)),
        Sort::Pointer(ty, null) => Ok(Sort::Pointer(ty.copy(alloc)?, *null)),
        Sort::Unknown => Ok(Sort::Unknown),
    }
}
