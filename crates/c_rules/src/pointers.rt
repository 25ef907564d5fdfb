// Operators on pointers (C11 6.5.6, 6.5.8, 6.5.9).
ghost use Rattle.std.specs.Prelude.{◌≡◌, ◌∷◌, Bool, IfOk};
ghost use Rattle.c_answers.specs.Answers.{Gives};
ghost use Rattle.c_operands.specs.Operands.{view_operand};
ghost use Rattle.c_rules.specs.Operators.{is_scalar as scalar_type};
ghost use Rattle.c_rules.specs.Pointers as spec;
ghost use Rattle.typed_prog.specs.View.{view_value};
ghost use Rattle.typed_prog.specs.Tree as t;

use crate::integers::node_of_two;
use c_answers::refused;
use c_kinds::{Machdep, difference_kind};
use c_operands::{Operand, applied_to_one, is_null, null};
use std::alloc::Global;
use typed_prog::{Base, Comparison, CoreType, Op, Value};
use wp_base::{Kind, Line, NoMemory, Rule, Stop};

/// Whether it is an integer or a pointer (C11 6.2.5p21).
pub fn is_scalar(ty: &CoreType) -> bool
    ensures { result ≡ scalar_type ty.now }
{
    ty.kind().is_some() || ty.is_pointer()
}

fn cells_by(sizes: &[u32], base: Base, stars: &[bool]) -> u32
    ensures { result ≡ spec.cells_by sizes.now base stars.now }
{
    match base {
        Base::Void | Base::Of(_) => 1,
        Base::Struct(number) => {
            if stars.is_empty() {
                match sizes.get(number as usize) {
                    Some(size) => *size,
                    None => 1,
                }
            } else {
                1
            }
        }
    }
}

/// How many cells an element of an array has, or an object of another type, by the cells of each struct of the file.
pub fn element_cells(sizes: &[u32], ty: &CoreType) -> u32
    ensures { result ≡ spec.element_cells sizes.now ty.now }
{
    cells_by(sizes, ty.base, ty.stars.as_slice())
}

/// How many cells the elements have that a pointer of this type can be moved over; none where it is no pointer to an object.
pub fn stride(sizes: &[u32], ty: &CoreType) -> Option<u32>
    ensures { result ≡ spec.stride sizes.now ty.now }
{
    if ty.count.is_some() {
        return None;
    }
    match ty.stars.as_slice().split_first() {
        None => None,
        Some((_, rest)) => stride_to(sizes, ty.base, rest),
    }
}

fn stride_to(sizes: &[u32], base: Base, rest: &[bool]) -> Option<u32>
    ensures { (c : Bool) → result ≡ spec.stride_by sizes.now base (c ∷ rest.now) None }
{
    match base {
        Base::Void => {
            if rest.is_empty() {
                None
            } else {
                Some(cells_by(sizes, base, rest))
            }
        }
        Base::Of(_) | Base::Struct(_) => Some(cells_by(sizes, base, rest)),
    }
}

fn not_constant(
    alloc: Global,
    line: Line,
    op: Op,
    left: Value,
    right: Value,
    ty: CoreType,
) -> Result<Operand, NoMemory>
    ensures { IfOk result (λ x. view_operand x ≡ spec.not_constant (t.typed (t.apply op (t.more (view_value left) (t.more (view_value right) t.stop))) ty line)) }
{
    let node = node_of_two(alloc, op, left, right)?;
    Ok(Operand::Value(Value { node, ty, line }, false))
}

/// A pointer moved by an integer; the operands stand as they are spelled.
pub(crate) fn moved(
    alloc: Global,
    line: Line,
    minus: bool,
    index_first: bool,
    size: u32,
    left: Value,
    right: Value,
) -> Result<Operand, NoMemory>
    ensures { IfOk result (λ x. view_operand x ≡ spec.moved line minus index_first size (spec.moved_type index_first (t.type_of (view_value left)) (t.type_of (view_value right))) (view_value left) (view_value right)) }
{
    let ty = if index_first {
        right.ty.copy(alloc)?
    } else {
        left.ty.copy(alloc)?
    };
    let op = Op::Offset {
        minus,
        index_first,
        size,
        accessed: false,
    };
    not_constant(alloc, line, op, left, right, ty)
}

/// Whether both point to objects of one type, constant or not.
pub(crate) fn are_alike(
    alloc: Global,
    first: &CoreType,
    second: &CoreType,
) -> Result<bool, NoMemory>
    ensures { IfOk result (λ b. b ≡ spec.are_alike first.now second.now) }
{
    let one = first.with_const_target(alloc)?;
    let other = second.with_const_target(alloc)?;
    Ok(first.is_pointer() && second.is_pointer() && one.is_same(&other))
}

/// The number of elements between two pointers.
pub(crate) fn difference_of(
    alloc: Global,
    model: Machdep,
    line: Line,
    size: u32,
    left: Value,
    right: Value,
) -> Result<Operand, NoMemory>
    ensures { IfOk result (λ x. view_operand x ≡ spec.difference_of model line size (view_value left) (view_value right)) }
{
    let ty = CoreType::of_kind(alloc, difference_kind(model));
    not_constant(alloc, line, Op::Difference { size }, left, right, ty)
}

fn compared_pointers(
    alloc: Global,
    line: Line,
    how: Comparison,
    left: Value,
    right: Value,
) -> Result<Operand, NoMemory>
    ensures { IfOk result (λ x. view_operand x ≡ spec.compared_pointers line how (view_value left) (view_value right)) }
{
    let ty = CoreType::of_kind(alloc, Kind::Int);
    not_constant(alloc, line, Op::ComparePointers(how), left, right, ty)
}

/// An order of pointers, which has no null.
pub(crate) fn ordered(
    alloc: Global,
    line: Line,
    how: Comparison,
    left: Value,
    right: Value,
) -> Result<Operand, Stop>
    ensures { Gives view_operand result (spec.ordered line how (view_value left) (view_value right)) }
{
    if are_alike(alloc, &left.ty, &right.ty)? {
        Ok(compared_pointers(alloc, line, how, left, right)?)
    } else {
        Err(refused(Rule::Typing, line))
    }
}

/// Null as a pointer of this type, in the place of a null pointer constant.
pub(crate) fn null_of(alloc: Global, ty: &CoreType, of: Value) -> Result<Value, NoMemory>
    ensures { IfOk result (λ v. view_value v ≡ spec.null_of ty.now (view_value of)) }
{
    let line = of.line;
    Ok(null(ty.copy(alloc)?, line))
}

/// Equality of two pointers, or of a pointer and a null pointer constant.
pub(crate) fn equal(
    alloc: Global,
    line: Line,
    how: Comparison,
    left: Value,
    right: Value,
) -> Result<Operand, Stop>
    ensures { Gives view_operand result (spec.equal line how (view_value left) (view_value right)) }
{
    if are_alike(alloc, &left.ty, &right.ty)? {
        return Ok(compared_pointers(alloc, line, how, left, right)?);
    }
    if left.ty.is_pointer() && is_null(&right) {
        let right = null_of(alloc, &left.ty, right)?;
        return Ok(compared_pointers(alloc, line, how, left, right)?);
    }
    if is_null(&left) && right.ty.is_pointer() {
        let left = null_of(alloc, &right.ty, left)?;
        return Ok(compared_pointers(alloc, line, how, left, right)?);
    }
    Err(refused(Rule::Typing, line))
}

/// A pointer as one of this type, which may only differ in that what it points to is constant.
pub(crate) fn requalified(alloc: Global, ty: &CoreType, value: Value) -> Result<Value, NoMemory>
    ensures { IfOk result (λ v. view_value v ≡ spec.requalified ty.now (view_value value)) }
{
    if value.ty.is_same(ty) {
        return Ok(value);
    }
    let line = value.line;
    applied_to_one(alloc, Op::Requalify, value, ty.copy(alloc)?, line)
}

/// The type of both arms of `?:`: what either points to is constant.
pub(crate) fn joint(
    alloc: Global,
    first: &CoreType,
    second: &CoreType,
) -> Result<CoreType, NoMemory>
    ensures { IfOk result (λ ty. ty ≡ spec.joint first.now second.now) }
{
    if first.is_same(second) {
        first.copy(alloc)
    } else {
        first.with_const_target(alloc)
    }
}
