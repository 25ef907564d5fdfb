// Conversions of values by their context (C11 6.3.1, 6.5.16.1).
ghost use Rattle.std.specs.Prelude.{◌≡◌, IfOk};
ghost use Rattle.c_answers.specs.Answers.{Gives};
ghost use Rattle.c_operands.specs.Conversions as spec;
ghost use Rattle.typed_prog.specs.View.{view_value};

use crate::folding::{is_null, number_of};
use crate::makers::{applied_to_one, null, number};
use c_answers::refused;
use c_kinds::{Machdep, convert};
use std::alloc::Global;
use typed_prog::{CoreType, Op, Value};
use wp_base::{Kind, Line, NoMemory, Rule, Stop};

/// The kind of an integer; none where it is no integer.
pub fn kind_of_value(value: &Value) -> Option<Kind>
    ensures { result ≡ spec.kind_of_value (view_value value.now) }
{
    value.ty.kind()
}

/// An integer as one of this kind; a number is converted at once.
#[tactic(auto, unfolding(crate::specs::Conversions::converted))]
pub fn converted(alloc: Global, model: Machdep, kind: Kind, value: Value) -> Result<Value, NoMemory>
    ensures { IfOk result (λ v. view_value v ≡ spec.converted model kind (view_value value)) }
{
    if let Some(known) = number_of(&value) {
        return Ok(number(alloc, kind, convert(model, kind, known), value.line));
    }
    if is_of_kind(kind, value.ty.kind()) {
        return Ok(value);
    }
    let line = value.line;
    applied_to_one(
        alloc,
        Op::Convert,
        value,
        CoreType::of_kind(alloc, kind),
        line,
    )
}

fn is_of_kind(kind: Kind, found: Option<Kind>) -> bool
    ensures { result ≡ spec.is_of_kind kind found }
{
    match found {
        None => false,
        Some(found) => found == kind,
    }
}

/// A value for an object of this type: an integer for an integer, of whatever kind; for a pointer null, or a pointer to the same type that
/// loses no `const`. Any other is a fault of type on this line.
#[tactic(auto, unfolding(crate::specs::Conversions::assignable))]
pub fn assignable(
    alloc: Global,
    model: Machdep,
    line: Line,
    ty: &CoreType,
    value: Value,
) -> Result<Value, Stop>
    ensures { Gives view_value result (spec.assignable model line ty.now (view_value value)) }
{
    match ty.kind() {
        Some(kind) => integer_for(alloc, model, line, kind, value),
        None => {
            if ty.is_pointer() {
                pointer_for(alloc, line, ty, value)
            } else {
                Err(refused(Rule::Typing, line))
            }
        }
    }
}

fn integer_for(
    alloc: Global,
    model: Machdep,
    line: Line,
    kind: Kind,
    value: Value,
) -> Result<Value, Stop>
    ensures { Gives view_value result (spec.integer_for model line kind (view_value value) (spec.kind_of_value (view_value value))) }
{
    if value.ty.kind().is_none() {
        return Err(refused(Rule::Typing, line));
    }
    Ok(converted(alloc, model, kind, value)?)
}

#[tactic(auto, unfolding(crate::specs::Conversions::pointer_for))]
fn pointer_for(alloc: Global, line: Line, ty: &CoreType, value: Value) -> Result<Value, Stop>
    ensures { Gives view_value result (spec.pointer_for line ty.now (view_value value)) }
{
    if is_null(&value) {
        return Ok(null(ty.copy(alloc)?, value.line));
    }
    let same = value.ty.is_same(ty);
    let with_const = is_with_const(alloc, ty, &value.ty)?;
    pointer_by(alloc, line, ty, value, same, with_const)
}

fn is_with_const(alloc: Global, ty: &CoreType, of: &CoreType) -> Result<bool, NoMemory>
    ensures { IfOk result (λ b. b ≡ (spec.is_with_const ty.now of.now)) }
{
    let with_const = of.with_const_target(alloc)?;
    Ok(of.is_pointer() && with_const.is_same(ty))
}

fn pointer_by(
    alloc: Global,
    line: Line,
    ty: &CoreType,
    value: Value,
    same: bool,
    with_const: bool,
) -> Result<Value, Stop>
    ensures { Gives view_value result (spec.pointer_by line ty.now (view_value value) same with_const) }
{
    if same {
        return Ok(value);
    }
    if !with_const {
        return Err(refused(Rule::Typing, line));
    }
    let ty = ty.copy(alloc)?;
    let line = value.line;
    Ok(applied_to_one(alloc, Op::Requalify, value, ty, line)?)
}
