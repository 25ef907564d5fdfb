// Casts (C11 6.5.4).
ghost use Rattle.std.specs.Prelude.{◌≡◌, IfOk};
ghost use Rattle.c_answers.specs.Answers.{Gives};
ghost use Rattle.c_operands.specs.Operands.{view_operand, view_rvalue};
ghost use Rattle.c_operands.specs.Conversions.{is_zero as zero};
ghost use Rattle.c_places.specs.Casts as spec;
ghost use Rattle.typed_prog.specs.View.{view_value};

use c_answers::refused;
use c_kinds::Machdep;
use c_machine::{Constant, cast_to};
use c_operands::{Operand, Rvalue, applied_to_one, folded, null, number_of, valued};
use c_rules::{constant_in, node_of_one};
use std::alloc::Global;
use typed_prog::{CoreType, Op};
use wp_base::{Kind, Line, NoMemory, Rule, Stop};

fn known_by(model: Machdep, kind: Kind, of: Option<Constant>) -> Option<i128>
    ensures { result ≡ spec.known_by model kind of }
{
    cast_to(model, kind, of?).value
}

fn to_kind(
    alloc: Global,
    model: Machdep,
    line: Line,
    kind: Kind,
    of: Rvalue,
) -> Result<Operand, Stop>
    ensures { Gives view_operand result (spec.to_kind model line kind (view_rvalue of)) }
{
    if of.value.ty.kind().is_none() {
        return Err(refused(Rule::Typing, line));
    }
    let known = known_by(model, kind, constant_in(&of));
    let is_constant = of.is_constant;
    let node = node_of_one(alloc, Op::Cast, of.value)?;
    Ok(folded(alloc, kind, line, node, is_constant, known))
}

fn to_pointer(line: Line, ty: CoreType, is_zero: bool) -> Result<Operand, Stop>
    ensures { Gives view_operand result (spec.to_pointer_by line ty is_zero) }
{
    if is_zero {
        Ok(Operand::Value(null(ty, line), false))
    } else {
        Err(refused(Rule::Typing, line))
    }
}

fn is_zero(known: Option<i128>) -> bool
    ensures { result ≡ zero known }
{
    match known {
        Some(known) => known == 0,
        None => false,
    }
}

fn to_void(alloc: Global, line: Line, ty: CoreType, of: Rvalue) -> Result<Operand, NoMemory>
    ensures { IfOk result (λ x. view_operand x ≡ spec.to_void line ty (view_rvalue of)) }
{
    let value = applied_to_one(alloc, Op::Cast, of.value, ty, line)?;
    Ok(Operand::Value(value, false))
}

fn cast_value(
    alloc: Global,
    model: Machdep,
    line: Line,
    ty: CoreType,
    of: Rvalue,
) -> Result<Operand, Stop>
    ensures { Gives view_operand result (spec.cast_value model line ty (view_rvalue of)) }
{
    if let Some(kind) = ty.kind() {
        return to_kind(alloc, model, line, kind, of);
    }
    if ty.is_pointer() {
        return to_pointer(line, ty, is_zero(number_of(&of.value)));
    }
    if ty.is_void() {
        return Ok(to_void(alloc, line, ty, of)?);
    }
    Err(refused(Rule::Typing, line))
}

/// A cast to this type, of an integer to an integer kind, of the constant 0 to a pointer, or of any value to `void`.
#[tactic(auto, using(c_answers::proofs::After::after_laws), unfolding(crate::specs::Casts::cast))]
pub fn cast(
    alloc: Global,
    model: Machdep,
    line: Line,
    ty: CoreType,
    of: Operand,
) -> Result<Operand, Stop>
    ensures { Gives view_operand result (spec.cast model line ty (view_operand of)) }
{
    let of = valued(alloc, line, of)?;
    cast_value(alloc, model, line, ty, of)
}
