// The operator `?:` (C11 6.5.15).
ghost use Rattle.std.specs.Prelude.{◌≡◌, IfOk};
ghost use Rattle.c_answers.specs.Answers.{Gives};
ghost use Rattle.c_operands.specs.Operands.{view_operand, view_rvalue};
ghost use Rattle.c_rules.specs.Operators as spec;
ghost use Rattle.typed_prog.specs.View.{view_value, view_value_node};
ghost use Rattle.typed_prog.specs.Tree as t;

use crate::integers::constant_in;
use crate::operators::scalar;
use crate::pointers::{are_alike, joint, null_of, requalified};
use c_answers::refused;
use c_kinds::{Machdep, common};
use c_machine::{Constant, chosen};
use c_operands::{Operand, Rvalue, converted, folded, is_null, valued};
use std::alloc::Global;
use typed_prog::{CoreType, Value, ValueNode};
use wp_base::{Kind, Line, NoMemory, Rule, Stop, box_three};

fn known_of_three(
    model: Machdep,
    test: Option<Constant>,
    first: Option<Constant>,
    second: Option<Constant>,
) -> Option<i128>
    ensures { result ≡ spec.known_of_three model test first second }
{
    let test = test?;
    let first = first?;
    chosen(model, test, first, second?).value
}

#[tactic(auto, using(typed_prog::proofs::Equations::view_laws))]
fn choice(alloc: Global, test: Value, first: Value, second: Value) -> Result<ValueNode, NoMemory>
    ensures { IfOk result (λ n. view_value_node n ≡ t.choose (view_value test) (view_value first) (view_value second)) }
{
    let (test, first, second) = box_three(alloc, test, first, second)?;
    Ok(ValueNode::Choose(test, first, second))
}

// Arms that are integers are converted to their common kind.
fn integer_arms(
    alloc: Global,
    model: Machdep,
    line: Line,
    test: Rvalue,
    first: Rvalue,
    second: Rvalue,
    kind: Kind,
) -> Result<Operand, NoMemory>
    ensures { IfOk result (λ x. view_operand x ≡ spec.integer_arms model line (view_rvalue test) (view_rvalue first) (view_rvalue second) kind) }
{
    let known = known_of_three(
        model,
        constant_in(&test),
        constant_in(&first),
        constant_in(&second),
    );
    let is_constant = test.is_constant && first.is_constant && second.is_constant;
    let first = converted(alloc, model, kind, first.value)?;
    let second = converted(alloc, model, kind, second.value)?;
    let node = choice(alloc, test.value, first, second)?;
    Ok(folded(alloc, kind, line, node, is_constant, known))
}

fn arms(
    alloc: Global,
    line: Line,
    ty: CoreType,
    test: Rvalue,
    first: Value,
    second: Value,
) -> Result<Operand, NoMemory>
    ensures { IfOk result (λ x. view_operand x ≡ spec.arms line ty (view_rvalue test) (view_value first) (view_value second)) }
{
    let node = choice(alloc, test.value, first, second)?;
    Ok(Operand::Value(Value { node, ty, line }, false))
}

fn pointer_arms(
    alloc: Global,
    line: Line,
    test: Rvalue,
    first: Value,
    second: Value,
) -> Result<Operand, NoMemory>
    ensures { IfOk result (λ x. view_operand x ≡ spec.pointer_arms line (view_rvalue test) (view_value first) (view_value second)) }
{
    let ty = joint(alloc, &first.ty, &second.ty)?;
    let first = requalified(alloc, &ty, first)?;
    let second = requalified(alloc, &ty, second)?;
    arms(alloc, line, ty, test, first, second)
}

// Pointers to one type, or null beside a pointer, or two that have no value.
fn other_arms(
    alloc: Global,
    line: Line,
    test: Rvalue,
    first: Value,
    second: Value,
) -> Result<Operand, Stop>
    ensures { Gives view_operand result (spec.other_arms line (view_rvalue test) (view_value first) (view_value second)) }
{
    if are_alike(alloc, &first.ty, &second.ty)? {
        return Ok(pointer_arms(alloc, line, test, first, second)?);
    }
    if first.ty.is_pointer() && is_null(&second) {
        let ty = first.ty.copy(alloc)?;
        let second = null_of(alloc, &ty, second)?;
        return Ok(arms(alloc, line, ty, test, first, second)?);
    }
    if is_null(&first) && second.ty.is_pointer() {
        let ty = second.ty.copy(alloc)?;
        let first = null_of(alloc, &ty, first)?;
        return Ok(arms(alloc, line, ty, test, first, second)?);
    }
    if first.ty.is_void() && second.ty.is_void() {
        return Ok(arms(alloc, line, CoreType::void(alloc), test, first, second)?);
    }
    Err(refused(Rule::Typing, line))
}

#[tactic(auto, using(c_answers::proofs::After::after_laws), unfolding(crate::specs::Operators::conditional_values))]
fn conditional_values(
    alloc: Global,
    model: Machdep,
    line: Line,
    test: Rvalue,
    first: Rvalue,
    second: Rvalue,
) -> Result<Operand, Stop>
    ensures { Gives view_operand result (spec.conditional_values model line (view_rvalue test) (view_rvalue first) (view_rvalue second)) }
{
    let test = scalar(line, test)?;
    arms_of(alloc, model, line, test, first, second)
}

fn arms_of(
    alloc: Global,
    model: Machdep,
    line: Line,
    test: Rvalue,
    first: Rvalue,
    second: Rvalue,
) -> Result<Operand, Stop>
    ensures { Gives view_operand result (spec.arms_of model line (view_rvalue test) (view_rvalue first) (view_rvalue second)) }
{
    if let (Some(one), Some(other)) = (first.value.ty.kind(), second.value.ty.kind()) {
        let kind = common(model, one, other);
        return Ok(integer_arms(alloc, model, line, test, first, second, kind)?);
    }
    other_arms(alloc, line, test, first.value, second.value)
}

/// `test ? first : second` (C11 6.5.15).
#[tactic(auto, using(c_answers::proofs::After::after_laws), unfolding(crate::specs::Operators::conditional))]
pub fn conditional(
    alloc: Global,
    model: Machdep,
    line: Line,
    test: Operand,
    first: Operand,
    second: Operand,
) -> Result<Operand, Stop>
    ensures { Gives view_operand result (spec.conditional model line (view_operand test) (view_operand first) (view_operand second)) }
{
    let test = valued(alloc, line, test)?;
    let first = valued(alloc, line, first)?;
    let second = valued(alloc, line, second)?;
    conditional_values(alloc, model, line, test, first, second)
}
