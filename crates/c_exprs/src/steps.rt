// Operators over what was typed, and what stands around the operands of casts and calls.
ghost use Rattle.std.specs.Prelude.{◌≡◌, IfOk};
ghost use Rattle.c_answers.specs.Answers.{Gives, after};
ghost use Rattle.c_exprs.specs.Frames.{Given};
ghost use Rattle.c_exprs.specs.Typing as spec;
ghost use Rattle.c_operands.specs.Operands.{view_operand};
ghost use Rattle.c_rules.specs.Operators.{conditional as chosen};
ghost use Rattle.c_scopes.specs.Meanings.{named as named_type};
ghost use Rattle.c_syntax.specs.View.{view_ctype};
ghost use Rattle.typed_prog.specs.View.{view_value, view_values};

use crate::leaves::{cast_type, field_named};
use c_answers::refused;
use c_kinds::Machdep;
use c_operands::{Operand, assignable, valued};
use c_places::{address, assigned, cast, compound, dereferenced, dotted_struct, member_by};
use c_rules::{complement, conditional, minus, not_of, unary_plus};
use c_scopes::{Resolved, Scope, is_void_pointer, named};
use c_syntax::{BinOp, CType, UnOp};
use std::alloc::Global;
use typed_prog::{CoreType, Effect, Value, ValueNode};
use wp_base::{Line, List, NoMemory, Rule, Stop, Str};

#[tactic(auto, unfolding(crate::specs::Typing::unary))]
fn unary(
    alloc: Global,
    model: Machdep,
    line: Line,
    op: UnOp,
    operand: Operand,
) -> Result<Operand, Stop>
    ensures { Gives view_operand result (spec.unary model line op (view_operand operand)) }
{
    match op {
        UnOp::AddressOf => address(alloc, line, operand),
        UnOp::Deref => dereferenced(alloc, line, operand),
        UnOp::Plus => unary_plus(alloc, model, line, operand),
        UnOp::Minus => minus(alloc, model, line, operand),
        UnOp::BitNot => complement(alloc, model, line, operand),
        UnOp::Not => not_of(alloc, model, line, operand),
    }
}

/// A prefix operator over what was typed, or the fault in that.
#[tactic(auto, using(c_answers::proofs::After::after_laws))]
pub(crate) fn unary_of(
    alloc: Global,
    model: Machdep,
    line: Line,
    op: UnOp,
    operand: Result<Operand, Stop>,
) -> Result<Operand, Stop>
    ensures { (given : Given) → Gives view_operand operand given → Gives view_operand result (after given (spec.unary model line op)) }
{
    match operand {
        Ok(operand) => unary(alloc, model, line, op, operand),
        Err(stop) => Err(stop),
    }
}

/// `=` or a compound assignment.
#[tactic(auto, unfolding(crate::specs::Typing::assign))]
pub(crate) fn assign(
    alloc: Global,
    model: Machdep,
    sizes: &[u32],
    line: Line,
    op: Option<BinOp>,
    place: Operand,
    value: Operand,
) -> Result<Operand, Stop>
    ensures { Gives view_operand result (spec.assign model sizes.now line op (view_operand place) (view_operand value)) }
{
    match op {
        None => assigned(alloc, model, line, place, value),
        Some(op) => compound(alloc, model, sizes, line, op, place, value),
    }
}

#[tactic(auto, unfolding(c_places::specs::Objects::member))]
fn member(
    alloc: Global,
    scope: &Scope,
    line: Line,
    name: &Str,
    operand: Operand,
) -> Result<Operand, Stop>
    ensures { Gives view_operand result (spec.member_named scope.now line name.now (view_operand operand)) }
{
    match dotted_struct(&operand) {
        None => Err(refused(Rule::Typing, line)),
        Some(structure) => {
            let field = field_named(alloc, scope, name, structure)?;
            member_by(line, operand, field)
        }
    }
}

/// `.` and `->`.
#[tactic(auto, using(c_answers::proofs::After::after_laws), unfolding(crate::specs::Typing::field))]
pub(crate) fn field(
    alloc: Global,
    scope: &Scope,
    line: Line,
    name: &Str,
    arrow: bool,
    operand: Operand,
) -> Result<Operand, Stop>
    ensures { Gives view_operand result (spec.field scope.now line name.now arrow (view_operand operand)) }
{
    if arrow {
        let operand = dereferenced(alloc, line, operand)?;
        return member(alloc, scope, line, name, operand);
    }
    member(alloc, scope, line, name, operand)
}

#[tactic(auto, using(c_answers::proofs::After::after_laws))]
fn cast_to_type(
    alloc: Global,
    model: Machdep,
    scope: &Scope,
    line: Line,
    ty: &CType,
    named: Option<Resolved>,
    operand: Operand,
) -> Result<Operand, Stop>
    ensures { Gives view_operand result (spec.cast_to_type model scope.now line (view_ctype ty.now) named (view_operand operand)) }
{
    let is_void_pointer = is_void_pointer(alloc, &scope.file, line, ty)?;
    let to = cast_type(alloc, line, is_void_pointer, named)?;
    cast(alloc, model, line, to, operand)
}

/// A cast over what was typed. The names in its type come first, then the fault in the operand, then whether it is a type.
#[tactic(auto, using(c_answers::proofs::After::after_laws))]
pub(crate) fn cast_of(
    alloc: Global,
    model: Machdep,
    scope: &Scope,
    line: Line,
    ty: &CType,
    operand: Result<Operand, Stop>,
) -> Result<Operand, Stop>
    ensures { (given : Given) → Gives view_operand operand given → Gives view_operand result (after (named_type scope.now.file line (view_ctype ty.now)) (λ t. after given (spec.cast_to_type model scope.now line (view_ctype ty.now) t))) }
{
    let named = named(alloc, &scope.file, line, ty)?;
    match operand {
        Ok(operand) => cast_to_type(alloc, model, scope, line, ty, named, operand),
        Err(stop) => Err(stop),
    }
}

/// `?:` over what was typed, or the first fault in its operands.
#[tactic(auto, using(c_answers::proofs::After::after_laws))]
pub(crate) fn conditional_of(
    alloc: Global,
    model: Machdep,
    line: Line,
    test: Result<Operand, Stop>,
    first: Result<Operand, Stop>,
    second: Result<Operand, Stop>,
) -> Result<Operand, Stop>
    ensures { (a b c : Given) → Gives view_operand test a → Gives view_operand first b → Gives view_operand second c → Gives view_operand result (after a (λ x. after b (λ y. after c (chosen model line x y)))) }
{
    match test {
        Err(stop) => Err(stop),
        Ok(test) => match first {
            Err(stop) => Err(stop),
            Ok(first) => match second {
                Err(stop) => Err(stop),
                Ok(second) => conditional(alloc, model, line, test, first, second),
            },
        },
    }
}

#[tactic(auto, using(c_answers::proofs::After::after_laws), unfolding(crate::specs::Typing::passed))]
fn passed(
    alloc: Global,
    model: Machdep,
    line: Line,
    ty: &CoreType,
    operand: Operand,
) -> Result<Value, Stop>
    ensures { Gives view_value result (spec.passed model line ty.now (view_operand operand)) }
{
    let operand = valued(alloc, line, operand)?;
    assignable(alloc, model, line, ty, operand.value)
}

/// An argument that was typed, for a parameter of this type, or the fault in it.
#[tactic(auto, using(c_answers::proofs::After::after_laws))]
pub(crate) fn argument(
    alloc: Global,
    model: Machdep,
    line: Line,
    ty: &CoreType,
    operand: Result<Operand, Stop>,
) -> Result<Value, Stop>
    ensures { (given : Given) → Gives view_operand operand given → Gives view_value result (after given (spec.passed model line ty.now)) }
{
    match operand {
        Ok(operand) => passed(alloc, model, line, ty, operand),
        Err(stop) => Err(stop),
    }
}

/// A call of the function with this number.
#[tactic(auto, using(typed_prog::proofs::Equations::view_laws))]
pub(crate) fn call_made(
    alloc: Global,
    line: Line,
    function: u32,
    ty: &CoreType,
    args: List<Value>,
) -> Result<Operand, NoMemory>
    ensures { IfOk result (λ x. view_operand x ≡ spec.call_made line function ty.now (view_values args)) }
{
    let ty = ty.copy(alloc)?;
    let value = Value {
        node: ValueNode::Effect(Effect::Call(function), args),
        ty,
        line,
    };
    Ok(Operand::Value(value, false))
}
