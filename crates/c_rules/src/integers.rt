// Operators on integers (C11 6.5.3.3, 6.5.5 to 6.5.14).
ghost use Rattle.std.specs.Prelude.{◌≡◌, IfOk};
ghost use Rattle.c_answers.specs.Answers.{Gives};
ghost use Rattle.c_operands.specs.Operands.{view_operand, view_rvalue};
ghost use Rattle.c_rules.specs.Integers as spec;
ghost use Rattle.typed_prog.specs.View.{view_value, view_value_node};
ghost use Rattle.typed_prog.specs.Tree as t;
ghost use Rattle.typed_prog.specs.declared.operators.Op.TheVariants as c_op;
ghost use Rattle.wp_base.specs.declared.kinds.Kind.TheVariants as kind_of;

use c_answers::refused;
use c_kinds::{Machdep, common, promote};
use c_machine::{Constant, binary_of, unary_of};
use c_operands::{Operand, Rvalue, converted, folded, number_of};
use c_syntax::{BinOp, UnOp};
use std::alloc::Global;
use typed_prog::{Arithmetic, Comparison, Op, Value, ValueNode};
use wp_base::{Kind, Line, List, NoMemory, Rule, Stop};

/// An operand as a constant, where it is an integer constant expression.
pub fn constant_in(of: &Rvalue) -> Option<Constant>
    ensures { result ≡ spec.constant_in (view_rvalue of.now) }
{
    if !of.is_constant {
        return None;
    }
    let kind = of.value.ty.kind()?;
    Some(Constant {
        kind,
        value: number_of(&of.value),
    })
}

pub(crate) fn known_of_one(model: Machdep, op: UnOp, of: Option<Constant>) -> Option<i128>
    ensures { result ≡ spec.known_of_one model op of }
{
    unary_of(model, op, of?)?.value
}

pub(crate) fn known_of_two(
    model: Machdep,
    op: BinOp,
    left: Option<Constant>,
    right: Option<Constant>,
) -> Option<i128>
    ensures { result ≡ spec.known_of_two model op left right }
{
    let left = left?;
    binary_of(model, op, left, right?).value
}

/// A node with one operand.
#[tactic(auto, using(typed_prog::proofs::Equations::view_laws))]
pub fn node_of_one(alloc: Global, op: Op, of: Value) -> Result<ValueNode, NoMemory>
    ensures { IfOk result (λ n. view_value_node n ≡ t.apply op (t.more (view_value of) t.stop)) }
{
    let mut operands = List::new(alloc);
    operands.push(of)?;
    Ok(ValueNode::Apply(op, operands))
}

/// A node with two operands.
#[tactic(auto, using(typed_prog::proofs::Equations::view_laws))]
pub(crate) fn node_of_two(
    alloc: Global,
    op: Op,
    left: Value,
    right: Value,
) -> Result<ValueNode, NoMemory>
    ensures { IfOk result (λ n. view_value_node n ≡ t.apply op (t.more (view_value left) (t.more (view_value right) t.stop))) }
{
    let mut operands = List::new(alloc);
    operands.push(left)?;
    operands.push(right)?;
    Ok(ValueNode::Apply(op, operands))
}

fn of_one(
    alloc: Global,
    model: Machdep,
    line: Line,
    op: Op,
    how: UnOp,
    kind: Kind,
    of: Rvalue,
) -> Result<Operand, NoMemory>
    ensures { IfOk result (λ x. view_operand x ≡ spec.of_one model line op how kind (view_rvalue of)) }
{
    let known = known_of_one(model, how, constant_in(&of));
    let is_constant = of.is_constant;
    let value = converted(alloc, model, kind, of.value)?;
    let node = node_of_one(alloc, op, value)?;
    Ok(folded(alloc, kind, line, node, is_constant, known))
}

/// `-` and `~`: the operand is promoted.
pub(crate) fn promoted(
    alloc: Global,
    model: Machdep,
    line: Line,
    op: Op,
    how: UnOp,
    of: Rvalue,
) -> Result<Operand, Stop>
    ensures { Gives view_operand result (spec.promoted model line op how (view_rvalue of)) }
{
    match of.value.ty.kind() {
        Some(kind) => Ok(of_one(alloc, model, line, op, how, promote(kind), of)?),
        None => Err(refused(Rule::Typing, line)),
    }
}

/// Unary `+`: the promoted operand itself.
pub(crate) fn plus(alloc: Global, model: Machdep, line: Line, of: Rvalue) -> Result<Operand, Stop>
    ensures { Gives view_operand result (spec.plus model line (view_rvalue of)) }
{
    match of.value.ty.kind() {
        Some(kind) => {
            let is_constant = of.is_constant;
            let value = converted(alloc, model, promote(kind), of.value)?;
            Ok(Operand::Value(value, is_constant))
        }
        None => Err(refused(Rule::Typing, line)),
    }
}

/// To which kinds the operands are converted, and of which the result is.
#[derive(Clone, Copy)]
pub(crate) struct Kinds {
    pub result: Kind,
    pub left: Kind,
    pub right: Kind,
}

fn of_two(
    alloc: Global,
    model: Machdep,
    line: Line,
    op: Op,
    how: BinOp,
    kinds: Kinds,
    left: Rvalue,
    right: Rvalue,
) -> Result<Operand, NoMemory>
    ensures { IfOk result (λ x. view_operand x ≡ spec.of_two model line op how kinds.result kinds.left kinds.right (view_rvalue left) (view_rvalue right)) }
{
    let known = known_of_two(model, how, constant_in(&left), constant_in(&right));
    let is_constant = left.is_constant && right.is_constant;
    let left = converted(alloc, model, kinds.left, left.value)?;
    let right = converted(alloc, model, kinds.right, right.value)?;
    let node = node_of_two(alloc, op, left, right)?;
    Ok(folded(alloc, kinds.result, line, node, is_constant, known))
}

/// An operator in the common kind of its operands.
pub(crate) fn arithmetic(
    alloc: Global,
    model: Machdep,
    line: Line,
    op: Arithmetic,
    how: BinOp,
    left: Rvalue,
    right: Rvalue,
) -> Result<Operand, Stop>
    ensures { Gives view_operand result (spec.arithmetic model line op how (view_rvalue left) (view_rvalue right)) }
{
    let (Some(first), Some(second)) = (left.value.ty.kind(), right.value.ty.kind()) else {
        return Err(refused(Rule::Typing, line));
    };
    let kind = common(model, first, second);
    let kinds = Kinds {
        result: kind,
        left: kind,
        right: kind,
    };
    Ok(of_two(
        alloc,
        model,
        line,
        Op::Arithmetic(op),
        how,
        kinds,
        left,
        right,
    )?)
}

/// A shift, which is of the promoted kind of its left operand.
pub(crate) fn shift(
    alloc: Global,
    model: Machdep,
    line: Line,
    op: Arithmetic,
    how: BinOp,
    left: Rvalue,
    right: Rvalue,
) -> Result<Operand, Stop>
    ensures { Gives view_operand result (spec.shift model line op how (view_rvalue left) (view_rvalue right)) }
{
    let (Some(first), Some(second)) = (left.value.ty.kind(), right.value.ty.kind()) else {
        return Err(refused(Rule::Typing, line));
    };
    let kinds = Kinds {
        result: promote(first),
        left: promote(first),
        right: promote(second),
    };
    Ok(of_two(
        alloc,
        model,
        line,
        Op::Arithmetic(op),
        how,
        kinds,
        left,
        right,
    )?)
}

/// A comparison of integers, which gives an `int`.
pub(crate) fn compared(
    alloc: Global,
    model: Machdep,
    line: Line,
    op: Comparison,
    how: BinOp,
    left: Rvalue,
    right: Rvalue,
    kind: Kind,
) -> Result<Operand, NoMemory>
    ensures { IfOk result (λ x. view_operand x ≡ spec.of_two model line (c_op.Compare op) how kind_of.Int kind kind (view_rvalue left) (view_rvalue right)) }
{
    let kinds = Kinds {
        result: Kind::Int,
        left: kind,
        right: kind,
    };
    of_two(alloc, model, line, Op::Compare(op), how, kinds, left, right)
}
