// Which expressions are over integers alone (C11 6.5).
ghost use Rattle.std.specs.Prelude.{◌≡◌};
ghost use Rattle.std.specs.Option.{option_map};
ghost use Rattle.plain_test.specs.Plain as spec;
ghost use Rattle.typed_prog.specs.Tree.{values_of};
ghost use Rattle.typed_prog.specs.View.{view_value, view_value_node, view_values};

use c_kinds::{Machdep, holds};
use typed_prog::{Change, CoreType, Effect, Op, Path, Root, Value, ValueNode};
use wp_base::Kind;

// ---- types

pub(crate) fn is_integer_type(ty: &CoreType) -> bool
    ensures { result ≡ spec.is_integer_type ty.now }
{
    ty.kind().is_some()
}

pub(crate) fn is_value_type(ty: &CoreType) -> bool
    ensures { result ≡ spec.is_value_type ty.now }
{
    is_integer_type(ty) || ty.is_void()
}

// ---- operators

fn is_plain_path(path: &Path) -> bool
    ensures { result ≡ spec.is_plain_path path.now }
{
    match path.root {
        Root::Variable(_) => path.steps.len() == 0,
        Root::Pointed(_) => false,
    }
}

fn is_plain_op(op: &Op) -> bool
    ensures { result ≡ spec.is_plain_op op.now }
{
    match op {
        Op::Read(path) => is_plain_path(path),
        Op::Address(_, _) => false,
        Op::Decay(_, _) => false,
        Op::Negate => true,
        Op::Complement => true,
        Op::Not => true,
        Op::Arithmetic(_) => true,
        Op::Compare(_) => true,
        Op::ComparePointers(_) => false,
        Op::Offset { .. } => false,
        Op::Difference { .. } => false,
        Op::Convert => true,
        Op::Requalify => false,
        Op::Cast => true,
    }
}

fn is_integer_change(by: Change) -> bool
    ensures { result ≡ spec.is_integer_change by }
{
    match by {
        Change::Integer(_, _) => true,
        Change::Pointer { .. } => false,
    }
}

fn is_plain_effect(effect: &Effect) -> bool
    ensures { result ≡ spec.is_plain_effect effect.now }
{
    match effect {
        Effect::Assign(path) => is_plain_path(path),
        Effect::Update { path, by, form: _ } => is_plain_path(path) && is_integer_change(*by),
        Effect::Call(_) => true,
    }
}

#[tactic(auto, using(crate::proofs::Lists::one_laws))]
fn is_one(values: &[Value]) -> bool
    ensures { result ≡ spec.is_one (values_of (view_values values.now)) }
{
    values.len() == 1
}

fn has_operands(effect: &Effect, operands: &[Value]) -> bool
    ensures { result ≡ spec.has_operands effect.now (values_of (view_values operands.now)) }
{
    match effect {
        Effect::Assign(_) => is_one(operands),
        Effect::Update { .. } => is_one(operands),
        Effect::Call(_) => true,
    }
}

pub(crate) fn is_number_of(model: Machdep, kind: Option<Kind>, number: &i128) -> bool
    ensures { result ≡ spec.is_number_of model kind number.now }
{
    match kind {
        Some(kind) => holds(model, kind, *number),
        None => false,
    }
}

// ---- expressions

#[cycle(plain_values)]
#[tactic(auto, using(typed_prog::proofs::Equations::view_laws))]
fn is_plain_node(model: Machdep, ty: &CoreType, node: &ValueNode) -> bool
    ensures { result ≡ spec.is_plain_node model ty.now (view_value_node node.now) }
{
    match node {
        ValueNode::Constant(number) => is_number_of(model, ty.kind(), number),
        ValueNode::Null => false,
        ValueNode::Temporary(_) => false,
        ValueNode::Apply(op, operands) => {
            is_plain_op(op) && are_plain_values(model, operands.as_slice())
        }
        ValueNode::Logic(_, first, second) => {
            is_plain_value(model, first.get()) && is_plain_value(model, second.get())
        }
        ValueNode::Choose(test, first, second) => {
            is_plain_value(model, test.get())
                && (is_plain_value(model, first.get()) && is_plain_value(model, second.get()))
        }
        ValueNode::Effect(effect, operands) => {
            is_plain_effect(effect)
                && (has_operands(effect, operands.as_slice())
                    && are_plain_values(model, operands.as_slice()))
        }
    }
}

#[cycle(plain_values)]
pub(crate) fn is_plain_value(model: Machdep, value: &Value) -> bool
    ensures { result ≡ spec.is_plain_value model (view_value value.now) }
{
    is_value_type(&value.ty) && is_plain_node(model, &value.ty, &value.node)
}

#[cycle(plain_values)]
#[tactic(auto, using(crate::proofs::Lists::values_laws))]
fn are_plain_values(model: Machdep, values: &[Value]) -> bool
    ensures { result ≡ spec.are_plain_values model (values_of (view_values values.now)) }
{
    for i in 0..values.len() {
        let fits = is_plain_value(model, &values[i]);
        if !fits {
            return false;
        }
    }
    true
}

pub(crate) fn if_plain(model: Machdep, value: &Option<Value>) -> bool
    ensures { result ≡ spec.if_plain model (option_map view_value value.now) }
{
    match value {
        Some(value) => is_plain_value(model, value),
        None => true,
    }
}
