// Integer constant expressions (C11 6.6), and null (C11 6.3.2.3p3).
ghost use Rattle.std.specs.Prelude.{◌≡◌, IfOk};
ghost use Rattle.c_operands.specs.Conversions as spec;
ghost use Rattle.c_operands.specs.Operands.{view_operand};
ghost use Rattle.typed_prog.specs.View.{view_value, view_value_node};

use crate::makers::number;
use crate::operands::Operand;
use std::alloc::Global;
use typed_prog::{Base, CoreType, Value, ValueNode};
use wp_base::{Kind, Line};

/// The number that an expression is, where it is an integer constant expression with a value.
#[tactic(auto, using(typed_prog::proofs::Equations::view_laws))]
pub fn number_of(value: &Value) -> Option<i128>
    ensures { result ≡ spec.number_of (view_value value.now) }
{
    match &value.node {
        ValueNode::Constant(number) => Some(*number),
        ValueNode::Null => None,
        ValueNode::Temporary(_) => None,
        ValueNode::Apply(_, _) => None,
        ValueNode::Logic(_, _, _) => None,
        ValueNode::Choose(_, _, _) => None,
        ValueNode::Effect(_, _) => None,
    }
}

/// What an operator makes: the number, where its operands are constant and its value is defined; else this node of the kind.
#[tactic(auto, unfolding(crate::specs::Conversions::folded))]
pub fn folded(
    alloc: Global,
    kind: Kind,
    line: Line,
    node: ValueNode,
    is_constant: bool,
    known: Option<i128>,
) -> Operand
    ensures { view_operand result ≡ spec.folded kind line (view_value_node node) is_constant known }
{
    match known {
        Some(known) => Operand::Value(number(alloc, kind, known, line), true),
        None => Operand::Value(
            Value {
                node,
                ty: CoreType::of_kind(alloc, kind),
                line,
            },
            is_constant,
        ),
    }
}

/// Whether this is a null pointer constant: an integer constant expression of value 0, or one cast to `void *`.
pub fn is_null(value: &Value) -> bool
    ensures { result ≡ spec.is_null (view_value value.now) }
{
    match number_of(value) {
        Some(number) => number == 0,
        None => is_untyped_null(&value.node, points_to_void(&value.ty)),
    }
}

#[tactic(auto, using(typed_prog::proofs::Equations::view_laws))]
fn is_untyped_null(node: &ValueNode, is_void_pointer: bool) -> bool
    ensures { result ≡ spec.is_untyped_null (view_value_node node.now) is_void_pointer }
{
    match node {
        ValueNode::Null => is_void_pointer,
        ValueNode::Constant(_) => false,
        ValueNode::Temporary(_) => false,
        ValueNode::Apply(_, _) => false,
        ValueNode::Logic(_, _, _) => false,
        ValueNode::Choose(_, _, _) => false,
        ValueNode::Effect(_, _) => false,
    }
}

fn points_to_void(ty: &CoreType) -> bool
    ensures { result ≡ spec.points_to_void ty.now.base ty.now.stars ty.now.count }
{
    if ty.count.is_some() {
        return false;
    }
    let Base::Void = ty.base else {
        return false;
    };
    match ty.stars.as_slice() {
        [is_const] => !*is_const,
        _ => false,
    }
}
