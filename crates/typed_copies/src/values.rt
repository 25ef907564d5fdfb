// Copies of expressions, each of which equals its source.
ghost use Rattle.std.specs.Prelude.{◌≡◌, IfOk};
ghost use Rattle.typed_prog.specs.declared.tree.ValueNode.TheVariants as node;

use crate::operators::{copy_effect, copy_op};
use std::alloc::Global;
use typed_prog::{Effect, Op, Value, ValueNode};
use wp_base::{Boxed, List, NoMemory};

/// The node with the type and the line of an expression.
pub fn typed_as(alloc: Global, node: ValueNode, like: &Value) -> Result<Value, NoMemory>
    ensures { IfOk result (λ made. made ≡ record { node = node; ty = like.now.ty; line = like.now.line }) }
{
    let ty = like.ty.copy(alloc)?;
    Ok(Value {
        node,
        ty,
        line: like.line,
    })
}

fn applied(alloc: Global, op: &Op, operands: List<Value>) -> Result<ValueNode, NoMemory>
    ensures { IfOk result (λ made. made ≡ node.Apply op.now operands) }
{
    let op = copy_op(alloc, op)?;
    Ok(ValueNode::Apply(op, operands))
}

fn done(alloc: Global, effect: &Effect, operands: List<Value>) -> Result<ValueNode, NoMemory>
    ensures { IfOk result (λ made. made ≡ node.Effect effect.now operands) }
{
    let effect = copy_effect(alloc, effect)?;
    Ok(ValueNode::Effect(effect, operands))
}

/// A copy of an expression.
#[cycle(copies)]
pub fn copy_value(alloc: Global, value: &Value) -> Result<Value, NoMemory>
    ensures { IfOk result (λ copy. copy ≡ value.now) }
{
    let node = copy_node(alloc, &value.node)?;
    typed_as(alloc, node, value)
}

#[cycle(copies)]
fn copy_node(alloc: Global, node: &ValueNode) -> Result<ValueNode, NoMemory>
    ensures { IfOk result (λ copy. copy ≡ node.now) }
{
    match node {
        ValueNode::Constant(number) => Ok(ValueNode::Constant(*number)),
        ValueNode::Null => Ok(ValueNode::Null),
        ValueNode::Temporary(number) => Ok(ValueNode::Temporary(*number)),
        ValueNode::Apply(op, operands) => {
            let operands = copy_values(alloc, operands.as_slice())?;
            applied(alloc, op, operands)
        }
        ValueNode::Logic(how, first, second) => {
            let first = copy_boxed(alloc, first)?;
            let second = copy_boxed(alloc, second)?;
            Ok(ValueNode::Logic(*how, first, second))
        }
        ValueNode::Choose(test, first, second) => {
            let test = copy_boxed(alloc, test)?;
            let first = copy_boxed(alloc, first)?;
            let second = copy_boxed(alloc, second)?;
            Ok(ValueNode::Choose(test, first, second))
        }
        ValueNode::Effect(effect, operands) => {
            let operands = copy_values(alloc, operands.as_slice())?;
            done(alloc, effect, operands)
        }
    }
}

#[cycle(copies)]
fn copy_boxed(alloc: Global, value: &Boxed<Value>) -> Result<Boxed<Value>, NoMemory>
    ensures { IfOk result (λ copy. copy ≡ value.now) }
{
    let copy = copy_value(alloc, value.get())?;
    Boxed::new(alloc, copy)
}

/// Copies of expressions, in order.
#[cycle(copies)]
pub fn copy_values(alloc: Global, values: &[Value]) -> Result<List<Value>, NoMemory>
    ensures { IfOk result (λ copies. copies ≡ values.now) }
{
    let mut copies = List::new(alloc);
    for value in values {
        copies.push(copy_value(alloc, value)?)?;
    }
    Ok(copies)
}
