// Objects and values (C11 6.3.2.1).
ghost use Rattle.std.specs.Prelude.{◌≡◌, IfOk};
ghost use Rattle.c_answers.specs.Answers.{Gives};
ghost use Rattle.c_operands.specs.Operands as spec;
ghost use Rattle.typed_prog.specs.View.{view_value, view_value_node};

use crate::makers::applied_to_all;
use c_answers::refused;
use std::alloc::Global;
use std::mem;
use typed_prog::{CoreType, Op, Path, Value, ValueNode};
use wp_base::{Line, List, NoMemory, Rule, Stop};

/// An object: the way to it, the operands of that way, and its type.
#[derive(Drop)]
pub struct Place {
    pub path: Path,
    pub operands: List<Value>,
    pub ty: CoreType,
}

/// A typed expression.
#[derive(Drop)]
pub enum Operand {
    /// An object, and whether it is constant.
    Object(Place, bool),
    /// A value, and whether it is an integer constant expression (C11 6.6p6).
    Value(Value, bool),
}

/// A value, and whether it is an integer constant expression.
#[derive(Drop)]
pub struct Rvalue {
    pub value: Value,
    pub is_constant: bool,
}

/// The value of an operand, for the operator on this line: what an object holds, a pointer to the first element of an array, or the value itself.
/// A struct has none, which is a fault at the operator.
#[tactic(auto, unfolding(crate::specs::Operands::valued))]
pub fn valued(alloc: Global, line: Line, operand: Operand) -> Result<Rvalue, Stop>
    ensures { Gives spec.view_rvalue result (spec.valued line (spec.view_operand operand)) }
{
    match operand {
        Operand::Value(value, is_constant) => Ok(Rvalue { value, is_constant }),
        Operand::Object(place, is_const) => object_value(alloc, line, place, is_const),
    }
}

fn object_value(alloc: Global, line: Line, place: Place, is_const: bool) -> Result<Rvalue, Stop>
    ensures { Gives spec.view_rvalue result (spec.object_value line (spec.view_place place) is_const place.ty.count place.ty.stars place.ty.base) }
{
    if place.ty.count.is_some() {
        return Ok(decayed(alloc, place, is_const)?);
    }
    if place.ty.structure().is_some() {
        return Err(refused(Rule::Typing, line));
    }
    Ok(was_read(place))
}

fn decayed(alloc: Global, place: Place, is_const: bool) -> Result<Rvalue, NoMemory>
    ensures { IfOk result (λ x. spec.view_rvalue x ≡ spec.decayed (spec.view_place place) is_const) }
{
    let ty = place.ty.pointer(alloc, is_const)?;
    let Place {
        path,
        operands,
        ty: _,
    } = place;
    let line = path.line;
    let value = applied_to_all(Op::Decay(path, false), operands, ty, line);
    Ok(Rvalue {
        value,
        is_constant: false,
    })
}

fn was_read(place: Place) -> Rvalue
    ensures { spec.view_rvalue result ≡ spec.was_read (spec.view_place place) }
{
    let Place { path, operands, ty } = place;
    let line = path.line;
    let value = applied_to_all(Op::Read(path), operands, ty, line);
    Rvalue {
        value,
        is_constant: false,
    }
}

/// The same pointer, with a note whether `*` or `->` follows it at once.
#[tactic(auto, unfolding(crate::specs::Operands::followed))]
pub fn followed(accessed: bool, value: Value) -> Value
    ensures { view_value result ≡ spec.followed accessed (view_value value) }
{
    let mut value = value;
    let node = mem::replace(&mut value.node, ValueNode::Null);
    value.node = node_followed(accessed, node);
    value
}

#[tactic(auto, using(typed_prog::proofs::Equations::view_laws))]
fn node_followed(accessed: bool, node: ValueNode) -> ValueNode
    ensures { view_value_node result ≡ spec.node_followed accessed (view_value_node node) }
{
    match node {
        ValueNode::Apply(op, operands) => ValueNode::Apply(op_followed(accessed, op), operands),
        ValueNode::Constant(number) => ValueNode::Constant(number),
        ValueNode::Null => ValueNode::Null,
        ValueNode::Temporary(number) => ValueNode::Temporary(number),
        ValueNode::Logic(how, first, second) => ValueNode::Logic(how, first, second),
        ValueNode::Choose(test, first, second) => ValueNode::Choose(test, first, second),
        ValueNode::Effect(effect, operands) => ValueNode::Effect(effect, operands),
    }
}

fn op_followed(accessed: bool, op: Op) -> Op
    ensures { result ≡ spec.op_followed accessed op }
{
    match op {
        Op::Address(path, _) => Op::Address(path, accessed),
        Op::Decay(path, _) => Op::Decay(path, accessed),
        Op::Offset {
            minus,
            index_first,
            size,
            accessed: _,
        } => Op::Offset {
            minus,
            index_first,
            size,
            accessed,
        },
        Op::Read(path) => Op::Read(path),
        Op::Negate => Op::Negate,
        Op::Complement => Op::Complement,
        Op::Not => Op::Not,
        Op::Arithmetic(how) => Op::Arithmetic(how),
        Op::Compare(how) => Op::Compare(how),
        Op::ComparePointers(how) => Op::ComparePointers(how),
        Op::Difference { size } => Op::Difference { size },
        Op::Convert => Op::Convert,
        Op::Requalify => Op::Requalify,
        Op::Cast => Op::Cast,
    }
}
