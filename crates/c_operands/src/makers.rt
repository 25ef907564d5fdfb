// Nodes of typed trees.
ghost use Rattle.std.specs.Prelude.{◌≡◌, [], ◌∷◌, IfOk};
ghost use Rattle.c_operands.specs.Operands.{applied};
ghost use Rattle.c_operands.specs.Conversions as spec;
ghost use Rattle.typed_prog.specs.Tree as t;
ghost use Rattle.typed_prog.specs.View.{view_value, view_values};

use std::alloc::Global;
use typed_prog::{CoreType, Op, Value, ValueNode};
use wp_base::{Kind, Line, List, NoMemory};

/// An operator over these operands.
#[tactic(auto, using(typed_prog::proofs::Equations::view_laws))]
pub fn applied_to_all(op: Op, operands: List<Value>, ty: CoreType, line: Line) -> Value
    ensures { view_value result ≡ applied op (view_values operands) ty line }
{
    Value {
        node: ValueNode::Apply(op, operands),
        ty,
        line,
    }
}

/// An operator over one operand.
pub fn applied_to_one(
    alloc: Global,
    op: Op,
    operand: Value,
    ty: CoreType,
    line: Line,
) -> Result<Value, NoMemory>
    ensures { IfOk result (λ v. view_value v ≡ applied op (view_value operand ∷ []) ty line) }
{
    let mut operands = List::new(alloc);
    operands.push(operand)?;
    Ok(applied_to_all(op, operands, ty, line))
}

/// An operator over two operands.
pub fn applied_to_two(
    alloc: Global,
    op: Op,
    first: Value,
    second: Value,
    ty: CoreType,
    line: Line,
) -> Result<Value, NoMemory>
    ensures { IfOk result (λ v. view_value v ≡ applied op (view_value first ∷ view_value second ∷ []) ty line) }
{
    let mut operands = List::new(alloc);
    operands.push(first)?;
    operands.push(second)?;
    Ok(applied_to_all(op, operands, ty, line))
}

/// An integer constant expression with this value.
#[tactic(auto, using(typed_prog::proofs::Equations::view_laws), unfolding(crate::specs::Conversions::number))]
pub fn number(alloc: Global, kind: Kind, number: i128, line: Line) -> Value
    ensures { view_value result ≡ spec.number kind number line }
{
    Value {
        node: ValueNode::Constant(number),
        ty: CoreType::of_kind(alloc, kind),
        line,
    }
}

/// The null pointer of this type.
#[tactic(auto, using(typed_prog::proofs::Equations::view_laws))]
pub fn null(ty: CoreType, line: Line) -> Value
    ensures { view_value result ≡ t.typed t.null ty line }
{
    Value {
        node: ValueNode::Null,
        ty,
        line,
    }
}
