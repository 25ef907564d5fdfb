// Expressions that are built from others.
ghost use Rattle.std.specs.Prelude.{◌≡◌, ◌∷◌, IfOk};
ghost use Rattle.c_runs.specs.Effects as effects;
ghost use Rattle.c_runs.specs.Run as run;
ghost use Rattle.typed_prog.specs.Tree as t;
ghost use Rattle.typed_prog.specs.declared.operators.Change.TheVariants as change;
ghost use Rattle.typed_prog.specs.View.{view_value, view_values};

use normal_steps::no_value;
use std::alloc::Global;
use typed_copies::{copy_path, copy_value, copy_values, typed_as};
use typed_prog::{Arithmetic, Change, CoreType, Op, Path, Value, ValueNode};
use wp_base::{Kind, Line, List, NoMemory};

/// One more operand before the others.
pub fn in_front(alloc: Global, first: Value, others: List<Value>) -> Result<List<Value>, NoMemory>
    ensures { IfOk result (λ operands. operands ≡ first ∷ others) }
{
    let mut operands = Vec::from_array(alloc, [first])?;
    let mut others = others.into_vec();
    operands.append(&mut others)?;
    Ok(List::from_vec(operands))
}

// ---- operands

/// The operands behind the first one.
pub fn others_of(operands: &[Value]) -> &[Value]
    ensures { t.values_of (view_values result.now) ≡ run.other_operands (t.values_of (view_values operands.now)) }
{
    match operands.split_first() {
        Some((_, others)) => others,
        None => operands,
    }
}

// A copy of the first operand, or a value that is of no use.
fn first_copied(alloc: Global, operands: &[Value]) -> Result<Value, NoMemory>
    ensures { IfOk result (λ copy. view_value copy ≡ run.first_operand (t.values_of (view_values operands.now))) }
{
    match operands.split_first() {
        Some((first, _)) => copy_value(alloc, first),
        None => Ok(no_value(alloc)),
    }
}

// ---- operators

#[tactic(auto, using(typed_prog::proofs::Equations::view_laws))]
fn one_operand(
    alloc: Global,
    op: Op,
    operand: Value,
    ty: &CoreType,
    line: Line,
) -> Result<Value, NoMemory>
    ensures { IfOk result (λ made. view_value made ≡ t.typed (t.apply op (t.more (view_value operand) t.stop)) ty.now line) }
{
    let operands = Vec::from_array(alloc, [operand])?;
    let ty = ty.copy(alloc)?;
    Ok(Value {
        node: ValueNode::Apply(op, List::from_vec(operands)),
        ty,
        line,
    })
}

#[tactic(auto, using(typed_prog::proofs::Equations::view_laws))]
fn two_operands(
    alloc: Global,
    op: Op,
    first: Value,
    second: Value,
    ty: &CoreType,
    line: Line,
) -> Result<Value, NoMemory>
    ensures { IfOk result (λ made. view_value made ≡ t.typed (t.apply op (t.more (view_value first) (t.more (view_value second) t.stop))) ty.now line) }
{
    let operands = Vec::from_array(alloc, [first, second])?;
    let ty = ty.copy(alloc)?;
    Ok(Value {
        node: ValueNode::Apply(op, List::from_vec(operands)),
        ty,
        line,
    })
}

/// A read of the object at the end of a way, of the type of this expression.
#[tactic(auto, using(typed_prog::proofs::Equations::view_laws))]
pub(crate) fn read_of(
    alloc: Global,
    path: &Path,
    operands: List<Value>,
    like: &Value,
) -> Result<Value, NoMemory>
    ensures { IfOk result (λ made. view_value made ≡ run.old_value path.now like.now.ty like.now.line (t.values_of (view_values operands))) }
{
    let path = copy_path(alloc, path)?;
    typed_as(alloc, ValueNode::Apply(Op::Read(path), operands), like)
}

// ---- updates

fn integer_changed(
    alloc: Global,
    op: Arithmetic,
    kind: Kind,
    like: &Value,
    old: Value,
    other: Value,
) -> Result<Value, NoMemory>
    ensures { IfOk result (λ made. view_value made ≡ effects.changed (change.Integer op kind) like.now.ty like.now.line (view_value old) (view_value other)) }
{
    let ty = CoreType::of_kind(alloc, kind);
    let old = one_operand(alloc, Op::Convert, old, &ty, like.line)?;
    let made = two_operands(alloc, Op::Arithmetic(op), old, other, &ty, like.line)?;
    one_operand(alloc, Op::Convert, made, &like.ty, like.line)
}

/// The new value of an object of the type of `like`, from its old one and the other operand.
pub fn changed(
    alloc: Global,
    by: Change,
    like: &Value,
    old: Value,
    other: Value,
) -> Result<Value, NoMemory>
    ensures { IfOk result (λ made. view_value made ≡ effects.changed by like.now.ty like.now.line (view_value old) (view_value other)) }
{
    match by {
        Change::Integer(op, kind) => integer_changed(alloc, op, kind, like, old, other),
        Change::Pointer { minus, size } => {
            let op = Op::Offset {
                minus,
                index_first: false,
                size,
                accessed: false,
            };
            two_operands(alloc, op, old, other, &like.ty, like.line)
        }
    }
}

/// The operands of an assignment that does what an update with these operands does.
#[tactic(auto, using(crate::proofs::Building::updated_is))]
pub fn updated(
    alloc: Global,
    path: &Path,
    by: Change,
    operands: &[Value],
    like: &Value,
) -> Result<List<Value>, NoMemory>
    ensures { IfOk result (λ made. t.values_of (view_values made) ≡ run.updating path.now by like.now.ty like.now.line (t.values_of (view_values operands.now))) }
{
    let others = others_of(operands);
    let way = copy_values(alloc, others)?;
    let old = read_of(alloc, path, way, like)?;
    let first = first_copied(alloc, operands)?;
    let value = changed(alloc, by, like, old, first)?;
    let way = copy_values(alloc, others)?;
    let made = in_front(alloc, value, way)?;
    Ok(made)
}
