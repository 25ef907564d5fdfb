// What expressions speak of.
ghost use Rattle.std.specs.Prelude.{◌≡◌, ◌∷◌, [], None, OnOk};
ghost use Rattle.std.specs.Option.{option_map};
ghost use Rattle.core_trees.specs.View.{view_variables};
ghost use Rattle.program_cells.specs.Programs as spec;
ghost use Rattle.program_cells.specs.View.{Adds};
ghost use Rattle.program_trees.specs.View.{view_facts};
ghost use Rattle.typed_prog.specs.Tree.{values_of};
ghost use Rattle.typed_prog.specs.View.{view_value, view_value_node, view_values};
ghost use Rattle.value_terms.specs.Typed as typed;
ghost use Rattle.c_runs.specs.Objects as objects;

use crate::cells::{Cells, add_blocks, add_kind};
use crate::trees::is_plain_at;
use crate::types::add_type;
use core_trees::FunctionVariable;
use program_trees::Facts;
use typed_prog::{CoreType, Op, Path, Root, Value, ValueNode, Variable};
use wp_base::{CellKind, Kind, NoMemory};

// ---- kinds

/// The kind of what an expression of this type gives.
fn kind_given(ty: &CoreType) -> CellKind
    ensures { result ≡ typed.kind_given ty.now }
{
    if ty.is_pointer() {
        return CellKind::Ptr;
    }
    match ty.kind() {
        Some(kind) => CellKind::Of(kind),
        None => CellKind::Of(Kind::Int),
    }
}

/// The cell of a scalar of this type.
pub(crate) fn cell_of(ty: &CoreType) -> CellKind
    ensures { result ≡ objects.cell_of ty.now }
{
    match ty.kind() {
        Some(kind) => CellKind::Of(kind),
        None => CellKind::Ptr,
    }
}

// ---- places

// Whether a way begins at a variable that no pointer leads to.
fn is_plain_root(facts: &Facts, own: &[FunctionVariable], root: Root) -> bool
    ensures { result ≡ spec.is_plain_root (view_facts facts.now) (view_variables own.now) root }
{
    match root {
        Root::Variable(Variable::Global(number)) => is_plain_at(facts.globals.as_slice(), number),
        Root::Variable(Variable::Local(number)) => is_plain_at(own, number),
        Root::Pointed(_) => false,
    }
}

/// The cell that is read or written at the end of a way.
#[tactic(auto, using(crate::proofs::Adding::nothing, crate::proofs::Adding::first_then))]
pub(crate) fn add_place(
    facts: &Facts,
    own: &[FunctionVariable],
    path: &Path,
    kind: CellKind,
    cells: &mut Cells,
) -> Result<(), NoMemory>
    ensures { OnOk result (Adds cells.old cells.new (spec.place_parts (view_facts facts.now) (view_variables own.now) path.now kind)) }
{
    if is_plain_root(facts, own, path.root) {
        return Ok(());
    }
    add_blocks(cells);
    add_kind(kind, cells)?;
    Ok(())
}

// ---- expressions

#[tactic(auto, using(crate::proofs::Adding::nothing))]
fn add_op(
    facts: &Facts,
    own: &[FunctionVariable],
    ty: &CoreType,
    op: &Op,
    cells: &mut Cells,
) -> Result<(), NoMemory>
    ensures { OnOk result (Adds cells.old cells.new (spec.op_parts (view_facts facts.now) (view_variables own.now) ty.now op.now)) }
{
    match op {
        Op::Read(path) => {
            add_place(facts, own, path, kind_given(ty), cells)?;
            Ok(())
        }
        Op::Address(_, _)
        | Op::Decay(_, _)
        | Op::ComparePointers(_)
        | Op::Offset {
            minus: _,
            index_first: _,
            size: _,
            accessed: _,
        }
        | Op::Difference { size: _ } => {
            add_blocks(cells);
            Ok(())
        }
        _ => Ok(()),
    }
}

/// An expression.
#[cycle(add_value)]
#[tactic(auto, using(crate::proofs::Expressions::value_laws))]
pub(crate) fn add_value(
    value: &Value,
    facts: &Facts,
    own: &[FunctionVariable],
    cells: &mut Cells,
) -> Result<(), NoMemory>
    ensures { OnOk result (Adds cells.old cells.new (spec.value_parts (view_facts facts.now) (view_variables own.now) (view_value value.now))) }
{
    add_type(facts, &value.ty, cells)?;
    add_node(&value.node, &value.ty, facts, own, cells)?;
    Ok(())
}

#[cycle(add_value)]
#[tactic(auto, using(crate::proofs::Expressions::node_laws, typed_prog::proofs::Equations::view_laws))]
fn add_node(
    node: &ValueNode,
    ty: &CoreType,
    facts: &Facts,
    own: &[FunctionVariable],
    cells: &mut Cells,
) -> Result<(), NoMemory>
    ensures { OnOk result (Adds cells.old cells.new (spec.node_parts (view_facts facts.now) (view_variables own.now) ty.now (view_value_node node.now))) }
{
    match node {
        ValueNode::Constant(_) => Ok(()),
        ValueNode::Null => Ok(()),
        ValueNode::Temporary(_) => Ok(()),
        ValueNode::Apply(op, operands) => {
            add_op(facts, own, ty, op, cells)?;
            add_values(operands.as_slice(), facts, own, cells)?;
            Ok(())
        }
        ValueNode::Logic(_, first, second) => {
            add_value(first.get(), facts, own, cells)?;
            add_value(second.get(), facts, own, cells)?;
            Ok(())
        }
        ValueNode::Choose(test, first, second) => {
            add_value(test.get(), facts, own, cells)?;
            add_value(first.get(), facts, own, cells)?;
            add_value(second.get(), facts, own, cells)?;
            Ok(())
        }
        ValueNode::Effect(_, operands) => {
            add_values(operands.as_slice(), facts, own, cells)?;
            Ok(())
        }
    }
}

/// Expressions, one after the other.
#[cycle(add_value)]
#[tactic(auto, using(crate::proofs::Expressions::parts_of_values, crate::proofs::Adding::onward_laws))]
pub(crate) fn add_values(
    values: &[Value],
    facts: &Facts,
    own: &[FunctionVariable],
    cells: &mut Cells,
) -> Result<(), NoMemory>
    ensures { OnOk result (Adds cells.old cells.new (spec.values_parts (view_facts facts.now) (view_variables own.now) (values_of (view_values values.now)))) }
{
    for at in 0..values.len() {
        add_value(&values[at], facts, own, cells)?;
    }
    Ok(())
}
