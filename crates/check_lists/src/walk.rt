// Checks of expressions, in the order in which evaluation comes to them. What the recursion goes down stands first.
ghost use Rattle.std.specs.Prelude.{◌≡◌, [], ◌∷◌, ◌++◌, IfOk, map};
ghost use Rattle.check_lists.specs.View as spec;
ghost use Rattle.core_trees.specs.View.{view_variables};
ghost use Rattle.c_runs.specs.Checks as checks;
ghost use Rattle.typed_prog.specs.Tree.{values_of};
ghost use Rattle.typed_prog.specs.View.{view_value, view_values};

use crate::checks::Check;
use crate::operations::push_op;
use crate::pushes::{after, extended};
use core_trees::FunctionVariable;
use std::alloc::Global;
use typed_prog::{Op, Value, ValueNode};
use wp_base::{List, NoMemory};

// Those of its operation itself.
fn push_node(
    alloc: Global,
    op: &Op,
    value: &Value,
    operands: &[Value],
    variables: &[FunctionVariable],
    way: &[u32],
    out: &mut List<Check>,
) -> Result<(), NoMemory>
    ensures { IfOk result (λ _. spec.Added out.old out.new way.now (checks.op_checks (view_variables variables.now) value.now.ty value.now.line op.now (values_of (view_values operands.now)))) }
{
    let ty = &value.ty;
    push_op(alloc, op, variables, ty, value.line, operands, way, out)
}

/// The checks of an expression to which a way leads.
#[cycle(checking)]
#[tactic(auto, using(typed_prog::proofs::Equations::view_laws, crate::proofs::Adding::adding_laws))]
pub(crate) fn push_checks(
    alloc: Global,
    value: &Value,
    variables: &[FunctionVariable],
    way: &[u32],
    out: &mut List<Check>,
) -> Result<(), NoMemory>
    ensures { IfOk result (λ _. spec.Added out.old out.new way.now (checks.checks_of (view_variables variables.now) (view_value value.now))) }
{
    match &value.node {
        ValueNode::Apply(op, operands) => {
            let operands = operands.as_slice();
            push_all(alloc, operands, variables, way, out)?;
            push_node(alloc, op, value, operands, variables, way, out)
        }
        ValueNode::Constant(_) => Ok(()),
        ValueNode::Null => Ok(()),
        ValueNode::Temporary(_) => Ok(()),
        ValueNode::Logic(_, _, _) => Ok(()),
        ValueNode::Choose(_, _, _) => Ok(()),
        ValueNode::Effect(_, _) => Ok(()),
    }
}

// Those of the operand with this number.
#[cycle(checking)]
#[tactic(auto, using(crate::proofs::Numbering::in_longer))]
fn push_operand(
    alloc: Global,
    value: &Value,
    number: u32,
    variables: &[FunctionVariable],
    way: &[u32],
    out: &mut List<Check>,
) -> Result<(), NoMemory>
    ensures { IfOk result (λ _. spec.Added out.old out.new way.now (map (checks.in_operand number) (checks.checks_of (view_variables variables.now) (view_value value.now)))) }
{
    let longer = extended(alloc, way, number)?;
    push_checks(alloc, value, variables, longer.as_slice(), out)
}

/// Those of operands, one after the other.
#[cycle(checking)]
#[tactic(auto, using(crate::proofs::Numbering::operand_laws))]
pub(crate) fn push_all(
    alloc: Global,
    values: &[Value],
    variables: &[FunctionVariable],
    way: &[u32],
    out: &mut List<Check>,
) -> Result<(), NoMemory>
    ensures { IfOk result (λ _. spec.Added out.old out.new way.now (checks.all_checks (view_variables variables.now) (values_of (view_values values.now)))) }
{
    let mut number = 0u32;
    for value in values {
        push_operand(alloc, value, number, variables, way, out)?;
        number = after(number)?;
    }
    Ok(())
}
