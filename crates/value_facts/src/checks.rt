// Whether the value of an expression of a core program may be undefined.
ghost use Rattle.std.specs.Prelude.{◌≡◌};
ghost use Rattle.core_trees.specs.View.{view_variables};
ghost use Rattle.c_runs.specs.Checks as spec;
ghost use Rattle.typed_prog.specs.Tree.{values_of};
ghost use Rattle.typed_prog.specs.View.{view_value, view_values};

use crate::operations::may_fail;
use core_trees::FunctionVariable;
use typed_prog::{Value, ValueNode};

/// Whether an expression has checks, in a function with these variables.
#[cycle(checked)]
#[tactic(auto, using(typed_prog::proofs::Equations::view_laws, crate::proofs::Failing::op_fails))]
pub fn has_checks(value: &Value, variables: &[FunctionVariable]) -> bool
    ensures { result ≡ spec.has_checks (view_variables variables.now) (view_value value.now) }
{
    match &value.node {
        ValueNode::Constant(_) => false,
        ValueNode::Null => false,
        ValueNode::Temporary(_) => false,
        ValueNode::Apply(op, operands) => {
            let operands = operands.as_slice();
            have_checks(operands, variables) || may_fail(op, variables, &value.ty, operands)
        }
        ValueNode::Logic(_, _, _) => true,
        ValueNode::Choose(_, _, _) => true,
        ValueNode::Effect(_, _) => true,
    }
}

/// Whether one of these expressions has checks.
#[cycle(checked)]
pub fn have_checks(values: &[Value], variables: &[FunctionVariable]) -> bool
    ensures { result ≡ spec.have_checks (view_variables variables.now) (values_of (view_values values.now)) }
{
    for value in values {
        if has_checks(value, variables) {
            return true;
        }
    }
    false
}
