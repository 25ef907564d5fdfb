// Whether an assignment, an increment or a call stands in an expression.
ghost use Rattle.std.specs.Prelude.{◌≡◌};
ghost use Rattle.c_runs.specs.Values as spec;
ghost use Rattle.typed_prog.specs.Tree.{values_of};
ghost use Rattle.typed_prog.specs.View.{view_value, view_values};

use typed_prog::{Value, ValueNode};

/// Whether an effect stands in an expression.
#[cycle(effects)]
#[tactic(auto, using(typed_prog::proofs::Equations::view_laws))]
pub fn has_effect(value: &Value) -> bool
    ensures { result ≡ spec.has_effect (view_value value.now) }
{
    match &value.node {
        ValueNode::Constant(_) => false,
        ValueNode::Null => false,
        ValueNode::Temporary(_) => false,
        ValueNode::Apply(_, operands) => have_effect(operands.as_slice()),
        ValueNode::Logic(_, first, second) => has_effect(first.get()) || has_effect(second.get()),
        ValueNode::Choose(test, first, second) => {
            has_effect(test.get()) || has_effect(first.get()) || has_effect(second.get())
        }
        ValueNode::Effect(_, _) => true,
    }
}

/// Whether one stands in one of these expressions.
#[cycle(effects)]
pub fn have_effect(values: &[Value]) -> bool
    ensures { result ≡ spec.have_effect (values_of (view_values values.now)) }
{
    for value in values {
        if has_effect(value) {
            return true;
        }
    }
    false
}
