// Whether statements come of an expression whose effect is done.
ghost use Rattle.std.specs.Prelude.{◌≡◌, ◌≤◌, drop, length};
ghost use Rattle.c_runs.specs.Plans as spec;
ghost use Rattle.typed_prog.specs.Tree.{values_of};
ghost use Rattle.typed_prog.specs.View.{view_value, view_values};

use crate::effects::has_effect;
use typed_prog::{Value, ValueNode};

/// Whether statements come of an expression, the effect in it being done.
#[cycle(needing)]
#[tactic(auto, using(typed_prog::proofs::Equations::view_laws))]
pub fn needs(value: &Value) -> bool
    ensures { result ≡ spec.needs (view_value value.now) }
{
    match &value.node {
        ValueNode::Apply(_, operands) => need(operands.as_slice()),
        ValueNode::Logic(_, _, second) => !has_effect(second.get()),
        ValueNode::Choose(_, first, second) => {
            !(has_effect(first.get()) || has_effect(second.get()))
        }
        ValueNode::Constant(_) => false,
        ValueNode::Null => false,
        ValueNode::Temporary(_) => false,
        ValueNode::Effect(_, _) => false,
    }
}

/// Whether statements come of one of these expressions.
#[cycle(needing)]
pub fn need(values: &[Value]) -> bool
    ensures { result ≡ spec.need (values_of (view_values values.now)) }
{
    for value in values {
        if needs(value) {
            return true;
        }
    }
    false
}

/// Whether statements come of the expressions from this place on.
pub fn need_from(values: &[Value], from: usize) -> bool
    requires { from ≤ length values.now }
    ensures { result ≡ spec.need (values_of (view_values (drop from values.now))) }
{
    need(&values[from..])
}
