// What is known of a condition before it is made.
ghost use Rattle.std.specs.Prelude.{◌≡◌};
ghost use Rattle.c_runs.specs.Values.{decides as decides_of};
ghost use Rattle.normal_values.specs.Flow.{is_flow as is_flow_of};
ghost use Rattle.typed_prog.specs.View.{view_value};

use typed_prog::{Connective, Value, ValueNode};
use value_facts::has_effect;

/// The truth of an operand that is that of the whole.
pub fn decides(how: Connective) -> bool
    ensures { result ≡ decides_of how }
{
    match how {
        Connective::And => false,
        Connective::Or => true,
    }
}

// Whether the test is made of jumps alone, the effect in it being done.
#[tactic(auto, using(typed_prog::proofs::Equations::view_laws))]
pub(crate) fn is_flow(value: &Value) -> bool
    ensures { result ≡ is_flow_of (view_value value.now) }
{
    match &value.node {
        ValueNode::Logic(_, _, second) => !has_effect(second.get()),
        ValueNode::Constant(_) => false,
        ValueNode::Null => false,
        ValueNode::Temporary(_) => false,
        ValueNode::Apply(_, _) => false,
        ValueNode::Choose(_, _, _) => false,
        ValueNode::Effect(_, _) => false,
    }
}
