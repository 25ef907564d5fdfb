// What is known of a condition before it is made (C11 6.6).
ghost use Rattle.std.specs.Prelude.{◌≡◌};
ghost use Rattle.program_steps.specs.Words as spec;
ghost use Rattle.c_runs.specs.Checks as checks;
ghost use Rattle.typed_prog.specs.View.{view_value, view_value_node};

use typed_prog::{Value, ValueNode};

// The number of a constant.
#[tactic(auto, using(typed_prog::proofs::Equations::view_laws))]
fn constant_of(value: &Value) -> Option<i128>
    ensures { result ≡ checks.constant_of (view_value_node value.now.node) }
{
    match &value.node {
        ValueNode::Constant(number) => Some(*number),
        ValueNode::Null => None,
        ValueNode::Temporary(_) => None,
        ValueNode::Apply(_, _) => None,
        ValueNode::Logic(_, _, _) => None,
        ValueNode::Choose(_, _, _) => None,
        ValueNode::Effect(_, _) => None,
    }
}

/// The value of a condition that is a constant.
pub fn known_test(value: &Value) -> Option<bool>
    ensures { result ≡ spec.known_test (view_value value.now) }
{
    match constant_of(value) {
        Some(number) => Some(number != 0),
        None => None,
    }
}
