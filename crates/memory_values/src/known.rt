// What is known of a condition before it is made (C11 6.6).
ghost use Rattle.std.specs.Prelude.{◌≡◌};
ghost use Rattle.memory_words.specs.Words as spec;
ghost use Rattle.typed_prog.specs.View.{view_value};

use typed_prog::{Value, ValueNode};

/// The value of a condition that is a constant, or the null pointer.
#[tactic(auto, using(typed_prog::proofs::Equations::view_laws))]
pub fn known_test(value: &Value) -> Option<bool>
    ensures { result ≡ spec.known_test (view_value value.now) }
{
    match &value.node {
        ValueNode::Constant(number) => Some(*number != 0),
        ValueNode::Null => Some(false),
        ValueNode::Temporary(_) => None,
        ValueNode::Apply(_, _) => None,
        ValueNode::Logic(_, _, _) => None,
        ValueNode::Choose(_, _, _) => None,
        ValueNode::Effect(_, _) => None,
    }
}
