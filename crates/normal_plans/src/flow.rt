// What is known of an expression before anything is made of it.
ghost use Rattle.std.specs.Prelude.{◌≡◌};
ghost use Rattle.std.specs.Option.{option_map};
ghost use Rattle.normal_plans.specs.Calls.{call_in};
ghost use Rattle.normal_plans.specs.Flow.{is_connective};
ghost use Rattle.typed_prog.specs.Tree.{values_of};
ghost use Rattle.typed_prog.specs.View.{view_value, view_values};

use typed_prog::{Effect, Value, ValueNode};

/// Whether the test of a condition is made of jumps alone.
#[tactic(auto, using(typed_prog::proofs::Equations::view_laws))]
pub fn jumps(value: &Value) -> bool
    ensures { result ≡ is_connective (view_value value.now) }
{
    match &value.node {
        ValueNode::Logic(_, _, _) => true,
        ValueNode::Constant(_) => false,
        ValueNode::Null => false,
        ValueNode::Temporary(_) => false,
        ValueNode::Apply(_, _) => false,
        ValueNode::Choose(_, _, _) => false,
        ValueNode::Effect(_, _) => false,
    }
}

// The function and the arguments, where an expression is a call.
#[tactic(auto, using(typed_prog::proofs::Equations::view_laws))]
pub(crate) fn call_of(value: &Value) -> Option<(u32, &[Value])>
    ensures { option_map (λ call. (call.0, values_of (view_values call.1.now))) result ≡ call_in (view_value value.now) }
{
    match &value.node {
        ValueNode::Effect(effect, arguments) => match effect {
            Effect::Call(function) => Some((*function, arguments.as_slice())),
            Effect::Assign(_) => None,
            Effect::Update { .. } => None,
        },
        ValueNode::Constant(_) => None,
        ValueNode::Null => None,
        ValueNode::Temporary(_) => None,
        ValueNode::Apply(_, _) => None,
        ValueNode::Logic(_, _, _) => None,
        ValueNode::Choose(_, _, _) => None,
    }
}
