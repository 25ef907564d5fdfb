// What an expression is, at its head.
ghost use Rattle.std.specs.Prelude.{◌≡◌};
ghost use Rattle.c_runs.specs.Normal as spec;
ghost use Rattle.typed_prog.specs.View.{view_value};

use typed_prog::{Value, ValueNode};

/// Whether it is a temporary.
#[tactic(auto, using(typed_prog::proofs::Equations::view_laws))]
pub fn is_temp(value: &Value) -> bool
    ensures { result ≡ spec.is_temp (view_value value.now) }
{
    match &value.node {
        ValueNode::Temporary(_) => true,
        ValueNode::Constant(_) => false,
        ValueNode::Null => false,
        ValueNode::Apply(_, _) => false,
        ValueNode::Logic(_, _, _) => false,
        ValueNode::Choose(_, _, _) => false,
        ValueNode::Effect(_, _) => false,
    }
}

/// Whether it is a temporary or a constant, which stays as it is whatever is done before it is used.
#[tactic(auto, using(typed_prog::proofs::Equations::view_laws))]
pub fn is_settled(value: &Value) -> bool
    ensures { result ≡ spec.is_settled (view_value value.now) }
{
    match &value.node {
        ValueNode::Temporary(_) => true,
        ValueNode::Constant(_) => true,
        ValueNode::Null => false,
        ValueNode::Apply(_, _) => false,
        ValueNode::Logic(_, _, _) => false,
        ValueNode::Choose(_, _, _) => false,
        ValueNode::Effect(_, _) => false,
    }
}
