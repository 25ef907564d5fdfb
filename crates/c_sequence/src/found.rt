// The effects in an expression.
ghost use Rattle.std.specs.Prelude.{◌≡◌, map};
ghost use Rattle.c_sequence.specs.Sequence as spec;
ghost use Rattle.typed_prog.specs.Tree as t;
ghost use Rattle.typed_prog.specs.View.{view_value, view_value_node};

use typed_prog::{Effect, Root, Value, ValueNode, Variable};

/// What an effect inside a full expression does: it calls, or changes what lies in a variable, or what is pointed to.
#[derive(Clone, Copy)]
pub enum Embedded {
    Call,
    Change(Option<Variable>),
}

/// How many effects an expression holds, and which one where it is one.
#[derive(Clone, Copy)]
pub enum Found {
    Nothing,
    One(Embedded),
    Several,
}

/// The variable in which an object lies; none where it is pointed to.
pub(crate) fn variable_at(root: Root) -> Option<Variable>
    ensures { result ≡ spec.variable_at root }
{
    match root {
        Root::Variable(variable) => Some(variable),
        Root::Pointed(_) => None,
    }
}

fn embedded_in(effect: &Effect) -> Embedded
    ensures { result ≡ spec.embedded_in effect.now }
{
    match effect {
        Effect::Assign(path) => Embedded::Change(variable_at(path.root)),
        Effect::Update {
            path,
            by: _,
            form: _,
        } => Embedded::Change(variable_at(path.root)),
        Effect::Call(_) => Embedded::Call,
    }
}

fn and_also(first: Found, second: Found) -> Found
    ensures { result ≡ spec.and_also first second }
{
    match first {
        Found::Nothing => second,
        Found::Several => Found::Several,
        Found::One(found) => match second {
            Found::Nothing => Found::One(found),
            Found::One(_) | Found::Several => Found::Several,
        },
    }
}

/// The effects in an expression.
// Goes down the operand in which the forms may be as many as there are tokens: the first one, or the last arm of a choice.
#[cycle(effects)]
#[tactic(auto, using(typed_prog::proofs::Equations::view_laws, crate::proofs::Down::effect_turns))]
pub fn effects(value: &Value) -> Found
    ensures { result ≡ spec.node_effects (view_value_node value.now.node) }
{
    let mut found = Found::Nothing;
    let mut rest = value;
    loop {
        match &rest.node {
            ValueNode::Constant(_) => return found,
            ValueNode::Null => return found,
            ValueNode::Temporary(_) => return found,
            ValueNode::Apply(_, operands) => {
                let Some((first, others)) = operands.as_slice().split_first() else {
                    return found;
                };
                found = and_also(all_effects(others), found);
                rest = first;
            }
            ValueNode::Logic(_, first, second) => {
                found = and_also(effects(second.get()), found);
                rest = first.get();
            }
            ValueNode::Choose(test, first, second) => {
                let before = and_also(effects(test.get()), effects(first.get()));
                found = and_also(before, found);
                rest = second.get();
            }
            ValueNode::Effect(effect, operands) => {
                found = and_also(Found::One(embedded_in(effect)), found);
                let Some((first, others)) = operands.as_slice().split_first() else {
                    return found;
                };
                found = and_also(all_effects(others), found);
                rest = first;
            }
        }
    }
}

/// The effects in all operands.
// From the last operand on, as the definition puts the first one before the others.
#[cycle(effects)]
#[tactic(auto, using(crate::proofs::Operands::effect_laws))]
pub(crate) fn all_effects(operands: &[Value]) -> Found
    ensures { result ≡ spec.all_effects (t.values_of (map view_value operands.now)) }
{
    let mut found = Found::Nothing;
    let mut left = operands.len();
    while left > 0 {
        left -= 1;
        found = and_also(effects(&operands[left]), found);
    }
    found
}
