// Full expressions (C11 6.8p4).
ghost use Rattle.std.specs.Prelude.{◌≡◌, map};
ghost use Rattle.c_sequence.specs.Sequence as spec;
ghost use Rattle.c_sequence.specs.Sequence.{plain_of};
ghost use Rattle.typed_prog.specs.Tree as t;
ghost use Rattle.typed_prog.specs.View.{view_value};

use crate::found::{Embedded, Found, all_effects, effects, variable_at};
use crate::summaries::{all_summed, is_plain, is_same, summed, updated_summed};
use typed_prog::{Effect, Op, Path, UpdateForm, Value, ValueNode, Variable};

fn are_apart(
    globals: &[bool],
    locals: &[bool],
    outer: Option<Variable>,
    inner: Option<Variable>,
) -> bool
    ensures { result ≡ spec.are_apart (plain_of globals.now locals.now) outer inner }
{
    match outer {
        None => match inner {
            None => false,
            Some(inner) => is_plain(globals, locals, inner),
        },
        Some(outer) => match inner {
            None => is_plain(globals, locals, outer),
            Some(inner) => {
                !is_same(outer, inner)
                    && (is_plain(globals, locals, outer) || is_plain(globals, locals, inner))
            }
        },
    }
}

fn targets_apart(
    globals: &[bool],
    locals: &[bool],
    outer: Option<Variable>,
    embedded: Embedded,
) -> bool
    ensures { result ≡ spec.targets_apart (plain_of globals.now locals.now) outer embedded }
{
    match embedded {
        Embedded::Call => true,
        Embedded::Change(inner) => are_apart(globals, locals, outer, inner),
    }
}

// Without an outer assignment.
fn is_fine_alone(globals: &[bool], locals: &[bool], value: &Value) -> bool
    ensures { result ≡ spec.alone_by (plain_of globals.now locals.now) (view_value value.now) (spec.effects (view_value value.now)) }
{
    match effects(value) {
        Found::Nothing => true,
        Found::One(embedded) => summed(globals, locals, embedded, value).fine,
        Found::Several => false,
    }
}

fn is_fine_assigned(globals: &[bool], locals: &[bool], path: &Path, operands: &[Value]) -> bool
    ensures { result ≡ spec.assigned_by (plain_of globals.now locals.now) path.now (t.values_of (map view_value operands.now)) (spec.all_effects (t.values_of (map view_value operands.now))) }
{
    match all_effects(operands) {
        Found::Nothing => true,
        Found::Several => false,
        Found::One(embedded) => {
            targets_apart(globals, locals, variable_at(path.root), embedded)
                && all_summed(globals, locals, embedded, operands).fine
        }
    }
}

fn is_fine_updated(globals: &[bool], locals: &[bool], path: &Path, operands: &[Value]) -> bool
    ensures { result ≡ spec.updated_by (plain_of globals.now locals.now) path.now (t.values_of (map view_value operands.now)) (spec.all_effects (t.values_of (map view_value operands.now))) }
{
    match all_effects(operands) {
        Found::Nothing => true,
        Found::Several => false,
        Found::One(embedded) => {
            targets_apart(globals, locals, variable_at(path.root), embedded)
                && updated_summed(globals, locals, embedded, path, operands).fine
        }
    }
}

fn is_fine_effect(
    globals: &[bool],
    locals: &[bool],
    value: &Value,
    effect: &Effect,
    operands: &[Value],
) -> bool
    ensures { result ≡ spec.effect_by (plain_of globals.now locals.now) (view_value value.now) effect.now (t.values_of (map view_value operands.now)) }
{
    match effect {
        Effect::Assign(path) => is_fine_assigned(globals, locals, path, operands),
        Effect::Update { path, by: _, form } => match form {
            UpdateForm::Compound => is_fine_updated(globals, locals, path, operands),
            UpdateForm::Prefix => is_fine_alone(globals, locals, value),
            UpdateForm::Postfix => is_fine_alone(globals, locals, value),
        },
        Effect::Call(_) => is_fine_alone(globals, locals, value),
    }
}

// Whether a conversion was made by the context.
fn is_of_context(op: &Op) -> bool
    ensures { result ≡ spec.is_of_context op.now }
{
    match op {
        Op::Convert => true,
        Op::Requalify => true,
        Op::Read(_) => false,
        Op::Address(_, _) => false,
        Op::Decay(_, _) => false,
        Op::Negate => false,
        Op::Complement => false,
        Op::Not => false,
        Op::Arithmetic(_) => false,
        Op::Compare(_) => false,
        Op::ComparePointers(_) => false,
        Op::Offset {
            minus: _,
            index_first: _,
            size: _,
            accessed: _,
        } => false,
        Op::Difference { size: _ } => false,
        Op::Cast => false,
    }
}

/// Whether a full expression has one result in every order that C allows, by which variables of the file and of the function are plain.
#[tactic(auto, using(typed_prog::proofs::Equations::view_laws, crate::proofs::Contexts::context_laws))]
pub fn is_sequenced(globals: &[bool], locals: &[bool], value: &Value) -> bool
    ensures { result ≡ spec.sequenced (plain_of globals.now locals.now) (view_value value.now) }
{
    let mut rest = value;
    loop {
        match &rest.node {
            ValueNode::Effect(effect, operands) => {
                return is_fine_effect(globals, locals, rest, effect, operands.as_slice());
            }
            ValueNode::Apply(op, operands) => {
                if !is_of_context(op) {
                    return is_fine_alone(globals, locals, rest);
                }
                if operands.len() != 1 {
                    return is_fine_alone(globals, locals, rest);
                }
                rest = &operands.as_slice()[0];
            }
            ValueNode::Constant(_) => return is_fine_alone(globals, locals, rest),
            ValueNode::Null => return is_fine_alone(globals, locals, rest),
            ValueNode::Temporary(_) => return is_fine_alone(globals, locals, rest),
            ValueNode::Logic(_, _, _) => return is_fine_alone(globals, locals, rest),
            ValueNode::Choose(_, _, _) => return is_fine_alone(globals, locals, rest),
        }
    }
}
