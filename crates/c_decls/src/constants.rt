// Values that are known before a program runs (C11 6.6p7, p9).
ghost use Rattle.std.specs.Prelude.{◌≡◌, ◌<◌, length, slice_get};
ghost use Rattle.c_decls.specs.Constants as spec;
ghost use Rattle.c_decls.specs.Reaching.{beside_number, is_address_alone, is_address_applied, is_address_moved, reached};
ghost use Rattle.typed_prog.specs.Tree as t;
ghost use Rattle.typed_prog.specs.View.{view_value, view_values};

use c_operands::number_of;
use typed_prog::{Op, Path, Root, Step, Value, ValueNode, Variable};

/// What tells whether a value is an address: this answer, or whether the operand with this number is one, where null counts too or not.
#[derive(Clone, Copy)]
pub enum Reach {
    Known(bool),
    Operand(bool, usize),
}

fn are_numbers(values: &[Value]) -> bool
    ensures { result ≡ spec.are_numbers (t.values_of (view_values values.now)) }
{
    let mut values = values;
    while let Some((first, rest)) = values.split_first() {
        if number_of(first).is_none() {
            return false;
        }
        values = rest;
    }
    true
}

fn is_of_file(root: Root) -> bool
    ensures { result ≡ spec.is_of_file root }
{
    match root {
        Root::Variable(Variable::Global(_)) => true,
        Root::Variable(Variable::Local(_)) => false,
        Root::Pointed(_) => false,
    }
}

fn is_inside(step: &Step) -> bool
    ensures { result ≡ spec.is_inside step.now }
{
    match step {
        Step::Field {
            number: _,
            offset: _,
        } => true,
        Step::Element {
            operand: _,
            size: _,
            count: _,
            line: _,
        } => true,
        Step::Moved {
            operand: _,
            size: _,
        } => false,
    }
}

fn are_inside(steps: &[Step]) -> bool
    ensures { result ≡ spec.are_inside steps.now }
{
    let mut steps = steps;
    while let Some((first, rest)) = steps.split_first() {
        if !is_inside(first) {
            return false;
        }
        steps = rest;
    }
    true
}

fn is_part_of_file(path: &Path, indices: &[Value]) -> bool
    ensures { result ≡ spec.is_part_of_file path.now (t.values_of (view_values indices.now)) }
{
    is_of_file(path.root) && are_inside(path.steps.as_slice()) && are_numbers(indices)
}

// By the only operand.
#[tactic(auto, using(crate::proofs::Operands::alone_laws))]
fn reach_alone(or_null: bool, operands: &[Value]) -> Reach
    ensures { reached operands.now result ≡ is_address_alone or_null (t.values_of (view_values operands.now)) }
{
    if operands.len() != 1 {
        return Reach::Known(false);
    }
    Reach::Operand(or_null, 0)
}

// By one operand, where the other one is a number.
#[tactic(auto, using(crate::proofs::Operands::number_laws))]
fn reach_beside(operands: &[Value], index: usize, pointer: usize) -> Reach
    requires { index < length operands.now }
    ensures { reached operands.now result ≡ beside_number (slice_get operands.now index) (slice_get operands.now pointer) }
{
    if number_of(&operands[index]).is_none() {
        return Reach::Known(false);
    }
    Reach::Operand(false, pointer)
}

// By one of two operands.
#[tactic(auto, using(crate::proofs::Operands::moved_laws))]
fn reach_moved(index_first: bool, operands: &[Value]) -> Reach
    ensures { reached operands.now result ≡ is_address_moved index_first (t.values_of (view_values operands.now)) }
{
    if operands.len() != 2 {
        return Reach::Known(false);
    }
    if index_first {
        reach_beside(operands, 0, 1)
    } else {
        reach_beside(operands, 1, 0)
    }
}

// By what an operator makes of its operands.
fn reach_of(or_null: bool, op: &Op, operands: &[Value]) -> Reach
    ensures { reached operands.now result ≡ is_address_applied or_null op.now (t.values_of (view_values operands.now)) }
{
    match op {
        Op::Address(path, _) => Reach::Known(is_part_of_file(path, operands)),
        Op::Decay(path, _) => Reach::Known(is_part_of_file(path, operands)),
        Op::Requalify => reach_alone(or_null, operands),
        Op::Offset {
            minus: _,
            index_first,
            size: _,
            accessed: _,
        } => reach_moved(*index_first, operands),
        Op::Read(_) => Reach::Known(false),
        Op::Negate => Reach::Known(false),
        Op::Complement => Reach::Known(false),
        Op::Not => Reach::Known(false),
        Op::Arithmetic(_) => Reach::Known(false),
        Op::Compare(_) => Reach::Known(false),
        Op::ComparePointers(_) => Reach::Known(false),
        Op::Difference { size: _ } => Reach::Known(false),
        Op::Convert => Reach::Known(false),
        Op::Cast => Reach::Known(false),
    }
}

// Whether a value is an address that is known before the program runs, or null where that counts too.
// Goes down by a loop, since sums may be as long as the text.
#[tactic(auto, using(typed_prog::proofs::Equations::view_laws, crate::proofs::Operands::reach_laws))]
fn is_address(or_null: bool, value: &Value) -> bool
    ensures { result ≡ spec.is_address or_null (view_value value.now) }
{
    let mut or_null = or_null;
    let mut value = value;
    loop {
        match &value.node {
            ValueNode::Constant(_) => return false,
            ValueNode::Null => return or_null,
            ValueNode::Temporary(_) => return false,
            ValueNode::Logic(_, _, _) => return false,
            ValueNode::Choose(_, _, _) => return false,
            ValueNode::Effect(_, _) => return false,
            ValueNode::Apply(op, operands) => match reach_of(or_null, op, operands.as_slice()) {
                Reach::Known(answer) => return answer,
                Reach::Operand(with_null, at) => {
                    if at >= operands.len() {
                        return false;
                    }
                    or_null = with_null;
                    value = &operands.as_slice()[at];
                }
            },
        }
    }
}

/// Whether a value is one that an initialiser of a variable of the file may have: a number, null, or the address of a variable of the file or of
/// a part of it, perhaps moved by a constant number.
pub fn is_constant(value: &Value) -> bool
    ensures { result ≡ spec.is_constant (view_value value.now) }
{
    number_of(value).is_some() || is_address(true, value)
}
