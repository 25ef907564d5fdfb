// Whether an operation itself may be undefined, its operands having their values.
ghost use Rattle.std.specs.Prelude.{◌≡◌, slice_get};
ghost use Rattle.std.specs.Option.{option_copied, option_map};
ghost use Rattle.c_runs.specs.Objects as objects;
ghost use Rattle.c_runs.specs.Operators.{is_order as is_order_of};
ghost use Rattle.c_runs.specs.Values.{kind_at};
ghost use Rattle.core_trees.specs.View.{view_variables};
ghost use Rattle.c_runs.specs.Checks as checks;
ghost use Rattle.typed_prog.specs.Tree.{values_of};
ghost use Rattle.typed_prog.specs.View.{view_value_node, view_values};
ghost use Rattle.value_facts.specs.MayFail as spec;
ghost use Rattle.wp_base.specs.Kinds.{is_signed as is_signed_of};

use core_trees::FunctionVariable;
use typed_prog::{
    Arithmetic, Comparison, CoreType, Op, Path, Root, Step, Value, ValueNode, Variable,
};
use wp_base::Kind;

// ---- objects

// Whether an array is indexed on a way.
fn is_indexed(steps: &[Step]) -> bool
    ensures { result ≡ spec.is_indexed steps.now }
{
    for step in steps {
        match step {
            Step::Element { .. } => return true,
            Step::Field { .. } | Step::Moved { .. } => {}
        }
    }
    false
}

fn variable_at(variables: &[FunctionVariable], number: u32) -> Option<&FunctionVariable>
    ensures { option_copied result ≡ slice_get variables.now number }
{
    variables.get(number as usize)
}

/// Of a variable that no pointer leads to, whether it has a value from its declaration on; none where a way begins elsewhere.
#[tactic(auto, using(crate::proofs::Failing::variable_is))]
pub fn plain_value(variables: &[FunctionVariable], root: Root) -> Option<bool>
    ensures { result ≡ option_map (objects.has_value (view_variables variables.now)) (objects.plain_root (view_variables variables.now) root) }
{
    match root {
        Root::Variable(Variable::Local(number)) => match variable_at(variables, number) {
            None => None,
            Some(variable) => {
                if variable.is_plain {
                    Some(variable.has_value)
                } else {
                    None
                }
            }
        },
        Root::Variable(Variable::Global(_)) => None,
        Root::Pointed(_) => None,
    }
}

/// Whether a way begins where a pointer leads.
pub fn is_pointed(root: Root) -> bool
    ensures { result ≡ objects.is_pointed root }
{
    match root {
        Root::Pointed(_) => true,
        Root::Variable(_) => false,
    }
}

fn read_may_fail(variables: &[FunctionVariable], path: &Path) -> bool
    ensures { result ≡ spec.read_may_fail (spec.plain_value (view_variables variables.now) path.now) path.now }
{
    match plain_value(variables, path.root) {
        Some(has_value) => !has_value,
        None => is_indexed(path.steps.as_slice()) || is_pointed(path.root),
    }
}

// A pointer to an object that isn't at once followed.
fn address_may_fail(path: &Path, accessed: bool) -> bool
    ensures { result ≡ spec.address_may_fail accessed path.now }
{
    !(accessed || path.steps.len() == 0)
}

// ---- integers

fn is_signed(kind: Kind) -> bool
    ensures { result ≡ is_signed_of kind }
{
    matches!(
        kind,
        Kind::Char | Kind::SChar | Kind::Short | Kind::Int | Kind::Long | Kind::LLong
    )
}

/// Whether integers of the type have a sign.
pub fn is_signed_at(ty: &CoreType) -> bool
    ensures { result ≡ is_signed_of (kind_at ty.now) }
{
    match ty.kind() {
        Some(kind) => is_signed(kind),
        None => true,
    }
}

// The second operand, where it is a number as spelled.
#[tactic(auto, using(typed_prog::proofs::Equations::view_laws))]
fn constant_of(value: &Value) -> Option<i128>
    ensures { result ≡ checks.constant_of (view_value_node value.now.node) }
{
    match &value.node {
        ValueNode::Constant(number) => Some(*number),
        ValueNode::Null => None,
        ValueNode::Temporary(_) => None,
        ValueNode::Apply(_, _) => None,
        ValueNode::Logic(_, _, _) => None,
        ValueNode::Choose(_, _, _) => None,
        ValueNode::Effect(_, _) => None,
    }
}

fn second_of(operands: &[Value]) -> Option<&Value>
    ensures { option_copied result ≡ slice_get operands.now 1 }
{
    operands.get(1)
}

/// The second operand, where it is a number as spelled.
#[tactic(auto, using(crate::proofs::Failing::second_constant_is))]
pub fn second_constant(operands: &[Value]) -> Option<i128>
    ensures { result ≡ checks.second_constant (values_of (view_values operands.now)) }
{
    match second_of(operands) {
        Some(second) => constant_of(second),
        None => None,
    }
}

/// Whether a divisor may be 0.
pub fn may_be_zero(number: Option<i128>) -> bool
    ensures { result ≡ checks.may_be_zero number }
{
    match number {
        None => true,
        Some(number) => number == 0,
    }
}

/// Whether a divisor may be -1 or 0.
pub fn may_be_minus_one(number: Option<i128>) -> bool
    ensures { result ≡ checks.may_be_minus_one number }
{
    match number {
        None => true,
        Some(number) => number == 0 || number == -1,
    }
}

fn arithmetic_may_fail(op: Arithmetic, signed: bool, second: Option<i128>) -> bool
    ensures { result ≡ spec.arithmetic_may_fail op signed second }
{
    match op {
        Arithmetic::Mul | Arithmetic::Add | Arithmetic::Sub => signed,
        Arithmetic::Div | Arithmetic::Rem => {
            may_be_zero(second) || (signed && may_be_minus_one(second))
        }
        Arithmetic::Shl | Arithmetic::Shr => true,
        Arithmetic::And | Arithmetic::Xor | Arithmetic::Or => false,
    }
}

/// Whether a comparison is one of order.
pub fn is_order(how: Comparison) -> bool
    ensures { result ≡ is_order_of how }
{
    !matches!(how, Comparison::Equal | Comparison::NotEqual)
}

// ---- operators

/// Whether an operation of this type on these operands has checks of its own.
pub fn may_fail(op: &Op, variables: &[FunctionVariable], ty: &CoreType, operands: &[Value]) -> bool
    ensures { result ≡ spec.op_may_fail op.now (view_variables variables.now) ty.now (values_of (view_values operands.now)) }
{
    match op {
        Op::Read(path) => read_may_fail(variables, path),
        Op::Address(path, accessed) => address_may_fail(path, *accessed),
        Op::Decay(path, accessed) => address_may_fail(path, *accessed),
        Op::Negate => is_signed_at(ty),
        Op::Arithmetic(op) => arithmetic_may_fail(*op, is_signed_at(ty), second_constant(operands)),
        Op::ComparePointers(how) => is_order(*how),
        Op::Offset { accessed, .. } => !*accessed,
        Op::Difference { .. } => true,
        Op::Complement => false,
        Op::Not => false,
        Op::Compare(_) => false,
        Op::Convert => false,
        Op::Requalify => false,
        Op::Cast => false,
    }
}
