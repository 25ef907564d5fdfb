// What operators make of constants.
ghost use Rattle.std.specs.Prelude.{◌≡◌, pos};
ghost use Rattle.std.specs.Option.{option_map, option_and_then};
ghost use Rattle.c_kinds.specs.Numbers as numbers;
ghost use Rattle.c_machine.specs.Rules as spec;

use c_kinds::{
    Machdep, and_bits, at_most, bits, common, complement, convert, difference, equal, held,
    left_shift, less, negated, not_equal, or_bits, product, promote, quotient, remainder,
    right_shift, size_kind, sum, xor_bits,
};
use c_syntax::{BinOp, UnOp};
use wp_base::Kind;

/// An integer constant expression: of which kind it is, and its value where that is defined.
#[derive(Clone, Copy)]
pub struct Constant {
    pub kind: Kind,
    pub value: Option<i128>,
}

fn converted(model: Machdep, kind: Kind, value: Option<i128>) -> Option<i128>
    ensures { result ≡ spec.converted model kind value }
{
    Some(convert(model, kind, value?))
}

fn opposite(model: Machdep, kind: Kind, value: Option<i128>) -> Option<i128>
    ensures { result ≡ option_and_then (numbers.negated model kind) value }
{
    negated(model, kind, value?)
}

fn other_bits(model: Machdep, kind: Kind, value: Option<i128>) -> Option<i128>
    ensures { result ≡ option_and_then (numbers.complement model kind) value }
{
    complement(model, kind, value?)
}

fn is_zero(value: Option<i128>) -> Option<i128>
    ensures { result ≡ option_map (λ z. numbers.equal z (pos 0)) value }
{
    Some(equal(value?, 0))
}

fn is_true(value: Option<i128>) -> Option<i128>
    ensures { result ≡ option_map spec.is_true value }
{
    Some(not_equal(value?, 0))
}

/// An operator of one operand (C11 6.5.3.3).
#[tactic(auto, unfolding(crate::specs::Rules::unary_of))]
pub fn unary_of(model: Machdep, op: UnOp, of: Constant) -> Option<Constant>
    ensures { result ≡ spec.unary_of model op of }
{
    let kind = promote(of.kind);
    let value = converted(model, kind, of.value);
    match op {
        UnOp::AddressOf | UnOp::Deref => None,
        UnOp::Plus => Some(Constant { kind, value }),
        UnOp::Minus => Some(Constant {
            kind,
            value: opposite(model, kind, value),
        }),
        UnOp::BitNot => Some(Constant {
            kind,
            value: other_bits(model, kind, value),
        }),
        UnOp::Not => Some(Constant {
            kind: Kind::Int,
            value: is_zero(of.value),
        }),
    }
}

/// An operator on two numbers of their common kind (C11 6.5.5, 6.5.6, 6.5.8 to 6.5.12); none for the other operators.
pub fn operate(model: Machdep, op: BinOp, kind: Kind, first: i128, second: i128) -> Option<i128>
    ensures { result ≡ spec.operate model op kind first second }
{
    match op {
        BinOp::Mul => product(model, kind, first, second),
        BinOp::Div => quotient(model, kind, first, second),
        BinOp::Rem => remainder(model, kind, first, second),
        BinOp::Add => sum(model, kind, first, second),
        BinOp::Sub => difference(model, kind, first, second),
        BinOp::BitAnd => and_bits(model, kind, first, second),
        BinOp::BitXor => xor_bits(model, kind, first, second),
        BinOp::BitOr => or_bits(model, kind, first, second),
        BinOp::Less => Some(less(first, second)),
        BinOp::AtMost => Some(at_most(first, second)),
        BinOp::Greater => Some(less(second, first)),
        BinOp::AtLeast => Some(at_most(second, first)),
        BinOp::Equal => Some(equal(first, second)),
        BinOp::NotEqual => Some(not_equal(first, second)),
        BinOp::Shl | BinOp::Shr | BinOp::And | BinOp::Or => None,
    }
}

fn operate_on_both(
    model: Machdep,
    op: BinOp,
    kind: Kind,
    first: Option<i128>,
    second: Option<i128>,
) -> Option<i128>
    ensures { result ≡ spec.on_both (spec.operate model op kind) first second }
{
    operate(model, op, kind, first?, second?)
}

/// The kind of what an operator makes of two numbers of their common kind: `int` of a comparison.
pub fn result_kind(op: BinOp, kind: Kind) -> Kind
    ensures { result ≡ spec.result_kind op kind }
{
    match op {
        BinOp::Less
        | BinOp::AtMost
        | BinOp::Greater
        | BinOp::AtLeast
        | BinOp::Equal
        | BinOp::NotEqual => Kind::Int,
        BinOp::Mul
        | BinOp::Div
        | BinOp::Rem
        | BinOp::Add
        | BinOp::Sub
        | BinOp::Shl
        | BinOp::Shr
        | BinOp::BitAnd
        | BinOp::BitXor
        | BinOp::BitOr
        | BinOp::And
        | BinOp::Or => kind,
    }
}

// Two operands brought to their common kind.
fn joined(model: Machdep, op: BinOp, left: Constant, right: Constant) -> Constant
    ensures { result ≡ spec.joined model op left right }
{
    let kind = common(model, left.kind, right.kind);
    let first = converted(model, kind, left.value);
    let second = converted(model, kind, right.value);
    Constant {
        kind: result_kind(op, kind),
        value: operate_on_both(model, op, kind, first, second),
    }
}

/// A shift of a number of the promoted kind of its left operand (C11 6.5.7); none for the other operators.
pub fn shift(model: Machdep, op: BinOp, kind: Kind, value: i128, amount: i128) -> Option<i128>
    ensures { result ≡ spec.shift model op kind value amount }
{
    match op {
        BinOp::Shl => left_shift(model, kind, value, amount),
        BinOp::Shr => right_shift(model, kind, value, amount),
        _ => None,
    }
}

fn shift_on_both(
    model: Machdep,
    op: BinOp,
    kind: Kind,
    value: Option<i128>,
    amount: Option<i128>,
) -> Option<i128>
    ensures { result ≡ spec.on_both (spec.shift model op kind) value amount }
{
    shift(model, op, kind, value?, amount?)
}

fn shifted(model: Machdep, op: BinOp, left: Constant, right: Constant) -> Constant
    ensures { result ≡ spec.shifted model op left right }
{
    let kind = promote(left.kind);
    let value = converted(model, kind, left.value);
    let amount = converted(model, promote(right.kind), right.value);
    Constant {
        kind,
        value: shift_on_both(model, op, kind, value, amount),
    }
}

fn and_value(first: Option<i128>, second: Option<i128>) -> Option<i128>
    ensures { result ≡ spec.and_value first second }
{
    if first? == 0 {
        Some(0)
    } else {
        is_true(second)
    }
}

fn or_value(first: Option<i128>, second: Option<i128>) -> Option<i128>
    ensures { result ≡ spec.or_value first second }
{
    if first? == 0 {
        is_true(second)
    } else {
        Some(1)
    }
}

fn choose(test: Option<i128>, first: Option<i128>, second: Option<i128>) -> Option<i128>
    ensures { result ≡ spec.choose test first second }
{
    if test? == 0 { second } else { first }
}

/// `?:` (C11 6.5.15).
#[tactic(auto, unfolding(crate::specs::Rules::chosen))]
pub fn chosen(model: Machdep, test: Constant, first: Constant, second: Constant) -> Constant
    ensures { result ≡ spec.chosen model test first second }
{
    let kind = common(model, first.kind, second.kind);
    let one = converted(model, kind, first.value);
    let other = converted(model, kind, second.value);
    Constant {
        kind,
        value: choose(test.value, one, other),
    }
}

/// An operator of two operands (C11 6.5.5 to 6.5.14).
#[tactic(auto, unfolding(crate::specs::Rules::binary_of))]
pub fn binary_of(model: Machdep, op: BinOp, left: Constant, right: Constant) -> Constant
    ensures { result ≡ spec.binary_of model op left right }
{
    match op {
        BinOp::Shl | BinOp::Shr => shifted(model, op, left, right),
        BinOp::And => Constant {
            kind: Kind::Int,
            value: and_value(left.value, right.value),
        },
        BinOp::Or => Constant {
            kind: Kind::Int,
            value: or_value(left.value, right.value),
        },
        BinOp::Mul
        | BinOp::Div
        | BinOp::Rem
        | BinOp::Add
        | BinOp::Sub
        | BinOp::Less
        | BinOp::AtMost
        | BinOp::Greater
        | BinOp::AtLeast
        | BinOp::Equal
        | BinOp::NotEqual
        | BinOp::BitAnd
        | BinOp::BitXor
        | BinOp::BitOr => joined(model, op, left, right),
    }
}

/// A cast to an integer kind (C11 6.5.4).
pub fn cast_to(model: Machdep, kind: Kind, of: Constant) -> Constant
    ensures { result ≡ spec.cast_to model kind of }
{
    Constant {
        kind,
        value: converted(model, kind, of.value),
    }
}

/// How many bytes a number of the kind takes.
pub fn bytes(model: Machdep, kind: Kind) -> i128
    ensures { result ≡ spec.bytes model kind }
{
    i128::from(bits(model, kind) / 8)
}

// So many elements of a size.
#[tactic(auto, using(crate::proofs::Sizes::held_fits))]
fn elements(model: Machdep, size: i128, count: i128) -> Option<i128>
    ensures { result ≡ spec.elements model size count }
{
    if count < 1 {
        return None;
    }
    held(model, size_kind(model), size.checked_mul(count)?)
}

/// How many bytes an array takes, from those of an element and its length (C11 6.2.5p20).
#[tactic(auto, unfolding(crate::specs::Rules::array_bytes))]
pub(crate) fn array_bytes(
    model: Machdep,
    element: Option<i128>,
    length: Option<Constant>,
) -> Option<i128>
    ensures { result ≡ spec.array_bytes model element length }
{
    elements(model, element?, length?.value?)
}
