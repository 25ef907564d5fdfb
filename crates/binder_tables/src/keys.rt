// Heads of annotations as numbers.
ghost use Rattle.std.specs.Prelude.{◌≡◌, ◌&&◌};
ghost use Rattle.std.specs.Ordering.{int_eq};
ghost use Rattle.binder_names.specs.Trees as spec;
ghost use Rattle.binder_tables.specs.View.{view_key};
ghost use Rattle.wp_base.specs.Kinds as kinds;

use acsl_trees::{BinderPlace, Content, Head, Label, Range};
use typed_prog::{Arithmetic, Comparison, Variable};
use wp_base::Kind;

/// A number of a head, and three of what stands in it.
#[derive(Clone, Copy)]
struct Key {
    rank: u8,
    first: u64,
    second: u64,
    third: u64,
}

// ---- what stands in heads

fn kind_place(kind: Kind) -> u64
    ensures { result ≡ kinds.kind_place kind }
{
    match kind {
        Kind::Bool => 0,
        Kind::Char => 1,
        Kind::SChar => 2,
        Kind::UChar => 3,
        Kind::Short => 4,
        Kind::UShort => 5,
        Kind::Int => 6,
        Kind::UInt => 7,
        Kind::Long => 8,
        Kind::ULong => 9,
        Kind::LLong => 10,
        Kind::ULLong => 11,
    }
}

fn flag(is_set: bool) -> u64
    ensures { result ≡ spec.flag is_set }
{
    if is_set { 1 } else { 0 }
}

fn content_number(content: Content) -> u64
    ensures { result ≡ spec.content_number content }
{
    match content {
        Content::Integer(kind) => kind_place(kind),
        Content::Pointer => 12,
        Content::Struct(number) => u64::from(number) + 13,
    }
}

fn label_number(label: Label) -> u64
    ensures { result ≡ spec.label_number label }
{
    match label {
        Label::Here => 1,
        Label::Pre => 2,
        Label::Post => 3,
        Label::LoopEntry => 4,
    }
}

fn label_numbers(label: Option<Label>) -> u64
    ensures { result ≡ spec.label_numbers label }
{
    match label {
        None => 0,
        Some(label) => label_number(label),
    }
}

fn ends_number(low_out: bool, high_out: bool) -> u64
    ensures { result ≡ spec.ends_number low_out high_out }
{
    if low_out {
        if high_out { 12 } else { 13 }
    } else {
        if high_out { 14 } else { 15 }
    }
}

fn range_number(range: Range) -> u64
    ensures { result ≡ spec.range_number range }
{
    match range {
        Range::Between {
            low_out,
            high_out,
            place: _,
        } => ends_number(low_out, high_out),
        Range::Kind(kind, _) => kind_place(kind),
    }
}

// Where the quantifier of a range stands.
fn place_of(range: Range) -> BinderPlace
    ensures { result ≡ spec.place_of range }
{
    match range {
        Range::Between {
            low_out: _,
            high_out: _,
            place,
        } => place,
        Range::Kind(_, place) => place,
    }
}

fn arithmetic_number(op: Arithmetic) -> u64
    ensures { result ≡ spec.arithmetic_number op }
{
    match op {
        Arithmetic::Mul => 0,
        Arithmetic::Div => 1,
        Arithmetic::Rem => 2,
        Arithmetic::Add => 3,
        Arithmetic::Sub => 4,
        Arithmetic::Shl => 5,
        Arithmetic::Shr => 6,
        Arithmetic::And => 7,
        Arithmetic::Xor => 8,
        Arithmetic::Or => 9,
    }
}

fn comparison_number(op: Comparison) -> u64
    ensures { result ≡ spec.comparison_number op }
{
    match op {
        Comparison::Less => 0,
        Comparison::AtMost => 1,
        Comparison::Greater => 2,
        Comparison::AtLeast => 3,
        Comparison::Equal => 4,
        Comparison::NotEqual => 5,
    }
}

// ---- heads

fn make_key(rank: u8, first: u64, second: u64) -> Key
    ensures { view_key result ≡ spec.key rank first second }
{
    Key {
        rank,
        first,
        second,
        third: 0,
    }
}

fn variable_key(variable: Variable) -> Key
    ensures { view_key result ≡ spec.variable_key variable }
{
    match variable {
        Variable::Global(number) => make_key(6, 0, u64::from(number)),
        Variable::Local(number) => make_key(6, 1, u64::from(number)),
    }
}

// That of a quantifier over a range.
fn quantifier_key(rank: u8, range: Range) -> Key
    ensures { view_key result ≡ spec.quantifier_key rank range }
{
    let place = place_of(range);
    Key {
        rank,
        first: range_number(range),
        second: u64::from(place.line),
        third: u64::from(place.node),
    }
}

fn key_of(head: Head) -> Key
    ensures { view_key result ≡ spec.key_of head }
{
    match head {
        Head::Number(_) => make_key(0, 0, 0),
        Head::Null => make_key(1, 0, 0),
        Head::Name(name) => make_key(2, u64::from(name), 0),
        Head::Call(function) => make_key(3, u64::from(function), 0),
        Head::Result => make_key(4, 0, 0),
        Head::At(label) => make_key(5, label_number(label), 0),
        Head::Variable(variable) => variable_key(variable),
        Head::Pointed => make_key(7, 0, 0),
        Head::Field { number, offset } => make_key(8, u64::from(number), u64::from(offset)),
        Head::Element { size, count } => make_key(9, u64::from(size), u64::from(count)),
        Head::Elements { size, count } => make_key(10, u64::from(size), u64::from(count)),
        Head::Behind { size } => make_key(11, u64::from(size), 0),
        Head::Read { content, label } => make_key(
            12,
            content_number(content),
            label_numbers(label),
        ),
        Head::Address => make_key(13, 0, 0),
        Head::Moved { minus, size } => make_key(14, flag(minus), u64::from(size)),
        Head::Difference { size } => make_key(15, u64::from(size), 0),
        Head::Negate => make_key(16, 0, 0),
        Head::Complement => make_key(17, 0, 0),
        Head::Arithmetic(op) => make_key(18, arithmetic_number(op), 0),
        Head::Convert(kind) => make_key(19, kind_place(kind), 0),
        Head::Compare(op) => make_key(20, comparison_number(op), 0),
        Head::ComparePointers(op) => make_key(21, comparison_number(op), 0),
        Head::Not => make_key(22, 0, 0),
        Head::And => make_key(23, 0, 0),
        Head::Or => make_key(24, 0, 0),
        Head::Xor => make_key(25, 0, 0),
        Head::Implies => make_key(26, 0, 0),
        Head::Iff => make_key(27, 0, 0),
        Head::Choose => make_key(28, 0, 0),
        Head::Chain => make_key(29, 0, 0),
        Head::Link(op) => make_key(30, comparison_number(op), 0),
        Head::LinkPointers(op) => make_key(31, comparison_number(op), 0),
        Head::Let => make_key(32, 0, 0),
        Head::Every(range) => quantifier_key(33, range),
        Head::Some(range) => quantifier_key(34, range),
        Head::Valid { content, writable } => make_key(35, content_number(content), flag(writable)),
        Head::Separated => make_key(36, 0, 0),
        Head::Region(content) => make_key(37, content_number(content), 0),
    }
}

// The number that stands in a head, and else 0.
fn number_in(head: Head) -> i128
    ensures { result ≡ spec.number_in head }
{
    match head {
        Head::Number(number) => number,
        Head::Null
        | Head::Name(_)
        | Head::Call(_)
        | Head::Result
        | Head::At(_)
        | Head::Variable(_)
        | Head::Pointed
        | Head::Field { .. }
        | Head::Element { .. }
        | Head::Elements { .. }
        | Head::Behind { .. }
        | Head::Read { .. }
        | Head::Address
        | Head::Moved { .. }
        | Head::Difference { .. }
        | Head::Negate
        | Head::Complement
        | Head::Arithmetic(_)
        | Head::Convert(_)
        | Head::Compare(_)
        | Head::ComparePointers(_)
        | Head::Not
        | Head::And
        | Head::Or
        | Head::Xor
        | Head::Implies
        | Head::Iff
        | Head::Choose
        | Head::Chain
        | Head::Link(_)
        | Head::LinkPointers(_)
        | Head::Let
        | Head::Every(_)
        | Head::Some(_)
        | Head::Valid { .. }
        | Head::Separated
        | Head::Region(_) => 0,
    }
}

fn is_same_key(left: Key, right: Key) -> bool
    ensures { result ≡ spec.same_key (view_key left) (view_key right) }
{
    left.rank == right.rank
        && (left.first == right.first && (left.second == right.second && left.third == right.third))
}

fn is_same_number(left: i128, right: i128) -> bool
    ensures { result ≡ int_eq left right }
{
    left == right
}

/// Whether two heads are the same.
pub(crate) fn is_same_head(left: Head, right: Head) -> bool
    ensures { result ≡ spec.same_head left right }
{
    is_same_key(key_of(left), key_of(right)) && is_same_number(number_in(left), number_in(right))
}
