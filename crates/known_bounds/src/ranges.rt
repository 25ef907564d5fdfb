// Ranges of integers, and what is told of sums, of orders and of numbers of two ranges.
ghost use Rattle.std.specs.Prelude.{◌≡◌, ℤ, pos, ◌+ℤ◌, ◌-ℤ◌, ◌≤ℤ◌, ◌<ℤ◌, true, ◌⊎◌};
ghost use Rattle.known_bounds.specs.Ranges.{EndOf, IsFrom, IsIn, IsOrdered, IsUpTo};

/// The numbers from `low` to `high`, both within; without an end there is no limit on its side.
#[derive(Clone, Copy)]
pub struct Range {
    pub low: Option<i128>,
    pub high: Option<i128>,
}

/// All numbers.
pub(crate) fn anything() -> Range
    ensures { (z : ℤ) → IsIn result z }
{
    Range {
        low: None,
        high: None,
    }
}

/// One number alone.
pub(crate) fn exactly(value: &i128) -> Range
    ensures { IsIn result value.now }
{
    Range {
        low: Some(*value),
        high: Some(*value),
    }
}

// ---- ends

fn end_added(left: Option<i128>, right: Option<i128>) -> Option<i128>
    ensures { EndOf (λ a b. a +ℤ b) left right result }
{
    left?.checked_add(right?)
}

fn end_taken(left: Option<i128>, right: Option<i128>) -> Option<i128>
    ensures { EndOf (λ a b. a -ℤ b) left right result }
{
    left?.checked_sub(right?)
}

// The higher of two low ends, or the only one.
fn higher(left: Option<i128>, right: Option<i128>) -> Option<i128>
    ensures { (z : ℤ) → IsFrom left z → IsFrom right z → IsFrom result z }
{
    match (left, right) {
        (Some(a), Some(b)) if a < b => right,
        (None, _) => right,
        _ => left,
    }
}

// The lower of two high ends, or the only one.
fn lower(left: Option<i128>, right: Option<i128>) -> Option<i128>
    ensures { (z : ℤ) → IsUpTo left z → IsUpTo right z → IsUpTo result z }
{
    match (left, right) {
        (Some(a), Some(b)) if b < a => right,
        (None, _) => right,
        _ => left,
    }
}

// The lower of two low ends; none where one is missing.
fn lower_start(left: Option<i128>, right: Option<i128>) -> Option<i128>
    ensures { (z : ℤ) → IsFrom left z ⊎ IsFrom right z → IsFrom result z }
{
    let a = left?;
    let b = right?;
    if a < b { left } else { right }
}

// The higher of two high ends; none where one is missing.
fn higher_end(left: Option<i128>, right: Option<i128>) -> Option<i128>
    ensures { (z : ℤ) → IsUpTo left z ⊎ IsUpTo right z → IsUpTo result z }
{
    let a = left?;
    let b = right?;
    if a < b { right } else { left }
}

// Whether every number up to the one end is below every number from the other one, or at most that.
fn is_below(is_strict: bool, high: Option<i128>, low: Option<i128>) -> bool
    ensures { result ≡ true → (a b : ℤ) → IsUpTo high a → IsFrom low b → IsOrdered is_strict a b }
{
    match (high, low) {
        (Some(high), Some(low)) if is_strict => high < low,
        (Some(high), Some(low)) => high <= low,
        _ => false,
    }
}

// ---- ranges

/// Where the sum of two numbers lies.
pub(crate) fn sum(left: Range, right: Range) -> Range
    ensures { (a b : ℤ) → IsIn left a → IsIn right b → IsIn result (a +ℤ b) }
{
    Range {
        low: end_added(left.low, right.low),
        high: end_added(left.high, right.high),
    }
}

/// Where the difference of two numbers lies.
pub(crate) fn difference(left: Range, right: Range) -> Range
    ensures { (a b : ℤ) → IsIn left a → IsIn right b → IsIn result (a -ℤ b) }
{
    Range {
        low: end_taken(left.low, right.high),
        high: end_taken(left.high, right.low),
    }
}

/// Where a number lies that is in both.
pub(crate) fn both(left: Range, right: Range) -> Range
    ensures { (z : ℤ) → IsIn left z → IsIn right z → IsIn result z }
{
    Range {
        low: higher(left.low, right.low),
        high: lower(left.high, right.high),
    }
}

/// Where a number lies that is in one of them.
pub(crate) fn either(left: Range, right: Range) -> Range
    ensures { (z : ℤ) → IsIn left z ⊎ IsIn right z → IsIn result z }
{
    Range {
        low: lower_start(left.low, right.low),
        high: higher_end(left.high, right.high),
    }
}

// ---- orders

/// Where a number lies that is below one of a range, or at most that.
pub(crate) fn below(range: Range, is_strict: bool) -> Range
    ensures { (a b : ℤ) → IsOrdered is_strict a b → IsIn range b → IsIn result a }
{
    let high = if is_strict {
        end_taken(range.high, Some(1))
    } else {
        range.high
    };
    Range { low: None, high }
}

/// Where a number lies that is above one of a range, or at least that.
pub(crate) fn above(range: Range, is_strict: bool) -> Range
    ensures { (a b : ℤ) → IsOrdered is_strict a b → IsIn range a → IsIn result b }
{
    let low = if is_strict {
        end_added(range.low, Some(1))
    } else {
        range.low
    };
    Range { low, high: None }
}

/// Whether each number of the one is below each of the other, or at most that.
pub(crate) fn are_ordered(left: Range, right: Range, is_strict: bool) -> bool
    ensures { result ≡ true → (a b : ℤ) → IsIn left a → IsIn right b → IsOrdered is_strict a b }
{
    is_below(is_strict, left.high, right.low)
}

/// Whether both have one number alone, and the same.
pub(crate) fn are_same(left: Range, right: Range) -> bool
    ensures { result ≡ true → (a b : ℤ) → IsIn left a → IsIn right b → a ≡ b }
{
    are_ordered(left, right, false) && are_ordered(right, left, false)
}

/// Whether they have no number in common.
pub(crate) fn are_apart(left: Range, right: Range) -> bool
    ensures { result ≡ true → (a b : ℤ) → IsIn left a → IsIn right b → a ≡ b → ⊥ }
{
    are_ordered(left, right, true) || are_ordered(right, left, true)
}
