// Sums, products and quotients of numbers of one kind.
ghost use Rattle.std.specs.Prelude.{◌≡◌, true, false, ◌*ℤ◌};
ghost use Rattle.wp_base.specs.Kinds.{is_signed as is_signed_of};
ghost use Rattle.c_kinds.specs.Models as kinds;
ghost use Rattle.c_kinds.specs.Numbers as spec;

use crate::conversions::is_signed;
use crate::models::Machdep;
use crate::numbers::rest_of;
use crate::ranges::range;
use wp_base::Kind;

/// Whether a number is one of the kind.
pub fn holds(model: Machdep, kind: Kind, value: i128) -> bool
    ensures { result ≡ kinds.holds model kind value }
{
    let range = range(model, kind);
    range.low <= value && value <= range.high
}

pub(crate) fn both_held(model: Machdep, kind: Kind, first: i128, second: i128) -> bool
    ensures { result ≡ spec.both_held model kind first second }
{
    holds(model, kind, first) && holds(model, kind, second)
}

/// The number, where it is one of the kind.
#[tactic(auto, unfolding(crate::specs::Numbers::held))]
pub fn held(model: Machdep, kind: Kind, value: i128) -> Option<i128>
    ensures { result ≡ spec.held model kind value }
{
    if holds(model, kind, value) {
        Some(value)
    } else {
        None
    }
}

// How many numbers an unsigned kind has.
#[tactic(auto, using(crate::proofs::Sizes::count_small))]
fn count_of(model: Machdep, kind: Kind) -> u128
    ensures { result ≡ spec.count_of model kind }
{
    range(model, kind).high.unsigned_abs() + 1
}

// What a result comes to under a kind.
#[tactic(auto, using(crate::proofs::Sizes::count_small), unfolding(crate::specs::Numbers::result_of))]
pub(crate) fn result_of(model: Machdep, kind: Kind, value: i128) -> Option<i128>
    ensures { result ≡ spec.result_of model kind value }
{
    if is_signed(kind) {
        held(model, kind, value)
    } else {
        Some(rest_of(value, count_of(model, kind)) as i128)
    }
}

/// `first + second` (C11 6.5.6).
#[tactic(auto, using(crate::proofs::Sizes::sum_fits), unfolding(crate::specs::Numbers::sum))]
pub fn sum(model: Machdep, kind: Kind, first: i128, second: i128) -> Option<i128>
    ensures { result ≡ spec.sum model kind first second }
{
    if both_held(model, kind, first, second) {
        result_of(model, kind, first + second)
    } else {
        None
    }
}

/// `first - second` (C11 6.5.6).
#[tactic(auto, using(crate::proofs::Sizes::difference_fits), unfolding(crate::specs::Numbers::difference))]
pub fn difference(model: Machdep, kind: Kind, first: i128, second: i128) -> Option<i128>
    ensures { result ≡ spec.difference model kind first second }
{
    if both_held(model, kind, first, second) {
        result_of(model, kind, first - second)
    } else {
        None
    }
}

/// `-value` (C11 6.5.3.3p3).
#[tactic(auto, using(crate::proofs::Sizes::negated_fits), unfolding(crate::specs::Numbers::negated))]
pub fn negated(model: Machdep, kind: Kind, value: i128) -> Option<i128>
    ensures { result ≡ spec.negated model kind value }
{
    if holds(model, kind, value) {
        result_of(model, kind, 0 - value)
    } else {
        None
    }
}

// The product of two numbers of a signed kind.
#[tactic(auto, using(crate::proofs::Sizes::signed_product_fits))]
fn signed_product(model: Machdep, kind: Kind, first: i128, second: i128) -> Option<i128>
    requires signed { is_signed_of kind ≡ true }
    requires held { spec.both_held model kind first second ≡ true }
    ensures { result ≡ spec.held model kind (first *ℤ second) }
{
    held(model, kind, first * second)
}

// The product of two numbers of an unsigned kind, of twice as many bits before it is reduced.
#[tactic(auto, using(crate::proofs::Sizes::unsigned_product_fits, crate::proofs::Sizes::count_small, crate::proofs::Sizes::product_rest))]
fn unsigned_product(model: Machdep, kind: Kind, first: i128, second: i128) -> i128
    requires unsigned { is_signed_of kind ≡ false }
    requires held { spec.both_held model kind first second ≡ true }
    ensures { result ≡ spec.reduced model kind (first *ℤ second) }
{
    (first.unsigned_abs() * second.unsigned_abs() % count_of(model, kind)) as i128
}

/// `first * second` (C11 6.5.5).
#[tactic(auto, unfolding(crate::specs::Numbers::product, crate::specs::Numbers::result_of))]
pub fn product(model: Machdep, kind: Kind, first: i128, second: i128) -> Option<i128>
    ensures { result ≡ spec.product model kind first second }
{
    if !both_held(model, kind, first, second) {
        None
    } else if is_signed(kind) {
        signed_product(model, kind, first, second)
    } else {
        Some(unsigned_product(model, kind, first, second))
    }
}

// Whether `/` and `%` have a value.
#[tactic(auto, using(crate::proofs::Sizes::quotient_fits))]
fn has_quotient(model: Machdep, kind: Kind, first: i128, second: i128) -> bool
    ensures { result ≡ spec.has_quotient model kind first second }
{
    if !both_held(model, kind, first, second) {
        return false;
    }
    if second == 0 {
        return false;
    }
    holds(model, kind, first / second)
}

/// `first / second` (C11 6.5.5p5, p6).
#[tactic(auto, unfolding(crate::specs::Numbers::quotient))]
pub fn quotient(model: Machdep, kind: Kind, first: i128, second: i128) -> Option<i128>
    ensures { result ≡ spec.quotient model kind first second }
{
    if has_quotient(model, kind, first, second) {
        Some(first / second)
    } else {
        None
    }
}

/// `first % second` (C11 6.5.5p5, p6).
#[tactic(auto, unfolding(crate::specs::Numbers::remainder))]
pub fn remainder(model: Machdep, kind: Kind, first: i128, second: i128) -> Option<i128>
    ensures { result ≡ spec.remainder model kind first second }
{
    if has_quotient(model, kind, first, second) {
        Some(first % second)
    } else {
        None
    }
}
