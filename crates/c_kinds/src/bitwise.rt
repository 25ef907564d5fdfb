// Shifts, and operators on the bits of numbers.
ghost use Rattle.std.specs.Prelude.{◌≡◌, ◌^◌, ◌<◌, true, pos, ◌*ℤ◌, ◌≤ℤ◌, unsigned_abs};
ghost use Rattle.wp_base.specs.Kinds.{floor_div};
ghost use Rattle.c_kinds.specs.Numbers as spec;

use crate::arithmetic::{both_held, holds, result_of};
use crate::models::Machdep;
use crate::numbers::{convert, half_of, rest_of};
use wp_base::Kind;

// Whether a number can be shifted by so many bits.
fn can_shift(model: Machdep, kind: Kind, value: i128, amount: i128) -> bool
    ensures { result ≡ spec.can_shift model kind value amount }
{
    holds(model, kind, value) && 0 <= amount && amount < i128::from(bits(model, kind))
}

/// How many bits a kind has (C11 5.2.4.2.1, 6.2.6.2).
pub fn bits(model: Machdep, kind: Kind) -> u32
    ensures { result ≡ spec.bits model kind }
{
    match (kind, model) {
        (Kind::Bool | Kind::Char | Kind::SChar | Kind::UChar, _) => 8,
        (Kind::Short | Kind::UShort, _) => 16,
        (Kind::Int | Kind::UInt, _) | (Kind::Long | Kind::ULong, Machdep::X86_32) => 32,
        (Kind::LLong | Kind::ULLong, _) | (Kind::Long | Kind::ULong, Machdep::X86_64) => 64,
    }
}

// A number that isn't negative, shifted to the left.
#[tactic(auto, using(crate::proofs::Sizes::shifted_fits, crate::proofs::Sizes::amount_small, crate::proofs::Sizes::shifted_is))]
fn shifted(model: Machdep, kind: Kind, value: i128, amount: i128) -> i128
    requires held { spec.can_shift model kind value amount ≡ true }
    requires natural { pos 0 ≤ℤ value }
    ensures { result ≡ (value *ℤ pos (2 ^ unsigned_abs amount)) }
{
    (value.unsigned_abs() * 2u128.pow(amount.unsigned_abs() as u32)) as i128
}

/// `value << amount` (C11 6.5.7p4).
#[tactic(auto, unfolding(crate::specs::Numbers::left_shift))]
pub fn left_shift(model: Machdep, kind: Kind, value: i128, amount: i128) -> Option<i128>
    ensures { result ≡ spec.left_shift model kind value amount }
{
    if can_shift(model, kind, value, amount) && 0 <= value {
        result_of(model, kind, shifted(model, kind, value, amount))
    } else {
        None
    }
}

// A number divided by two so many times, and rounded down.
fn halved(value: i128, times: u32) -> i128
    requires { times < 64 }
    ensures { result ≡ floor_div value (2 ^ times) }
{
    value >> times
}

/// `value >> amount` (C11 6.5.7p5).
#[tactic(auto, using(crate::proofs::Sizes::amount_small), unfolding(crate::specs::Numbers::right_shift))]
pub fn right_shift(model: Machdep, kind: Kind, value: i128, amount: i128) -> Option<i128>
    ensures { result ≡ spec.right_shift model kind value amount }
{
    if can_shift(model, kind, value, amount) {
        Some(halved(value, amount.unsigned_abs() as u32))
    } else {
        None
    }
}

// How many numbers there are of a kind's bits.
#[tactic(auto, using(crate::proofs::Converting::power_twice, crate::proofs::Converting::bits_some, crate::proofs::Sizes::bits_small))]
fn all_bits(model: Machdep, kind: Kind) -> u128
    ensures { result ≡ 2 ^ spec.bits model kind }
{
    2 * half_of(model, kind)
}

// The bits of a number, as a number without sign.
#[tactic(auto, using(crate::proofs::Sizes::bits_small, crate::proofs::Sizes::bits_below))]
fn bits_of(model: Machdep, kind: Kind, value: i128) -> u64
    ensures { result ≡ spec.bits_of model kind value }
{
    rest_of(value, all_bits(model, kind)) as u64
}

/// `first & second` (C11 6.5.10).
#[tactic(auto, unfolding(crate::specs::Numbers::and_bits))]
pub fn and_bits(model: Machdep, kind: Kind, first: i128, second: i128) -> Option<i128>
    ensures { result ≡ spec.and_bits model kind first second }
{
    if both_held(model, kind, first, second) {
        let both = bits_of(model, kind, first) & bits_of(model, kind, second);
        Some(convert(model, kind, i128::from(both)))
    } else {
        None
    }
}

/// `first ^ second` (C11 6.5.11).
#[tactic(auto, unfolding(crate::specs::Numbers::xor_bits))]
pub fn xor_bits(model: Machdep, kind: Kind, first: i128, second: i128) -> Option<i128>
    ensures { result ≡ spec.xor_bits model kind first second }
{
    if both_held(model, kind, first, second) {
        let one = bits_of(model, kind, first) ^ bits_of(model, kind, second);
        Some(convert(model, kind, i128::from(one)))
    } else {
        None
    }
}

/// `first | second` (C11 6.5.12).
#[tactic(auto, unfolding(crate::specs::Numbers::or_bits))]
pub fn or_bits(model: Machdep, kind: Kind, first: i128, second: i128) -> Option<i128>
    ensures { result ≡ spec.or_bits model kind first second }
{
    if both_held(model, kind, first, second) {
        let either = bits_of(model, kind, first) | bits_of(model, kind, second);
        Some(convert(model, kind, i128::from(either)))
    } else {
        None
    }
}

/// `~value` (C11 6.5.3.3p4).
#[tactic(auto, using(crate::proofs::Sizes::bits_small, crate::proofs::Sizes::bits_below), unfolding(crate::specs::Numbers::complement))]
pub fn complement(model: Machdep, kind: Kind, value: i128) -> Option<i128>
    ensures { result ≡ spec.complement model kind value }
{
    if holds(model, kind, value) {
        let other = (all_bits(model, kind) - 1) as u64 - bits_of(model, kind, value);
        Some(convert(model, kind, i128::from(other)))
    } else {
        None
    }
}
