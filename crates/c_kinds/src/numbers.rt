// Conversion of numbers to kinds.
ghost use Rattle.std.specs.Prelude.{◌≡◌, ◌+◌, ◌-◌, ◌*◌, ◌/◌, ◌%◌, ◌^◌, ◌<◌, ◌≤◌, pos, ◌-ℤ◌};
ghost use Rattle.wp_base.specs.Kinds.{floor_mod, kind_bits};
ghost use Rattle.c_kinds.specs.Models as spec;

use crate::conversions::is_signed;
use crate::models::Machdep;
use wp_base::Kind;

// Half of how many numbers there are of a kind's bits.
pub(crate) fn half_of(model: Machdep, kind: Kind) -> u128
    ensures { result ≡ 2 ^ (kind_bits (spec.long_bits model) kind - 1) }
{
    match (kind, model) {
        (Kind::Bool | Kind::Char | Kind::SChar | Kind::UChar, _) => 0x80,
        (Kind::Short | Kind::UShort, _) => 0x8000,
        (Kind::Int | Kind::UInt, _) | (Kind::Long | Kind::ULong, Machdep::X86_32) => 0x8000_0000,
        (Kind::LLong | Kind::ULLong, _) | (Kind::Long | Kind::ULong, Machdep::X86_64) =>
            0x8000_0000_0000_0000,
    }
}

// What is left of the number modulo this one.
#[tactic(auto, using(crate::proofs::Converting::rest_is, crate::proofs::Converting::rest_below))]
pub(crate) fn rest_of(value: i128, count: u128) -> u128
    requires some { 0 < count }
    requires small { count ≤ 2 ^ 64 }
    ensures { result ≡ floor_mod value count }
{
    value.rem_euclid(count as i128) as u128
}

// The number from minus the half on that is the same modulo twice the half.
fn signed_of(rest: u128, half: u128) -> i128
    requires some { 0 < half }
    requires small { half ≤ 2 ^ 63 }
    requires below { rest < 2 * half }
    ensures { result ≡ pos ((rest + half) % (2 * half)) -ℤ pos half }
{
    ((rest + half) % (2 * half)) as i128 - half as i128
}

/// The number as one of the kind: 0 or 1 for `_Bool` (C11 6.3.1.2), else the number of the kind that is the same modulo 2^bits
/// (C11 6.3.1.3; for signed kinds this project's choice).
pub fn convert(model: Machdep, kind: Kind, value: i128) -> i128
    ensures { result ≡ spec.convert model kind value }
{
    if kind == Kind::Bool {
        return i128::from(value != 0);
    }
    let half = half_of(model, kind);
    let rest = rest_of(value, 2 * half);
    if is_signed(kind) {
        signed_of(rest, half)
    } else {
        rest as i128
    }
}
