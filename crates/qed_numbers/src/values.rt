// What division and shifts make of numbers of 128 bits.
ghost use Rattle.std.specs.Prelude.{◌≡◌, min, Some};
ghost use Rattle.wp_base.specs.Blocks.{to_nat};
ghost use Rattle.qed_terms.specs.Operators.{quotient, remainder, shifted_right};
ghost use Rattle.qed_numbers.specs.Numbers.{fitted, power_of_two};

use crate::bits::{Bits, bits_of, number_of};

/// The quotient, rounded toward 0, and 0 by 0; none where it doesn't fit.
#[tactic(auto, using(crate::proofs::Fitting::quotient_by_zero))]
pub fn quotient(left: i128, right: i128) -> Option<i128>
    ensures { result ≡ fitted (Some (quotient left right)) }
{
    if right == 0 {
        return Some(0);
    }
    left.checked_div(right)
}

/// The remainder, with the sign of the dividend; 0 by 0.
pub fn remainder(left: i128, right: i128) -> i128
    ensures { result ≡ remainder left right }
{
    if right == 0 || right == -1 {
        return 0;
    }
    left % right
}

// How many places a number of 128 bits is shifted by, where more than 127 shift it as far.
fn places(by: i128) -> u32
    ensures { result ≡ min (to_nat by) 127 }
{
    if by <= 0 {
        return 0;
    }
    if by < 127 { by as u32 } else { 127 }
}

/// The number divided by 2^by, rounded down; a negative `by` counts as 0.
#[tactic(auto, using(crate::proofs::Shifts::shift_is, crate::proofs::Shifts::shift_small))]
pub fn shifted_right(value: i128, by: i128) -> i128
    ensures { result ≡ shifted_right value by }
{
    let bits = bits_of(value);
    number_of(Bits {
        turned: bits.turned,
        ones: bits.ones >> places(by),
    })
}

/// 2^by, where a negative `by` counts as 0; none for more than 126.
pub fn power_of_two(by: i128) -> Option<i128>
    ensures { result ≡ power_of_two by }
{
    let places = places(by);
    if places > 126 {
        return None;
    }
    Some((1u128 << places) as i128)
}
