// Products of two numbers of 128 bits.
ghost use Rattle.std.specs.Prelude.{◌≡◌, ◌*◌, ◌/◌, ◌%◌, ℤ, pos, ◌+ℤ◌, ◌*ℤ◌, unsigned_abs, IfOk};
ghost use Rattle.wide_sums.specs.Sums.{wide_value};

use crate::wide::Wide;
use wp_base::NoMemory;

// The one number with the sign of the other.
fn signed(by: i128, value: i128) -> Wide
    ensures { pos (unsigned_abs by) *ℤ wide_value result ≡ by *ℤ value }
{
    if by < 0 {
        Wide::negative_of(value)
    } else {
        Wide::of(value)
    }
}

// The sum with the last bit of `rest` times a power.
fn with_bit(sum: Wide, rest: u128, power: Wide) -> Result<Wide, NoMemory>
    ensures { IfOk result (λ more. wide_value more ≡ wide_value sum +ℤ pos (rest % 2) *ℤ wide_value power) }
{
    if rest % 2 == 0 {
        return Ok(sum);
    }
    let more = sum.plus(power)?;
    Ok(more)
}

fn size_of(value: i128) -> u128
    ensures { result ≡ unsigned_abs value }
{
    value.unsigned_abs()
}

/// The product of two numbers, by doubling.
pub fn product(left: i128, right: i128) -> Result<Wide, NoMemory>
    ensures { IfOk result (λ made. wide_value made ≡ left *ℤ right) }
{
    let mut power = signed(left, right);
    let mut rest = size_of(left);
    let mut sum = Wide::of(0);
    while rest != 0 {
        sum = with_bit(sum, rest, power)?;
        power = power.plus(power)?;
        rest /= 2;
    }
    Ok(sum)
}
