// Bit operators on two's complement integers without end.
ghost use Rattle.std.specs.Prelude.{◌≡◌, ◌<◌, ◌^◌};
ghost use Rattle.qed_terms.specs.Operators.{both_bits, either_bit, one_bit, turned_bits, without};
ghost use Rattle.qed_numbers.specs.View.{bits_value};

/// The bits of a number from 0 up, or those of -1 - a of a negative number a, which are its own turned over.
#[derive(Clone, Copy)]
pub struct Bits {
    pub turned: bool,
    pub ones: u128,
}

pub fn bits_of(value: i128) -> Bits
    ensures is { bits_value result ≡ value }
    ensures small { result.ones < 2 ^ 127 }
{
    if value < 0 {
        Bits {
            turned: true,
            ones: -(value + 1) as u128,
        }
    } else {
        Bits {
            turned: false,
            ones: value as u128,
        }
    }
}

pub fn number_of(bits: Bits) -> i128
    requires { bits.ones < 2 ^ 127 }
    ensures { result ≡ bits_value bits }
{
    let size = bits.ones as i128;
    if bits.turned { -1 - size } else { size }
}

// The bits that stand in the one and not in the other.
fn without(bits: u128, other: u128) -> u128
    ensures { result ≡ without bits other }
{
    bits ^ (bits & other)
}

#[tactic(auto, using(crate::proofs::Small::smalls))]
fn both(left: Bits, right: Bits) -> Bits
    requires left { left.ones < 2 ^ 127 }
    requires right { right.ones < 2 ^ 127 }
    ensures is { bits_value result ≡ both_bits (bits_value left) (bits_value right) }
    ensures small { result.ones < 2 ^ 127 }
{
    let (turned, ones) = match (left.turned, right.turned) {
        (false, false) => (false, left.ones & right.ones),
        (false, true) => (false, without(left.ones, right.ones)),
        (true, false) => (false, without(right.ones, left.ones)),
        (true, true) => (true, left.ones | right.ones),
    };
    Bits { turned, ones }
}

#[tactic(auto, using(crate::proofs::Small::smalls))]
fn either(left: Bits, right: Bits) -> Bits
    requires left { left.ones < 2 ^ 127 }
    requires right { right.ones < 2 ^ 127 }
    ensures is { bits_value result ≡ either_bit (bits_value left) (bits_value right) }
    ensures small { result.ones < 2 ^ 127 }
{
    let (turned, ones) = match (left.turned, right.turned) {
        (false, false) => (false, left.ones | right.ones),
        (false, true) => (true, without(right.ones, left.ones)),
        (true, false) => (true, without(left.ones, right.ones)),
        (true, true) => (true, left.ones & right.ones),
    };
    Bits { turned, ones }
}

#[tactic(auto, using(crate::proofs::Small::smalls))]
fn one(left: Bits, right: Bits) -> Bits
    requires left { left.ones < 2 ^ 127 }
    requires right { right.ones < 2 ^ 127 }
    ensures is { bits_value result ≡ one_bit (bits_value left) (bits_value right) }
    ensures small { result.ones < 2 ^ 127 }
{
    let turned = left.turned != right.turned;
    Bits {
        turned,
        ones: left.ones ^ right.ones,
    }
}

/// The bits that stand in both.
pub fn both_bits(left: i128, right: i128) -> i128
    ensures { result ≡ both_bits left right }
{
    number_of(both(bits_of(left), bits_of(right)))
}

/// The bits that stand in one of them or in both.
pub fn either_bit(left: i128, right: i128) -> i128
    ensures { result ≡ either_bit left right }
{
    number_of(either(bits_of(left), bits_of(right)))
}

/// The bits that stand in just one of them.
pub fn one_bit(left: i128, right: i128) -> i128
    ensures { result ≡ one_bit left right }
{
    number_of(one(bits_of(left), bits_of(right)))
}

/// All bits turned over.
pub fn turned_bits(value: i128) -> i128
    ensures { result ≡ turned_bits value }
{
    -1 - value
}
