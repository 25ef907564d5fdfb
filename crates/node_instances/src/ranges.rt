// Ranges of kinds.
ghost use Rattle.std.specs.Prelude.{◌≡◌, ◌⊎◌, ℕ};
ghost use Rattle.wp_base.specs.declared.kinds.Kind.TheVariants as kind;
ghost use Rattle.node_instances.specs.Ranges.{kind_range};

use wp_base::Kind;

/// The least and the greatest number of a kind, and how many numbers its bits hold.
#[derive(Clone, Copy)]
pub struct Range {
    pub low: i128,
    pub high: i128,
    pub many: i128,
}

fn int_range() -> Range
    ensures { (n : ℕ) → result ≡ kind_range n kind.Int }
{
    Range {
        low: -2147483648,
        high: 2147483647,
        many: 4294967296,
    }
}

fn unsigned_range() -> Range
    ensures { (n : ℕ) → result ≡ kind_range n kind.UInt }
{
    Range {
        low: 0,
        high: 4294967295,
        many: 4294967296,
    }
}

fn wide_range() -> Range
    ensures { (n : ℕ) → result ≡ kind_range n kind.LLong }
{
    Range {
        low: -9223372036854775808,
        high: 9223372036854775807,
        many: 18446744073709551616,
    }
}

fn wide_unsigned_range() -> Range
    ensures { (n : ℕ) → result ≡ kind_range n kind.ULLong }
{
    Range {
        low: 0,
        high: 18446744073709551615,
        many: 18446744073709551616,
    }
}

#[tactic(auto, using(crate::proofs::RangeLaws::long_laws))]
fn long_range(long_bits: u8) -> Range
    requires { (long_bits ≡ 32) ⊎ (long_bits ≡ 64) }
    ensures { result ≡ kind_range long_bits kind.Long }
{
    if long_bits == 32 {
        int_range()
    } else {
        wide_range()
    }
}

#[tactic(auto, using(crate::proofs::RangeLaws::long_laws))]
fn unsigned_long_range(long_bits: u8) -> Range
    requires { (long_bits ≡ 32) ⊎ (long_bits ≡ 64) }
    ensures { result ≡ kind_range long_bits kind.ULong }
{
    if long_bits == 32 {
        unsigned_range()
    } else {
        wide_unsigned_range()
    }
}

/// The range of a kind, where `long` has so many bits.
pub fn range_of(long_bits: u8, kind: Kind) -> Range
    requires { (long_bits ≡ 32) ⊎ (long_bits ≡ 64) }
    ensures { result ≡ kind_range long_bits kind }
{
    match kind {
        Kind::Bool => Range {
            low: 0,
            high: 1,
            many: 256,
        },
        Kind::Char | Kind::SChar => Range {
            low: -128,
            high: 127,
            many: 256,
        },
        Kind::UChar => Range {
            low: 0,
            high: 255,
            many: 256,
        },
        Kind::Short => Range {
            low: -32768,
            high: 32767,
            many: 65536,
        },
        Kind::UShort => Range {
            low: 0,
            high: 65535,
            many: 65536,
        },
        Kind::Int => int_range(),
        Kind::UInt => unsigned_range(),
        Kind::Long => long_range(long_bits),
        Kind::ULong => unsigned_long_range(long_bits),
        Kind::LLong => wide_range(),
        Kind::ULLong => wide_unsigned_range(),
    }
}
