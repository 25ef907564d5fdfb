// The ranges of the kinds.
ghost use Rattle.std.specs.Prelude.{◌≡◌};
ghost use Rattle.c_kinds.specs.Models as spec;

use crate::models::{Machdep, Range};
use wp_base::Kind;

/// The numbers that a kind holds (C11 6.2.5, 6.2.6.2): signed kinds are two's complement, plain `char` is signed, `_Bool` holds 0 and 1.
pub fn range(model: Machdep, kind: Kind) -> Range
    ensures { result ≡ spec.range_of model kind }
{
    let (low, high) = match (kind, model) {
        (Kind::Bool, _) => (0, 1),
        (Kind::Char | Kind::SChar, _) => (-128, 127),
        (Kind::UChar, _) => (0, 255),
        (Kind::Short, _) => (-32_768, 32_767),
        (Kind::UShort, _) => (0, 65_535),
        (Kind::Int, _) | (Kind::Long, Machdep::X86_32) => (-2_147_483_648, 2_147_483_647),
        (Kind::UInt, _) | (Kind::ULong, Machdep::X86_32) => (0, 4_294_967_295),
        (Kind::LLong, _) | (Kind::Long, Machdep::X86_64) => (
            -9_223_372_036_854_775_808,
            9_223_372_036_854_775_807,
        ),
        (Kind::ULLong, _) | (Kind::ULong, Machdep::X86_64) => (0, 18_446_744_073_709_551_615),
    };
    Range { low, high }
}
