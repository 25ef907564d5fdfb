// Promotion and the usual arithmetic conversions.
ghost use Rattle.std.specs.Prelude.{◌≡◌};
ghost use Rattle.wp_base.specs.Kinds.{is_signed as is_signed_of};
ghost use Rattle.c_kinds.specs.Conversions as spec;
ghost use Rattle.c_kinds.specs.Models as kinds;

use crate::models::Machdep;
use crate::ranges::range;
use wp_base::Kind;

fn rank(kind: Kind) -> u8
    ensures { result ≡ spec.rank kind }
{
    match kind {
        Kind::Bool => 0,
        Kind::Char | Kind::SChar | Kind::UChar => 1,
        Kind::Short | Kind::UShort => 2,
        Kind::Int | Kind::UInt => 3,
        Kind::Long | Kind::ULong => 4,
        Kind::LLong | Kind::ULLong => 5,
    }
}

pub(crate) fn is_signed(kind: Kind) -> bool
    ensures { result ≡ is_signed_of kind }
{
    matches!(
        kind,
        Kind::Char | Kind::SChar | Kind::Short | Kind::Int | Kind::Long | Kind::LLong
    )
}

/// The kind that an operand of this kind is promoted to (C11 6.3.1.1p2): `int` for kinds of a lower rank, all of whose numbers it holds.
pub fn promote(kind: Kind) -> Kind
    ensures { result ≡ spec.promote kind }
{
    if rank(kind) < rank(Kind::Int) {
        Kind::Int
    } else {
        kind
    }
}

fn unsigned_of(kind: Kind) -> Kind
    ensures { result ≡ spec.unsigned_of kind }
{
    match kind {
        Kind::Int => Kind::UInt,
        Kind::Long => Kind::ULong,
        Kind::LLong => Kind::ULLong,
        _ => kind,
    }
}

fn holds_all(model: Machdep, kind: Kind, other: Kind) -> bool
    ensures { result ≡ spec.holds_all model kind other }
{
    let (all, some) = (range(model, kind), range(model, other));
    all.low <= some.low && some.high <= all.high
}

fn of_rank(first: Kind, second: Kind) -> Kind
    ensures { result ≡ spec.of_rank first second }
{
    if rank(first) < rank(second) {
        second
    } else {
        first
    }
}

fn of_both(model: Machdep, signed: Kind, unsigned: Kind) -> Kind
    ensures { result ≡ spec.of_both model signed unsigned }
{
    if rank(signed) <= rank(unsigned) {
        unsigned
    } else if holds_all(model, signed, unsigned) {
        signed
    } else {
        unsigned_of(signed)
    }
}

/// The kind in which two operands of these kinds are added, compared and the like (the usual arithmetic conversions, C11 6.3.1.8).
pub fn common(model: Machdep, first: Kind, second: Kind) -> Kind
    ensures { result ≡ spec.common model first second }
{
    let (first, second) = (promote(first), promote(second));
    match (is_signed(first), is_signed(second)) {
        (true, true) | (false, false) => of_rank(first, second),
        (true, false) => of_both(model, first, second),
        (false, true) => of_both(model, second, first),
    }
}

/// The kind of `sizeof` (C11 6.5.3.4p5, 7.19).
pub fn size_kind(model: Machdep) -> Kind
    ensures { result ≡ kinds.size_kind model }
{
    match model {
        Machdep::X86_32 => Kind::UInt,
        Machdep::X86_64 => Kind::ULong,
    }
}

/// The kind of the difference of two pointers (C11 6.5.6p9).
pub fn difference_kind(model: Machdep) -> Kind
    ensures { result ≡ kinds.difference_kind model }
{
    match model {
        Machdep::X86_32 => Kind::Int,
        Machdep::X86_64 => Kind::Long,
    }
}
