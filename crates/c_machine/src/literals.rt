// Numbers and characters as constants.
ghost use Rattle.std.specs.Prelude.{◌≡◌};
ghost use Rattle.c_machine.specs.Literals as spec;

use crate::rules::Constant;
use c_kinds::{Machdep, holds};
use c_syntax::{Base, Suffix, TokenKind};
use wp_base::Kind;

// The kinds that a number may have, in the order in which they are tried.
fn kinds_for(base: Base, suffix: Suffix) -> &'static [Kind]
    ensures { result.now ≡ spec.kinds_for base suffix }
{
    let is_decimal = base == Base::Decimal;
    match (suffix, is_decimal) {
        (Suffix::None, true) => &[Kind::Int, Kind::Long, Kind::LLong],
        (Suffix::L, true) => &[Kind::Long, Kind::LLong],
        (Suffix::LL, true) => &[Kind::LLong],
        (Suffix::None, false) => &[
            Kind::Int,
            Kind::UInt,
            Kind::Long,
            Kind::ULong,
            Kind::LLong,
            Kind::ULLong,
        ],
        (Suffix::L, false) => &[Kind::Long, Kind::ULong, Kind::LLong, Kind::ULLong],
        (Suffix::LL, false) => &[Kind::LLong, Kind::ULLong],
        (Suffix::U, _) => &[Kind::UInt, Kind::ULong, Kind::ULLong],
        (Suffix::UL, _) => &[Kind::ULong, Kind::ULLong],
        (Suffix::ULL, _) => &[Kind::ULLong],
    }
}

// The first of these kinds that holds the number.
fn first_holding(model: Machdep, value: i128, kinds: &[Kind]) -> Option<Kind>
    ensures { result ≡ spec.first_holding model value kinds.now }
{
    for kind in kinds {
        if holds(model, *kind, value) {
            return Some(*kind);
        }
    }
    None
}

// A number, of the first of these kinds that holds it (C11 6.4.4.1p5).
#[tactic(auto, unfolding(crate::specs::Literals::literal))]
fn literal(model: Machdep, value: i128, kinds: &[Kind]) -> Option<Constant>
    ensures { result ≡ spec.literal model value kinds.now }
{
    let kind = first_holding(model, value, kinds)?;
    Some(Constant {
        kind,
        value: Some(value),
    })
}

/// A token as a constant.
pub fn token_constant(model: Machdep, token: &TokenKind) -> Option<Constant>
    ensures { result ≡ spec.token_constant model token.now }
{
    match token {
        TokenKind::Number {
            value,
            base,
            suffix,
        } => literal(model, *value, kinds_for(*base, *suffix)),
        TokenKind::Name(_) => None,
        TokenKind::Word(_) => None,
        TokenKind::Char(_) => None,
        TokenKind::Punct(_) => None,
        TokenKind::AnnotOpen => None,
        TokenKind::AnnotClose => None,
    }
}

/// A character constant, which is an `int` (C11 6.4.4.4p10).
pub fn char_constant(model: Machdep, value: i128) -> Option<Constant>
    ensures { result ≡ spec.char_constant model value }
{
    literal(model, value, &[Kind::Int])
}
