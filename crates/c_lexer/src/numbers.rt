// Numbers (C11 6.4.4.1): from digits to a value, and the number at the front of a text.
ghost use Rattle.std.specs.Prelude.{◌≡◌, ◌≤◌, ◌<◌, ◌^◌, ◌+◌, length, take, true, SomeIff};
ghost use Rattle.std.specs.List.{list_all};
ghost use Rattle.c_lexer.specs.Bytes as byte;
ghost use Rattle.c_lexer.specs.Lexemes as spec;
ghost use Rattle.c_lexer.specs.Scan.{constant_front, number_by, suffix_front};

use crate::bytes::{
    begins_hex, begins_with, begins_x, digit_value, digits_len, hex_len, octal_len,
};
use crate::piece::Piece;
use crate::rows::suffix_at;
use c_syntax::{Base, Suffix, TokenKind};
use wp_base::Rule;

/// The greatest number outside of annotations, and in them.
const GREATEST: u128 = 18_446_744_073_709_551_615;

const GREATEST_IN_ANNOTATION: u128 = 170_141_183_460_469_231_731_687_303_715_884_105_727;

fn greatest(annotated: bool) -> u128
    ensures { result ≡ spec.greatest annotated }
{
    if annotated {
        GREATEST_IN_ANNOTATION
    } else {
        GREATEST
    }
}

fn radix(base: Base) -> u128
    ensures value { result ≡ spec.radix base }
    ensures some { 1 ≤ result }
{
    match base {
        Base::Decimal => 10,
        Base::Octal => 8,
        Base::Hexadecimal => 16,
    }
}

/// The number that these digits write, unless it is too great for 128 bits.
#[tactic(auto, using(crate::proofs::Numerals::value_grows))]
pub fn value_of(radix: u128, digits: &[u8]) -> Option<u128>
    requires some { 1 ≤ radix }
    requires digits { list_all byte.is_hex digits.now ≡ true }
    ensures { SomeIff result (spec.value radix digits.now < 2 ^ 128) (spec.value radix digits.now) }
{
    let mut value: u128 = 0;
    let mut rest = digits;
    while let [b, after @ ..] = rest {
        value = radix
            .checked_mul(value)?
            .checked_add(u128::from(digit_value(*b)))?;
        rest = after;
    }
    Some(value)
}

// The base and the length of the constant at the front.
fn constant_at(bytes: &[u8]) -> (Base, usize)
    requires { byte.begins byte.is_digit bytes.now ≡ true }
    ensures value { result ≡ constant_front bytes.now }
    ensures within { result.1 ≤ length bytes.now }
    ensures long { result.0 ≡ Base.Hexadecimal → 2 ≤ result.1 }
{
    if !begins_with(bytes, b'0') {
        return (Base::Decimal, digits_len(bytes));
    }
    if begins_x(&bytes[1..]) && bytes.len() >= 2 && begins_hex(&bytes[2..]) {
        return (Base::Hexadecimal, hex_len(&bytes[2..]) + 2);
    }
    let len = octal_len(bytes);
    if len <= 1 {
        (Base::Decimal, len)
    } else {
        (Base::Octal, len)
    }
}

fn suffix_of(bytes: &[u8]) -> (Suffix, usize)
    ensures value { result ≡ suffix_front bytes.now }
    ensures within { result.1 ≤ length bytes.now }
{
    match suffix_at(bytes) {
        None => (Suffix::None, 0),
        Some(found) => found,
    }
}

// The digits of a constant.
fn digits_of(base: Base, constant: &[u8]) -> &[u8]
    requires { base ≡ Base.Hexadecimal → 2 ≤ length constant.now }
    ensures { result.now ≡ spec.digits_of base constant.entry.now }
{
    match base {
        Base::Hexadecimal => &constant[2..],
        Base::Decimal | Base::Octal => constant,
    }
}

// A number of this value and length.
fn number_of(annotated: bool, base: Base, suffix: Suffix, value: Option<u128>, len: usize) -> Piece
    ensures { result ≡ number_by annotated base suffix value len }
{
    match value {
        Some(value) if value <= greatest(annotated) => Piece::Token(
            TokenKind::Number {
                value: value as i128,
                base,
                suffix,
            },
            len,
        ),
        _ => Piece::Fault(Rule::Lexical),
    }
}

/// The number at the front.
pub fn number_at(annotated: bool, bytes: &[u8]) -> Piece
    requires { byte.begins byte.is_digit bytes.now ≡ true }
    ensures { result ≡ spec.token_at annotated bytes.now }
{
    let (base, len) = constant_at(bytes);
    let (suffix, more) = suffix_of(&bytes[len..]);
    let value = value_of(radix(base), digits_of(base, &bytes[..len]));
    number_of(annotated, base, suffix, value, len + more)
}
