// Character constants (C11 6.4.4.4).
ghost use Rattle.std.specs.Prelude.{◌≡◌, ◌≤◌, ◌+◌, ◌==◌, length, drop, nat_le, true, Some, IfSome, if◌then◌else◌};
ghost use Rattle.std.specs.List.{list_all};
ghost use Rattle.c_lexer.specs.Bytes as byte;
ghost use Rattle.c_lexer.specs.Lexemes as spec;
ghost use Rattle.c_lexer.specs.Scan.{char_piece, small};

use crate::bytes::{begins_with, hex_len, is_octal, is_plain, letter_escape, octal_len};
use crate::numbers::value_of;
use crate::piece::Piece;
use c_syntax::TokenKind;
use wp_base::Rule;

// The number that these digits write, if it is one of 8 bits.
fn byte_value(radix: u128, digits: &[u8]) -> Option<u8>
    requires some { 1 ≤ radix }
    requires digits { list_all byte.is_hex digits.now ≡ true }
    ensures { result ≡ (if nat_le (spec.value radix digits.now) 255 then Some (spec.value radix digits.now) else None) }
{
    let value = value_of(radix, digits)?;
    u8::try_from(value).ok()
}

#[tactic(auto, using(crate::proofs::Quoted::octal_digits))]
fn octal_escape(bytes: &[u8]) -> Option<(u8, usize)>
    ensures { result ≡ small (spec.octal_escape bytes.now) }
{
    let len = octal_len(bytes);
    if len > 3 {
        return None;
    }
    Some((byte_value(8, &bytes[..len])?, len + 1))
}

#[tactic(auto, using(crate::proofs::Quoted::hex_digits))]
fn hex_escape(bytes: &[u8]) -> Option<(u8, usize)>
    ensures { result ≡ small (spec.hex_escape bytes.now) }
{
    let len = hex_len(bytes);
    if len < 1 {
        return None;
    }
    Some((byte_value(16, &bytes[..len])?, len + 2))
}

// Behind the backslash.
fn escape(bytes: &[u8]) -> Option<(u8, usize)>
    ensures { result ≡ small (spec.escape bytes.now) }
{
    let [b, after @ ..] = bytes else {
        return None;
    };
    if is_octal(*b) {
        octal_escape(bytes)
    } else if *b == b'x' {
        hex_escape(after)
    } else {
        Some((letter_escape(*b)?, 2))
    }
}

// The character written at the front, and in how many bytes.
fn written(bytes: &[u8]) -> Option<(u8, usize)>
    ensures { result ≡ small (spec.written bytes.now) }
{
    let [b, after @ ..] = bytes else {
        return None;
    };
    if *b == b'\\' {
        escape(after)
    } else if is_plain(*b) {
        Some((*b, 1))
    } else {
        None
    }
}

// The value as a plain `char`.
fn signed_char(value: u8) -> i128
    ensures { result ≡ spec.signed_char value }
{
    if value <= 127 {
        i128::from(value)
    } else {
        i128::from(value) - 256
    }
}

// Whether a quote stands behind so many bytes.
fn closes(bytes: &[u8], len: usize) -> bool
    ensures { result ≡ byte.begins (λ b. b == 39) (drop len bytes.now) }
{
    match bytes.get(len) {
        Some(b) => *b == b'\'',
        None => false,
    }
}

// The constant from what comes behind its quote.
fn char_behind(behind: &[u8]) -> Piece
    ensures { result ≡ char_piece behind.now (small (spec.written behind.now)) }
{
    match written(behind) {
        None => Piece::Fault(Rule::Lexical),
        Some((value, len)) => {
            if closes(behind, len) {
                Piece::Token(TokenKind::Char(signed_char(value)), len + 2)
            } else {
                Piece::Fault(Rule::Lexical)
            }
        }
    }
}

/// The character constant at the front.
pub fn char_at(annotated: bool, bytes: &[u8]) -> Piece
    requires { byte.begins (λ b. b == 39) bytes.now ≡ true }
    ensures { result ≡ spec.token_at annotated bytes.now }
{
    char_behind(&bytes[1..])
}
