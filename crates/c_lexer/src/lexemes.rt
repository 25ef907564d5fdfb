// The token at the front of a text: its first byte tells names, numbers, character constants and punctuators apart.
ghost use Rattle.std.specs.Prelude.{◌≡◌, ◌≤◌, ◌<◌, ◌+◌, ◌==◌, length, take, true, false, IfOk};
ghost use Rattle.c_lexer.specs.Bytes as byte;
ghost use Rattle.c_lexer.specs.Lexemes as spec;
ghost use Rattle.c_lexer.specs.Scan.{name_piece};

use crate::bytes::{begins_with, is_digit, opens_name, word_len};
use crate::chars::char_at;
use crate::numbers::number_at;
use crate::piece::Piece;
use crate::rows::{punctuator_at, word_of};
use c_syntax::TokenKind;
use std::alloc::Global;
use wp_base::{NoMemory, Rule, Str};

// A name or a word of this length.
fn name_of(alloc: Global, annotated: bool, bytes: &[u8], len: usize) -> Result<Piece, NoMemory>
    requires { len ≤ length bytes.now }
    ensures { IfOk result (λ piece. piece ≡ name_piece annotated bytes.now len) }
{
    let name = &bytes[..len];
    match word_of(annotated, name) {
        Some(Some(word)) => Ok(Piece::Token(TokenKind::Word(word), len)),
        Some(None) => Ok(Piece::Fault(Rule::Word)),
        None => {
            if begins_with(name, b'\\') {
                return Ok(Piece::Fault(Rule::Word));
            }
            let name = Str::from_bytes(alloc, name)?;
            Ok(Piece::Token(TokenKind::Name(name), len))
        }
    }
}

fn name_at(alloc: Global, annotated: bool, bytes: &[u8]) -> Result<Piece, NoMemory>
    requires { byte.begins (byte.opens_name annotated) bytes.now ≡ true }
    ensures { IfOk result (λ piece. piece ≡ spec.token_at annotated bytes.now) }
{
    let len = 1 + word_len(&bytes[1..]);
    name_of(alloc, annotated, bytes, len)
}

#[tactic(auto, using(crate::proofs::Marks::mark_at_front))]
fn mark_at(annotated: bool, bytes: &[u8]) -> Piece
    requires some { 0 < length bytes.now }
    requires name { byte.begins (byte.opens_name annotated) bytes.now ≡ false }
    requires digit { byte.begins byte.is_digit bytes.now ≡ false }
    requires quote { byte.begins (λ b. b == 39) bytes.now ≡ false }
    ensures { result ≡ spec.token_at annotated bytes.now }
{
    match punctuator_at(annotated, bytes) {
        Some((punct, len)) => Piece::Token(TokenKind::Punct(punct), len),
        None => Piece::Fault(Rule::Lexical),
    }
}

/// The token at the front, by longest match.
pub fn token_at(alloc: Global, annotated: bool, bytes: &[u8]) -> Result<Piece, NoMemory>
    requires { 0 < length bytes.now }
    ensures { IfOk result (λ piece. piece ≡ spec.token_at annotated bytes.now) }
{
    let first = bytes[0];
    if opens_name(annotated, first) {
        name_at(alloc, annotated, bytes)
    } else if is_digit(first) {
        Ok(number_at(annotated, bytes))
    } else if first == b'\'' {
        Ok(char_at(annotated, bytes))
    } else {
        Ok(mark_at(annotated, bytes))
    }
}
