// What stands at a place of a text: blanks, comments, line markers, annotations, or a token.
ghost use Rattle.std.specs.Prelude.{◌≡◌, ◌≤◌, ◌<◌, ◌+◌, length, drop, true, codes, IfOk, IfSome};
ghost use Rattle.c_lexer.specs.Bytes as byte;
ghost use Rattle.c_lexer.specs.Pieces as spec;

use crate::bytes::{begins_blank, begins_with, is_blank, is_digit, rest_of_line};
use crate::lexemes::token_at;
use crate::piece::Piece;
use std::alloc::Global;
use wp_base::{NoMemory, Rule};

// How many bytes come before the first `*/`.
fn close_at(bytes: &[u8]) -> Option<usize>
    ensures value { result ≡ spec.close_at bytes.now }
    ensures within { IfSome result (λ n. n + 2 ≤ length bytes.now) }
{
    let mut len: usize = 0;
    let mut rest = bytes;
    while let [b, after @ ..] = rest {
        if *b == b'*' && begins_with(after, b'/') {
            return Some(len);
        }
        len += 1;
        rest = after;
    }
    None
}

// The length of a comment of the form `/* .. */` at the front.
fn comment_len(annotated: bool, bytes: &[u8]) -> Option<usize>
    ensures value { result ≡ spec.comment_len annotated bytes.now }
    ensures within { IfSome result (λ n. (4 ≤ n) × (n ≤ length bytes.now)) }
{
    if annotated || !bytes.starts_with(b"/*") || bytes.starts_with(b"/*@") {
        return None;
    }
    let len = close_at(&bytes[2..])?;
    Some(len + 4)
}

// Whether blanks and comments, and then a digit, come on this line.
fn digit_follows(annotated: bool, bytes: &[u8]) -> bool
    ensures { result ≡ spec.digit_follows annotated 0 bytes.now }
{
    let mut left: usize = 0;
    let mut rest = bytes;
    while let [b, after @ ..] = rest {
        if left > 0 {
            if *b == b'\n' {
                return false;
            }
            left -= 1;
        } else if is_digit(*b) {
            return true;
        } else if *b == b'\n' {
            return false;
        } else if !is_blank(annotated, *b) {
            let Some(len) = comment_len(annotated, rest) else {
                return false;
            };
            left = len - 1;
        }
        rest = after;
    }
    false
}

fn marker_at(annotated: bool, fresh: bool, bytes: &[u8]) -> Piece
    requires { 0 < length bytes.now }
    ensures { result ≡ spec.marker_at annotated fresh bytes.now }
{
    if fresh && digit_follows(annotated, &bytes[1..]) {
        Piece::Skip(rest_of_line(bytes))
    } else {
        Piece::Fault(Rule::Lexical)
    }
}

// What begins with a slash outside of annotations: an annotation or a comment, if one is opened.
fn annotation_at(bytes: &[u8]) -> Piece
    requires { 3 ≤ length bytes.now }
    ensures { result ≡ spec.if_closed (spec.close_at (drop 3 bytes.now)) (λ n. Piece.Annot n 2) }
{
    match close_at(&bytes[3..]) {
        Some(len) => Piece::Annot(len, 2),
        None => Piece::Fault(Rule::Lexical),
    }
}

fn comment_at(annotated: bool, bytes: &[u8]) -> Piece
    ensures { result ≡ spec.if_closed (spec.comment_len annotated bytes.now) (λ n. Piece.Skip n) }
{
    match comment_len(annotated, bytes) {
        Some(len) => Piece::Skip(len),
        None => Piece::Fault(Rule::Lexical),
    }
}

fn starts(text: &[u8], bytes: &[u8]) -> bool
    ensures value { result ≡ byte.starts text.now bytes.now }
{
    bytes.starts_with(text)
}

// Whether the text stands at the front, outside of annotations.
fn opens(annotated: bool, text: &[u8], bytes: &[u8]) -> bool
    ensures value { result ≡ spec.opens annotated text.now bytes.now }
    ensures long { result ≡ true → length text.now ≤ length bytes.now }
{
    !annotated && bytes.starts_with(text)
}

/// What stands at the front. `fresh` says that only blanks and comments come before it on its line.
#[tactic(auto, using(crate::proofs::Cut::piece_blank, crate::proofs::Cut::piece_line, crate::proofs::Cut::piece_comment, crate::proofs::Cut::piece_block, crate::proofs::Cut::piece_skipped, crate::proofs::Cut::piece_marker, crate::proofs::Cut::piece_token))]
pub fn piece_at(
    alloc: Global,
    annotated: bool,
    fresh: bool,
    bytes: &[u8],
) -> Result<Piece, NoMemory>
    requires { 0 < length bytes.now }
    ensures { IfOk result (λ piece. piece ≡ spec.piece_at annotated fresh bytes.now) }
{
    if begins_blank(annotated, bytes) {
        Ok(Piece::Skip(1))
    } else if opens(annotated, b"//@", bytes) {
        Ok(Piece::Annot(rest_of_line(&bytes[3..]), 0))
    } else if starts(b"//", bytes) {
        Ok(Piece::Skip(rest_of_line(bytes)))
    } else if opens(annotated, b"/*@", bytes) {
        Ok(annotation_at(bytes))
    } else if opens(annotated, b"/*", bytes) {
        Ok(comment_at(annotated, bytes))
    } else if starts(b"#", bytes) {
        Ok(marker_at(annotated, fresh, bytes))
    } else {
        token_at(alloc, annotated, bytes)
    }
}
