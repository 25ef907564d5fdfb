// Tables of texts: the row with a text, and the first row at the front of one.
ghost use Rattle.std.specs.Prelude.{◌≡◌, ◌≤◌, length, map, false, IfSome};
ghost use Rattle.c_lexer.specs.Tables as spec;
ghost use Rattle.c_lexer.specs.Scan.{first_row};

use crate::tables::{PUNCTUATORS, SUFFIXES, Scope, WORDS};
use c_syntax::{Punct, Suffix, Word};

fn is_in(annotated: bool, scope: Scope) -> bool
    ensures { result ≡ spec.is_in annotated scope }
{
    match scope {
        Scope::Anywhere => true,
        Scope::Annotation => annotated,
    }
}

fn word_in(
    mut table: &[(&[u8], Option<Word>, Scope)],
    annotated: bool,
    bytes: &[u8],
) -> Option<Option<Word>>
    ensures { result ≡ spec.meaning_of (map (λ row. (row.0.now, row.1, row.2)) table.entry.now) annotated bytes.now }
{
    while let [row, rest @ ..] = table {
        if is_in(annotated, row.2) && row.0 == bytes {
            return Some(row.1);
        }
        table = rest;
    }
    None
}

// The first row at the front: since the longest come first, the longest there.
fn first_at<X: Copy>(
    mut table: &[(&[u8], X, Scope)],
    annotated: bool,
    bytes: &[u8],
) -> Option<(X, usize)>
    ensures within { IfSome result (λ found. found.1 ≤ length bytes.now) }
    ensures value { result ≡ first_row (map (λ row. (row.0.now, row.1, row.2)) table.entry.now) annotated bytes.now }
{
    while let [row, rest @ ..] = table {
        if is_in(annotated, row.2) && bytes.starts_with(row.0) {
            return Some((row.1, row.0.len()));
        }
        table = rest;
    }
    None
}

/// What the word means, if these bytes are one: its token, or none where it is refused.
pub fn word_of(annotated: bool, bytes: &[u8]) -> Option<Option<Word>>
    ensures { result ≡ spec.meaning_of spec.words annotated bytes.now }
{
    word_in(&WORDS, annotated, bytes)
}

pub fn punctuator_at(annotated: bool, bytes: &[u8]) -> Option<(Punct, usize)>
    ensures value { result ≡ first_row spec.punctuators annotated bytes.now }
    ensures within { IfSome result (λ found. found.1 ≤ length bytes.now) }
{
    first_at(&PUNCTUATORS, annotated, bytes)
}

pub fn suffix_at(bytes: &[u8]) -> Option<(Suffix, usize)>
    ensures value { result ≡ first_row spec.suffixes false bytes.now }
    ensures within { IfSome result (λ found. found.1 ≤ length bytes.now) }
{
    first_at(&SUFFIXES, false, bytes)
}
