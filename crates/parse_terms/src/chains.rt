// Where a predicate begins with a chain of comparisons (ACSL 2.2.1).
ghost use Rattle.std.specs.Prelude.{◌≡◌, false};
ghost use Rattle.c_grammar.specs.Reading.{past, punct_at};
ghost use Rattle.parse_terms.specs.Next as spec;

use crate::past::past_at;
use c_grammar::{TypeNames, punct_at};
use c_syntax::{Punct, Token, TokenKind, Word};
use parse_types::starts_type;

fn continues_punct(punct: Punct) -> bool
    ensures { result ≡ spec.continues_punct punct }
{
    match punct {
        Punct::OpenBracket
        | Punct::Dot
        | Punct::Arrow
        | Punct::Star
        | Punct::Slash
        | Punct::Percent
        | Punct::Plus
        | Punct::Minus
        | Punct::Shl
        | Punct::Shr
        | Punct::Less
        | Punct::AtMost
        | Punct::Greater
        | Punct::AtLeast
        | Punct::Equal
        | Punct::NotEqual => true,
        _ => false,
    }
}

/// Whether a comparison goes on here: behind what begins one comes a comparison, an operator up to
/// the shifts, or what selects a part.
#[tactic(auto, unfolding(crate::specs::Next::continues))]
pub fn continues(tokens: &[Token]) -> bool
    ensures { result ≡ spec.continues tokens.now }
{
    let Some((first, _)) = tokens.split_first() else {
        return false;
    };
    match first.kind {
        TokenKind::Punct(punct) => continues_punct(punct),
        _ => false,
    }
}

// The same behind the bracket that is open here.
fn continues_behind(tokens: &[Token]) -> bool
    ensures { result ≡ spec.continues_behind (past 0 false tokens.now) }
{
    match past_at(tokens) {
        Some((_, rest)) => continues(rest),
        None => false,
    }
}

// The same behind a name, or behind its arguments.
fn name_continues(tokens: &[Token]) -> bool
    ensures { result ≡ spec.name_continues (punct_at Punct.OpenParen tokens.now) tokens.now }
{
    match punct_at(Punct::OpenParen, tokens) {
        Some((_, inside)) => continues_behind(inside),
        None => continues(tokens),
    }
}

// The same behind parentheses that open here.
fn continues_after(tokens: &[Token]) -> bool
    ensures { result ≡ spec.continues_after (punct_at Punct.OpenParen tokens.now) }
{
    match punct_at(Punct::OpenParen, tokens) {
        Some((_, inside)) => continues_behind(inside),
        None => false,
    }
}

fn word_begins(word: Word, tokens: &[Token]) -> bool
    ensures { result ≡ spec.word_begins word tokens.now }
{
    match word {
        Word::Result | Word::Null | Word::At => true,
        Word::Old => continues_after(tokens),
        _ => false,
    }
}

fn punct_begins(types: &TypeNames, punct: Punct, tokens: &[Token]) -> bool
    ensures { result ≡ spec.punct_begins types.now punct tokens.now }
{
    match punct {
        Punct::Amp | Punct::Star | Punct::Plus | Punct::Minus | Punct::Tilde => true,
        Punct::OpenParen => starts_type(types, tokens) || continues_behind(tokens),
        _ => false,
    }
}

/// Whether a predicate that begins here begins with a chain of comparisons.
#[tactic(auto, unfolding(crate::specs::Next::begins_chain))]
pub fn begins_chain(types: &TypeNames, tokens: &[Token]) -> bool
    ensures { result ≡ spec.begins_chain types.now tokens.now }
{
    let Some((first, rest)) = tokens.split_first() else {
        return false;
    };
    match &first.kind {
        TokenKind::Number { .. } | TokenKind::Char(_) => true,
        TokenKind::Name(_) => name_continues(rest),
        TokenKind::Word(word) => word_begins(*word, rest),
        TokenKind::Punct(punct) => punct_begins(types, *punct, rest),
        TokenKind::AnnotOpen | TokenKind::AnnotClose => false,
    }
}
