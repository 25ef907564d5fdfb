// What single tokens are in a term.
ghost use Rattle.std.specs.Prelude.{◌≡◌};
ghost use Rattle.c_grammar.specs.Terms.{term_unop_of};
ghost use Rattle.c_grammar.specs.Views.{Finds};
ghost use Rattle.parse_terms.specs.Read as spec;
ghost use Rattle.parse_terms.specs.Views.{view_place};

use crate::past::past_at;
use crate::place::Place;
use c_grammar::{TypeNames, binop_of, level_of, punct_at, unop_of};
use c_syntax::{BinOp, Punct, Token, TokenKind, UnOp};
use parse_types::starts_type;
use wp_base::Line;

/// What selects a part of a term (C11 6.5.2).
#[derive(Clone, Copy)]
pub enum Selector {
    Index,
    Dot,
    Arrow,
}

// Whether a parenthesis opens here, with `..` directly in it.
#[tactic(auto, unfolding(crate::specs::Read::opens_range))]
fn opens_range(tokens: &[Token]) -> bool
    ensures { result ≡ spec.opens_range tokens.now }
{
    let Some((first, rest)) = tokens.split_first() else {
        return false;
    };
    match first.kind {
        TokenKind::Punct(Punct::OpenParen) => match past_at(rest) {
            Some((found, _)) => found,
            None => false,
        },
        _ => false,
    }
}

// `+` before such a parenthesis is no operator of two terms.
fn is_operator(op: BinOp, tokens: &[Token]) -> bool
    ensures { result ≡ spec.is_operator op tokens.now }
{
    match op {
        BinOp::Add => !opens_range(tokens),
        _ => true,
    }
}

/// An operator of two terms of this level, with its line, if it comes first.
#[tactic(auto, unfolding(crate::specs::Read::operator))]
pub fn operator(level: u32, tokens: &[Token]) -> Option<((BinOp, Line), &[Token])>
    ensures { Finds (λ x. x) result (spec.operator level tokens.now) }
{
    let (first, rest) = tokens.split_first()?;
    match first.kind {
        TokenKind::Punct(punct) => {
            let op = binop_of(punct)?;
            if level_of(op) == level && is_operator(op, rest) {
                Some(((op, first.line), rest))
            } else {
                None
            }
        }
        _ => None,
    }
}

// The operator before a term that is spelled so (C11 6.5.3).
fn term_unop_of(place: Place, punct: Punct) -> Option<UnOp>
    ensures { result ≡ term_unop_of (view_place place) punct }
{
    match punct {
        Punct::Not => match place {
            Place::InChain => None,
            Place::Anywhere | Place::InSet => Some(UnOp::Not),
        },
        _ => unop_of(punct),
    }
}

/// An operator before a term, with its line, if it comes first.
#[tactic(auto, unfolding(crate::specs::Read::prefix_at))]
pub fn prefix_at(place: Place, tokens: &[Token]) -> Option<((UnOp, Line), &[Token])>
    ensures { Finds (λ x. x) result (spec.prefix_at (view_place place) tokens.now) }
{
    let (first, rest) = tokens.split_first()?;
    match first.kind {
        TokenKind::Punct(punct) => {
            let op = term_unop_of(place, punct)?;
            Some(((op, first.line), rest))
        }
        _ => None,
    }
}

/// A parenthesis with a type behind it, with its line, if it comes first.
#[tactic(auto, unfolding(crate::specs::Read::cast_at))]
pub fn cast_at<'a>(types: &TypeNames, tokens: &'a [Token]) -> Option<(Line, &'a [Token])>
    ensures { Finds (λ x. x) result (spec.cast_at types.now tokens.now) }
{
    let (first, rest) = tokens.split_first()?;
    match first.kind {
        TokenKind::Punct(Punct::OpenParen) if starts_type(types, rest) => Some((first.line, rest)),
        _ => None,
    }
}

/// What selects a part of a term, with its line, if it comes first.
#[tactic(auto, unfolding(crate::specs::Read::selector_at))]
pub fn selector_at(tokens: &[Token]) -> Option<((Selector, Line), &[Token])>
    ensures { Finds (λ x. x) result (spec.selector_at tokens.now) }
{
    let (first, rest) = tokens.split_first()?;
    match first.kind {
        TokenKind::Punct(Punct::OpenBracket) => Some(((Selector::Index, first.line), rest)),
        TokenKind::Punct(Punct::Dot) => Some(((Selector::Dot, first.line), rest)),
        TokenKind::Punct(Punct::Arrow) => Some(((Selector::Arrow, first.line), rest)),
        _ => None,
    }
}

/// The line of `..` and the tokens after it, if it comes first where it may stand.
pub fn range_at(place: Place, tokens: &[Token]) -> Option<(Line, &[Token])>
    ensures { Finds (λ x. x) result (spec.range_at (view_place place) tokens.now) }
{
    match place {
        Place::InSet => punct_at(Punct::Range, tokens),
        Place::Anywhere | Place::InChain => None,
    }
}
