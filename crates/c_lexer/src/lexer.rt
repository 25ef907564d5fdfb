// The tokens of a text, piece by piece.
ghost use Rattle.std.specs.Prelude.{◌≡◌, ◌≤◌, ◌<◌, ◌+◌, ◌^◌, ◌++◌, ◌∷◌, [], Bool, List, length, take, drop, true, false, Ok, Err, IfOk, MatchResult, if◌then◌else◌};
ghost use Rattle.wp_base.specs.declared.answers.Stop.{Stop};
ghost use Rattle.wp_base.specs.declared.answers.Rule.TheVariants as rule;
ghost use Rattle.c_syntax.specs.declared.token.TokenKind.TheVariants as k;
ghost use Rattle.c_lexer.specs.declared.piece.Piece.TheVariants as piece;
ghost use Rattle.c_lexer.specs.Lexemes as lexeme;
ghost use Rattle.c_lexer.specs.Steps.{all_items, answer_behind, GoesOn, items_at, Steps};
ghost use Rattle.c_lexer.specs.Tokens as spec;
ghost use Rattle.c_lexer.specs.Tokens.{Item};

use crate::bytes::number_runs_on;
use crate::piece::Piece;
use crate::pieces::piece_at;
use crate::place::Place;
use c_syntax::{Token, TokenKind, Tokens};
use std::alloc::Global;
use wp_base::{Line, List, Refusal, Rule, Stop};

/// How many bytes a text may have.
pub const MOST_BYTES: usize = 1_048_576;

/// How many tokens a text may have.
pub const MOST_TOKENS: usize = 200_000;

fn refused(rule: Rule, line: Line) -> Stop
    ensures { result ≡ Stop.Refused (record { rule = rule; line = line }) }
{
    Stop::Refused(Refusal { rule, line })
}

fn may_end(kind: &TokenKind, after: &[u8]) -> bool
    ensures { result ≡ lexeme.may_end kind.now after.now }
{
    match kind {
        TokenKind::Number { .. } => !number_runs_on(after),
        TokenKind::Name(_) => true,
        TokenKind::Word(_) => true,
        TokenKind::Char(_) => true,
        TokenKind::Punct(_) => true,
        TokenKind::AnnotOpen => true,
        TokenKind::AnnotClose => true,
    }
}

// The line and the freshness behind bytes that are skipped.
fn past(line: Line, fresh: bool, bytes: &[u8]) -> (Line, bool)
    requires { line + length bytes.now < 2 ^ 32 }
    ensures { result ≡ (spec.line_after line bytes.now, spec.fresh_after fresh bytes.now) }
{
    let mut line = line;
    let mut fresh = fresh;
    let mut rest = bytes;
    while let [b, after @ ..] = rest {
        if *b == b'\n' {
            line += 1;
            fresh = true;
        }
        rest = after;
    }
    (line, fresh)
}

// Puts a token behind those found, if there is room.
#[tactic(auto, using(crate::proofs::Items::token_put, crate::proofs::Items::no_room))]
fn put(tokens: &mut Tokens, kind: TokenKind, line: Line) -> Result<(), Stop>
    requires { length tokens.old ≤ spec.most_tokens }
    ensures few { IfOk result (λ done. length tokens.new ≤ spec.most_tokens) }
    ensures items { (items : List Item) → GoesOn result (answer_behind tokens.new items) (answer_behind tokens.old (spec.token_on line kind ∷ items)) }
{
    if tokens.len() >= MOST_TOKENS {
        return Err(refused(Rule::Limit, line));
    }
    tokens.push(Token { kind, line })?;
    Ok(())
}

fn skip(line: Line, fresh: bool, bytes: &[u8], len: usize) -> Place
    requires within { len ≤ length bytes.now }
    requires lines { line + length bytes.now < 2 ^ 32 }
    ensures { result ≡ record { line = spec.line_after line (take len bytes.now); fresh = spec.fresh_after fresh (take len bytes.now); len = len } }
{
    let (line, fresh) = past(line, fresh, &bytes[..len]);
    Place { line, fresh, len }
}

// A token of this length at the front: it is put behind those found, if it may end there.
fn token(
    tokens: &mut Tokens,
    kind: TokenKind,
    line: Line,
    bytes: &[u8],
    len: usize,
) -> Result<Place, Stop>
    requires few { length tokens.old ≤ spec.most_tokens }
    requires within { len ≤ length bytes.now }
    ensures few { IfOk result (λ place. length tokens.new ≤ spec.most_tokens) }
    ensures place { IfOk result (λ place. place ≡ record { line = line; fresh = false; len = len }) }
    ensures items { (annotated : Bool) → Steps annotated tokens.old tokens.new bytes.now (items_at annotated line false bytes.now (piece.Token kind len)) result }
{
    let ends = may_end(&kind, &bytes[len..]);
    put(tokens, kind, line)?;
    if !ends {
        return Err(refused(Rule::Lexical, line));
    }
    Ok(Place {
        line,
        fresh: false,
        len,
    })
}

// A step over a piece of the inside of an annotation.
fn step_inside(
    alloc: Global,
    tokens: &mut Tokens,
    line: Line,
    fresh: bool,
    bytes: &[u8],
) -> Result<Place, Stop>
    requires some { 0 < length bytes.now }
    requires few { length tokens.old ≤ spec.most_tokens }
    requires lines { line + length bytes.now < 2 ^ 32 }
    ensures few { IfOk result (λ place. length tokens.new ≤ spec.most_tokens) }
    ensures bound { IfOk result (λ place. (0 < place.len) × (place.len ≤ length bytes.now) × (place.line ≤ line + place.len)) }
    ensures items { Steps true tokens.old tokens.new bytes.now (all_items true line fresh bytes.now) result }
{
    match piece_at(alloc, true, fresh, bytes)? {
        Piece::Skip(len) => Ok(skip(line, fresh, bytes, len)),
        Piece::Token(kind, len) => token(tokens, kind, line, bytes, len),
        Piece::Annot(_, _) => Err(refused(Rule::Lexical, line)),
        Piece::Fault(rule) => Err(refused(rule, line)),
    }
}

// The tokens of the inside of an annotation, behind those found.
fn inside(alloc: Global, tokens: &mut Tokens, start: Line, bytes: &[u8]) -> Result<(), Stop>
    requires few { length tokens.old ≤ spec.most_tokens }
    requires lines { start + length bytes.now < 2 ^ 32 }
    ensures few { IfOk result (λ done. length tokens.new ≤ spec.most_tokens) }
    ensures items { (more : List Item) → GoesOn result (answer_behind tokens.new more) (answer_behind tokens.old (all_items true start false bytes.now ++ more)) }
{
    let mut line = start;
    let mut fresh = false;
    let mut rest = bytes;
    while !rest.is_empty() {
        let place = step_inside(alloc, tokens, line, fresh, rest)?;
        line = place.line;
        fresh = place.fresh;
        rest = &rest[place.len..];
    }
    Ok(())
}

// An annotation at the front, with an inside of this length that so many bytes end.
fn annotation(
    alloc: Global,
    tokens: &mut Tokens,
    line: Line,
    bytes: &[u8],
    len: usize,
    close: usize,
) -> Result<Place, Stop>
    requires few { length tokens.old ≤ spec.most_tokens }
    requires within { 3 + len + close ≤ length bytes.now }
    requires lines { line + length bytes.now < 2 ^ 32 }
    ensures few { IfOk result (λ place. length tokens.new ≤ spec.most_tokens) }
    ensures bound { IfOk result (λ place. (place.len ≡ 3 + len + close) × (place.line ≤ line + len)) }
    ensures items { Steps false tokens.old tokens.new bytes.now (items_at false line false bytes.now (piece.Annot len close)) result }
{
    let behind = &bytes[3..];
    let text = &behind[..len];
    put(tokens, TokenKind::AnnotOpen, line)?;
    inside(alloc, tokens, line, text)?;
    let (last, _) = past(line, false, text);
    put(tokens, TokenKind::AnnotClose, last)?;
    Ok(Place {
        line: last,
        fresh: false,
        len: 3 + len + close,
    })
}

// A step over a piece outside of annotations.
fn step(
    alloc: Global,
    tokens: &mut Tokens,
    line: Line,
    fresh: bool,
    bytes: &[u8],
) -> Result<Place, Stop>
    requires some { 0 < length bytes.now }
    requires few { length tokens.old ≤ spec.most_tokens }
    requires lines { line + length bytes.now < 2 ^ 32 }
    ensures few { IfOk result (λ place. length tokens.new ≤ spec.most_tokens) }
    ensures bound { IfOk result (λ place. (0 < place.len) × (place.len ≤ length bytes.now) × (place.line ≤ line + place.len)) }
    ensures items { Steps false tokens.old tokens.new bytes.now (all_items false line fresh bytes.now) result }
{
    match piece_at(alloc, false, fresh, bytes)? {
        Piece::Skip(len) => Ok(skip(line, fresh, bytes, len)),
        Piece::Token(kind, len) => token(tokens, kind, line, bytes, len),
        Piece::Annot(len, close) => annotation(alloc, tokens, line, bytes, len, close),
        Piece::Fault(rule) => Err(refused(rule, line)),
    }
}

/// The tokens of a text (C11 6.4; in annotations ACSL 2.2), or the first of its faults: a place where
/// no token begins or a comment isn't closed, a refused word, or a token past the limit.
pub fn lex(alloc: Global, text: &[u8]) -> Result<Tokens, Stop>
    requires { length text.now ≤ spec.most_bytes }
    ensures { MatchResult result (λ tokens. spec.tokens_of text.now ≡ Ok tokens) (λ stop. spec.StopsWith stop (spec.tokens_of text.now)) }
{
    let mut tokens = List::new(alloc);
    let mut line: Line = 1;
    let mut fresh = true;
    let mut rest = text;
    while !rest.is_empty() {
        let place = step(alloc, &mut tokens, line, fresh, rest)?;
        line = place.line;
        fresh = place.fresh;
        rest = &rest[place.len..];
    }
    Ok(tokens)
}
