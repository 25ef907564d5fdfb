// Whole terms: operators between operands, choices, ranges of offsets, and lists of terms (ACSL 2.2).
ghost use Rattle.std.specs.Prelude.{◌≡◌, ◌≤◌, ◌-◌, length, map};
ghost use Rattle.c_grammar.specs.Reading.{chain, levels};
ghost use Rattle.c_grammar.specs.Terms.{inside_of};
ghost use Rattle.c_grammar.specs.Views.{Gives};
ghost use Rattle.c_grammar.specs.ListReaders.{more_separated, with_items};
ghost use Rattle.c_syntax.specs.View.{view_term};
ghost use Rattle.parse_terms.specs.Read as spec;
ghost use Rattle.parse_terms.specs.Views.{view_place};

use crate::nodes;
use crate::operands::operand;
use crate::place::Place;
use crate::tokens::operator;
use c_grammar::{Fault, LOOSEST, Read, TypeNames, expect, punct_at};
use c_syntax::{BinOp, Punct, Term, Token};
use std::alloc::Global;
use wp_base::{Line, List};

/// A term in a form that opens here.
#[cycle(terms)]
#[tactic(auto, using(crate::proofs::Reading::inner_none, crate::proofs::Reading::inner_some))]
pub(crate) fn inner_term<'a>(
    alloc: Global,
    types: &TypeNames,
    place: Place,
    room: u32,
    tokens: &'a [Token],
) -> Read<'a, Term>
    ensures { Gives view_term result (spec.inner types.now room spec.wholes (view_place place) tokens.now) }
{
    if room == 0 {
        return Err(Fault::Syntax);
    }
    term(alloc, types, place, room - 1, tokens)
}

/// A term, and perhaps a range of offsets from it.
#[cycle(terms)]
pub(crate) fn spread_term<'a>(
    alloc: Global,
    types: &TypeNames,
    place: Place,
    room: u32,
    tokens: &'a [Token],
) -> Read<'a, Term>
    ensures { Gives view_term result (spec.spread_term (spec.read types.now room spec.wholes (view_place place)) (spec.inner types.now room spec.wholes (inside_of (view_place place))) tokens.now) }
{
    let (base, rest) = term(alloc, types, place, room, tokens)?;
    match punct_at(Punct::Plus, rest) {
        Some((line, rest)) => spread(alloc, types, place, room, base, line, rest),
        None => Ok((base, rest)),
    }
}

// What comes after the `+` before a range.
#[cycle(terms)]
fn spread<'a>(
    alloc: Global,
    types: &TypeNames,
    place: Place,
    room: u32,
    base: Term,
    line: Line,
    tokens: &'a [Token],
) -> Read<'a, Term>
    ensures { Gives view_term result (spec.spread (spec.inner types.now room spec.wholes (inside_of (view_place place))) (view_term base) line tokens.now) }
{
    let (offsets, rest) = bounds(alloc, types, place.inside(), room, tokens)?;
    let sum = nodes::binary(alloc, BinOp::Add, line, base, offsets)?;
    Ok((sum, rest))
}

// A range in parentheses.
#[cycle(terms)]
fn bounds<'a>(
    alloc: Global,
    types: &TypeNames,
    place: Place,
    room: u32,
    tokens: &'a [Token],
) -> Read<'a, Term>
    ensures { Gives view_term result (spec.bounds (spec.inner types.now room spec.wholes (view_place place)) tokens.now) }
{
    let (_, rest) = expect(Punct::OpenParen, tokens)?;
    let (low, rest) = inner_term(alloc, types, place, room, rest)?;
    let (line, rest) = expect(Punct::Range, rest)?;
    let (high, rest) = inner_term(alloc, types, place, room, rest)?;
    let range = nodes::range(alloc, line, low, high)?;
    let (_, rest) = expect(Punct::CloseParen, rest)?;
    Ok((range, rest))
}

/// A whole term.
#[cycle(terms)]
#[tactic(auto, using(crate::proofs::Reading::term_is))]
pub(crate) fn term<'a>(
    alloc: Global,
    types: &TypeNames,
    place: Place,
    room: u32,
    tokens: &'a [Token],
) -> Read<'a, Term>
    ensures { Gives view_term result (spec.read types.now room spec.wholes (view_place place) tokens.now) }
{
    let (test, rest) = binary(alloc, types, place, room, LOOSEST, tokens)?;
    match punct_at(Punct::Question, rest) {
        Some((line, rest)) => choice(alloc, types, place, room, test, line, rest),
        None => Ok((test, rest)),
    }
}

// What comes after `?`.
#[cycle(terms)]
fn choice<'a>(
    alloc: Global,
    types: &TypeNames,
    place: Place,
    room: u32,
    test: Term,
    line: Line,
    tokens: &'a [Token],
) -> Read<'a, Term>
    ensures { Gives view_term result (spec.choice (spec.inner types.now room spec.wholes (view_place place)) (view_term test) line tokens.now) }
{
    let (first, rest) = inner_term(alloc, types, place, room, tokens)?;
    let (_, rest) = expect(Punct::Colon, rest)?;
    let (second, rest) = inner_term(alloc, types, place, room, rest)?;
    let choice = nodes::cond(alloc, line, test, first, second)?;
    Ok((choice, rest))
}

/// Operators up to the level.
#[cycle(terms)]
#[tactic(auto, using(c_grammar::proofs::Chains::levels_zero, c_grammar::proofs::Chains::levels_more))]
pub(crate) fn binary<'a>(
    alloc: Global,
    types: &TypeNames,
    place: Place,
    room: u32,
    level: u32,
    tokens: &'a [Token],
) -> Read<'a, Term>
    requires { level ≤ 10 }
    ensures { Gives view_term result (levels spec.joined spec.operator level (spec.read types.now room spec.operands (view_place place)) tokens.now) }
{
    if level == 0 {
        return operand(alloc, types, place, room, tokens);
    }
    let (left, rest) = binary(alloc, types, place, room, level - 1, tokens)?;
    operators(alloc, types, place, room, level, left, rest)
}

// More operands of the level.
#[cycle(terms)]
#[tactic(auto, using(c_grammar::proofs::Chains::chain_ends, c_grammar::proofs::Chains::chain_stops))]
fn operators<'a>(
    alloc: Global,
    types: &TypeNames,
    place: Place,
    room: u32,
    level: u32,
    first: Term,
    tokens: &'a [Token],
) -> Read<'a, Term>
    requires least { 1 ≤ level }
    requires most { level ≤ 10 }
    ensures { Gives view_term result (chain spec.joined (spec.operator level) (levels spec.joined spec.operator (level - 1) (spec.read types.now room spec.operands (view_place place))) (length tokens.now) (view_term first) tokens.now) }
{
    let mut left = first;
    let mut rest = tokens;
    for turn in 0..tokens.len() {
        let Some(((op, line), after)) = operator(level, rest) else {
            return Ok((left, rest));
        };
        let (right, after) = binary(alloc, types, place, room, level - 1, after)?;
        left = nodes::binary(alloc, op, line, left, right)?;
        rest = after;
    }
    Ok((left, rest))
}

/// Terms, with commas between them.
#[cycle(terms)]
pub(crate) fn terms<'a>(
    alloc: Global,
    types: &TypeNames,
    place: Place,
    room: u32,
    tokens: &'a [Token],
) -> Read<'a, List<Term>>
    ensures { Gives (map view_term) result (spec.terms_by (spec.read types.now room spec.wholes (view_place place)) tokens.now) }
{
    let mut terms = List::new(alloc);
    let (first, rest) = term(alloc, types, place, room, tokens)?;
    terms.push(first)?;
    more_terms(alloc, types, place, room, terms, rest)
}

// The terms so far, and those that come after a comma.
#[cycle(terms)]
fn more_terms<'a>(
    alloc: Global,
    types: &TypeNames,
    place: Place,
    room: u32,
    first: List<Term>,
    tokens: &'a [Token],
) -> Read<'a, List<Term>>
    ensures { Gives (map view_term) result (with_items (map view_term first) (more_separated (spec.read types.now room spec.wholes (view_place place)) (length tokens.now) tokens.now)) }
{
    let mut terms = first;
    let mut rest = tokens;
    for turn in 0..tokens.len() {
        let Some((_, after)) = punct_at(Punct::Comma, rest) else {
            return Ok((terms, rest));
        };
        let (item, after) = term(alloc, types, place, room, after)?;
        terms.push(item)?;
        rest = after;
    }
    Ok((terms, rest))
}
