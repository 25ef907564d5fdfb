// Terms as other parsers read them (ACSL 2.2).
ghost use Rattle.std.specs.Prelude.{map};
ghost use Rattle.c_grammar.specs.Views.{Gives};
ghost use Rattle.c_syntax.specs.View.{view_term};
ghost use Rattle.parse_terms.specs.Read as spec;

use crate::entries::is_entry;
use crate::place::Place;
use crate::wholes::{binary, spread_term, term, terms};
use c_grammar::{Fault, Read, SHIFTS, TypeNames};
use c_syntax::{Term, Token};
use std::alloc::Global;
use wp_base::List;

/// A term, in which so many more forms may open, and the tokens after it.
#[tactic(auto, unfolding(crate::specs::Read::term_at))]
pub fn term_at<'a>(
    alloc: Global,
    types: &TypeNames,
    room: u32,
    tokens: &'a [Token],
) -> Read<'a, Term>
    ensures { Gives view_term result (spec.term_at types.now room tokens.now) }
{
    term(alloc, types, Place::Anywhere, room, tokens)
}

/// What stands between comparisons: a term with operators up to the shifts.
#[tactic(auto, unfolding(crate::specs::Read::chain_term_at))]
pub fn chain_term_at<'a>(
    alloc: Global,
    types: &TypeNames,
    room: u32,
    tokens: &'a [Token],
) -> Read<'a, Term>
    ensures { Gives view_term result (spec.chain_term_at types.now room tokens.now) }
{
    binary(alloc, types, Place::InChain, room, SHIFTS, tokens)
}

/// Terms with commas between them, at least one.
#[tactic(auto, unfolding(crate::specs::Read::some_terms_at))]
pub fn some_terms_at<'a>(
    alloc: Global,
    types: &TypeNames,
    room: u32,
    tokens: &'a [Token],
) -> Read<'a, List<Term>>
    ensures { Gives (map view_term) result (spec.some_terms_at types.now room tokens.now) }
{
    terms(alloc, types, Place::Anywhere, room, tokens)
}

/// A term, or a term and a range of offsets from it (ACSL 2.7.1).
#[tactic(auto, unfolding(crate::specs::Read::pointer_at))]
pub fn pointer_at<'a>(
    alloc: Global,
    types: &TypeNames,
    room: u32,
    tokens: &'a [Token],
) -> Read<'a, Term>
    ensures { Gives view_term result (spec.pointer_at types.now room tokens.now) }
{
    spread_term(alloc, types, Place::Anywhere, room, tokens)
}

/// An entry of a set (ACSL 2.3.4).
#[tactic(auto, unfolding(crate::specs::Read::entry_at))]
pub fn entry_at<'a>(
    alloc: Global,
    types: &TypeNames,
    room: u32,
    tokens: &'a [Token],
) -> Read<'a, Term>
    ensures { Gives view_term result (spec.entry_at types.now room tokens.now) }
{
    let (entry, rest) = term(alloc, types, Place::InSet, room, tokens)?;
    if !is_entry(&entry) {
        return Err(Fault::Syntax);
    }
    Ok((entry, rest))
}
