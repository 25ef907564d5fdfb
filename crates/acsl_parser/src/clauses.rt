// What stands behind the words of clauses (ACSL 2.3, 2.3.4, 2.5).
ghost use Rattle.std.specs.Prelude.{◌-◌, length, map};
ghost use Rattle.c_syntax.specs.View.{view_assigns, view_pred, view_term};
ghost use Rattle.c_grammar.specs.Views.{Gives};
ghost use Rattle.c_grammar.specs.ListReaders.{with_items, more_separated, separated_at};
ghost use Rattle.parse_terms.specs.Read.{entry_at as entry_of};
ghost use Rattle.acsl_parser.specs.Read as spec;

use c_grammar::{Read, TypeNames, expect, punct_at, word_at};
use c_syntax::{AssignsClause, Pred, Punct, Term, Token, Word};
use parse_preds::pred_at;
use parse_terms::{entry_at, term_at};
use std::alloc::Global;
use wp_base::{Line, List};

/// A predicate and a semicolon.
#[tactic(auto, unfolding(crate::specs::Read::pred_ended))]
pub fn pred_ended<'a>(
    alloc: Global,
    types: &TypeNames,
    room: u32,
    tokens: &'a [Token],
) -> Read<'a, Pred>
    ensures { Gives view_pred result (spec.pred_ended types.now room tokens.now) }
{
    let (pred, rest) = pred_at(alloc, types, room, tokens)?;
    let (_, rest) = expect(Punct::Semicolon, rest)?;
    Ok((pred, rest))
}

/// A term and a semicolon.
#[tactic(auto, unfolding(crate::specs::Read::term_ended))]
pub fn term_ended<'a>(
    alloc: Global,
    types: &TypeNames,
    room: u32,
    tokens: &'a [Token],
) -> Read<'a, Term>
    ensures { Gives view_term result (spec.term_ended types.now room tokens.now) }
{
    let (term, rest) = term_at(alloc, types, room, tokens)?;
    let (_, rest) = expect(Punct::Semicolon, rest)?;
    Ok((term, rest))
}

// The entries so far, and those that come after a comma.
fn more_entries<'a>(
    alloc: Global,
    types: &TypeNames,
    room: u32,
    first: List<Term>,
    tokens: &'a [Token],
) -> Read<'a, List<Term>>
    ensures { Gives (map view_term) result (with_items (map view_term first) (more_separated (entry_of types.now room) (length tokens.now) tokens.now)) }
{
    let mut items = first;
    let mut rest = tokens;
    for turn in 0..tokens.len() {
        let Some((_, after)) = punct_at(Punct::Comma, rest) else {
            return Ok((items, rest));
        };
        let (item, after) = entry_at(alloc, types, room, after)?;
        items.push(item)?;
        rest = after;
    }
    Ok((items, rest))
}

#[tactic(auto, using(c_grammar::proofs::Turns::one_more), unfolding(c_grammar::specs::ListReaders::separated_at))]
fn some_entries<'a>(
    alloc: Global,
    types: &TypeNames,
    room: u32,
    tokens: &'a [Token],
) -> Read<'a, List<Term>>
    ensures { Gives (map view_term) result (separated_at (entry_of types.now room) tokens.now) }
{
    let (item, rest) = entry_at(alloc, types, room, tokens)?;
    let mut items = List::new(alloc);
    items.push(item)?;
    more_entries(alloc, types, room, items, rest)
}

// `\nothing`, or entries.
#[tactic(auto, unfolding(crate::specs::Read::entries_at))]
fn entries_at<'a>(
    alloc: Global,
    types: &TypeNames,
    room: u32,
    tokens: &'a [Token],
) -> Read<'a, List<Term>>
    ensures { Gives (map view_term) result (spec.entries_at types.now room tokens.now) }
{
    match word_at(Word::Nothing, tokens) {
        Some((_, rest)) => Ok((List::new(alloc), rest)),
        None => some_entries(alloc, types, room, tokens),
    }
}

// The line of `\from`, whose entries make no difference.
#[tactic(auto, unfolding(crate::specs::Read::from_at))]
fn from_at<'a>(
    alloc: Global,
    types: &TypeNames,
    room: u32,
    tokens: &'a [Token],
) -> Read<'a, List<Line>>
    ensures { Gives (λ lines. lines) result (spec.from_at types.now room tokens.now) }
{
    let mut lines = List::new(alloc);
    let Some((line, rest)) = word_at(Word::From, tokens) else {
        return Ok((lines, tokens));
    };
    let (_, rest) = entries_at(alloc, types, room, rest)?;
    lines.push(line)?;
    Ok((lines, rest))
}

/// What stands behind `assigns`.
#[tactic(auto, unfolding(crate::specs::Read::assigns_at))]
pub fn assigns_at<'a>(
    alloc: Global,
    types: &TypeNames,
    room: u32,
    place: usize,
    line: Line,
    tokens: &'a [Token],
) -> Read<'a, AssignsClause>
    ensures { Gives view_assigns result (spec.assigns_at types.now room place line tokens.now) }
{
    let (set, rest) = entries_at(alloc, types, room, tokens)?;
    let (from, rest) = from_at(alloc, types, room, rest)?;
    let (_, rest) = expect(Punct::Semicolon, rest)?;
    let clause = AssignsClause {
        set: Some(set),
        from,
        line,
        place,
    };
    Ok((clause, rest))
}
