// Clauses that stand together (ACSL 2.3, 2.4.2, 2.5).
ghost use Rattle.c_grammar.specs.Views.{Gives};
ghost use Rattle.parse_clauses.specs.Views.{view_sorted};
ghost use Rattle.acsl_parser.specs.Read as spec;

use crate::items::items_at;
use c_grammar::{Fault, Read, TypeNames};
use c_syntax::Token;
use parse_clauses::{Part, Sorted, are_in, are_single, sort};
use std::alloc::Global;

/// Clauses that may stand together in this part.
#[tactic(auto, unfolding(crate::specs::Read::part_at))]
pub fn part_at<'a>(
    alloc: Global,
    part: Part,
    types: &TypeNames,
    room: u32,
    end: usize,
    tokens: &'a [Token],
) -> Read<'a, Sorted>
    ensures { Gives view_sorted result (spec.part_at part types.now room end tokens.now) }
{
    let (items, rest) = items_at(alloc, types, room, end, tokens)?;
    let in_part = are_in(part, &items);
    let sorted = sort(alloc, items)?;
    if !in_part || !are_single(&sorted) {
        return Err(Fault::Syntax);
    }
    Ok((sorted, rest))
}
