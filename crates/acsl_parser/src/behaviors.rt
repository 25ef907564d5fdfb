// Behaviors (ACSL 2.3.3).
ghost use Rattle.std.specs.Prelude.{◌≡◌, ◌-◌, map};
ghost use Rattle.c_syntax.specs.View.{view_behavior};
ghost use Rattle.c_grammar.specs.Views.{Gives};
ghost use Rattle.acsl_parser.specs.Read as spec;
ghost use Rattle.parse_clauses.specs.Sorts.{behavior_of};
ghost use Rattle.parse_clauses.specs.Views.{view_sorted};

use crate::part::part_at;
use crate::words::{place_of, starts_behavior};
use c_grammar::{DEEPEST, Fault, Read, TypeNames, expect, keyword_at, new_name_at};
use c_syntax::{Behavior, Punct, Token};
use parse_clauses::{Part, Sorted, first_assigns};
use std::alloc::Global;
use wp_base::{Line, List, Str};

fn behavior_made(alloc: Global, place: usize, name: Str, line: Line, sorted: Sorted) -> Behavior
    ensures { view_behavior result ≡ behavior_of place (name, line) (view_sorted sorted) }
{
    Behavior {
        name,
        assumes: sorted.assumes,
        requires_: sorted.requires_,
        assigns: first_assigns(alloc, sorted.assigns),
        ensures_: sorted.ensures_,
        line,
        place,
    }
}

#[tactic(auto, unfolding(crate::specs::Read::behavior_at))]
fn behavior_at<'a>(
    alloc: Global,
    types: &TypeNames,
    end: usize,
    tokens: &'a [Token],
) -> Read<'a, Behavior>
    ensures { Gives view_behavior result (spec.behavior_at types.now end tokens.now) }
{
    let Some((_, rest)) = keyword_at(b"behavior", tokens) else {
        return Err(Fault::Syntax);
    };
    let ((name, line), rest) = new_name_at(alloc, types, rest)?;
    let (_, rest) = expect(Punct::Colon, rest)?;
    let (sorted, rest) = part_at(alloc, Part::Behavior, types, DEEPEST, end, rest)?;
    Ok((
        behavior_made(alloc, place_of(end, tokens), name, line, sorted),
        rest,
    ))
}

/// Behaviors, as long as one starts.
pub fn behaviors_at<'a>(
    alloc: Global,
    types: &TypeNames,
    end: usize,
    tokens: &'a [Token],
) -> Read<'a, List<Behavior>>
    ensures { Gives (map view_behavior) result (spec.all_behaviors_at types.now end tokens.now) }
{
    let mut items = List::new(alloc);
    let mut rest = tokens;
    for turn in 0..tokens.len() {
        if !starts_behavior(rest) {
            return Ok((items, rest));
        }
        let (item, after) = behavior_at(alloc, types, end, rest)?;
        items.push(item)?;
        rest = after;
    }
    Ok((items, rest))
}
