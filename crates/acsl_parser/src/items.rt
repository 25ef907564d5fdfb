// Clauses one after another (ACSL 2.3, 2.4.2, 2.5).
ghost use Rattle.std.specs.Prelude.{◌≡◌, ◌-◌, map};
ghost use Rattle.c_grammar.specs.Views.{Gives};
ghost use Rattle.acsl_parser.specs.Read as spec;
ghost use Rattle.parse_clauses.specs.Views.{view_item};

use crate::clauses::{assigns_at, pred_ended, term_ended};
use crate::words::{ClauseWord, LoopWord, clause_word_at, loop_word_at, place_of, starts_item};
use c_grammar::{Fault, Read, TypeNames};
use c_syntax::{Clause, Measure, Pred, Term, Token};
use parse_clauses::Item;
use std::alloc::Global;
use wp_base::{Line, List};

fn clause_of(pred: Pred, place: usize, line: Line) -> Clause
    ensures { result ≡ record { pred = pred; line = line; place = place } }
{
    Clause { pred, line, place }
}

fn measure_of(term: Term, place: usize, line: Line) -> Measure
    ensures { result ≡ record { term = term; line = line; place = place } }
{
    Measure { term, line, place }
}

// A clause of a loop, behind `loop`.
#[tactic(auto, unfolding(crate::specs::Read::loop_item_at))]
fn loop_item_at<'a>(
    alloc: Global,
    types: &TypeNames,
    room: u32,
    place: usize,
    line: Line,
    tokens: &'a [Token],
) -> Read<'a, Item>
    ensures { Gives view_item result (spec.loop_item_at types.now room place line tokens.now) }
{
    let Some(((word, _), rest)) = loop_word_at(tokens) else {
        return Err(Fault::Syntax);
    };
    match word {
        LoopWord::Invariant => {
            let (pred, rest) = pred_ended(alloc, types, room, rest)?;
            Ok((Item::Invariant(clause_of(pred, place, line)), rest))
        }
        LoopWord::Assigns => {
            let (clause, rest) = assigns_at(alloc, types, room, place, line, rest)?;
            Ok((Item::LoopAssigns(clause), rest))
        }
        LoopWord::Variant => {
            let (term, rest) = term_ended(alloc, types, room, rest)?;
            Ok((Item::Variant(measure_of(term, place, line)), rest))
        }
    }
}

// A clause behind its word.
fn item_behind<'a>(
    alloc: Global,
    types: &TypeNames,
    room: u32,
    place: usize,
    line: Line,
    word: ClauseWord,
    tokens: &'a [Token],
) -> Read<'a, Item>
    ensures { Gives view_item result (spec.item_by types.now room place line word tokens.now) }
{
    match word {
        ClauseWord::Requires => {
            let (pred, rest) = pred_ended(alloc, types, room, tokens)?;
            Ok((Item::Requires(clause_of(pred, place, line)), rest))
        }
        ClauseWord::Ensures => {
            let (pred, rest) = pred_ended(alloc, types, room, tokens)?;
            Ok((Item::Ensures(clause_of(pred, place, line)), rest))
        }
        ClauseWord::Assumes => {
            let (pred, rest) = pred_ended(alloc, types, room, tokens)?;
            Ok((Item::Assumes(clause_of(pred, place, line)), rest))
        }
        ClauseWord::Assigns => {
            let (clause, rest) = assigns_at(alloc, types, room, place, line, tokens)?;
            Ok((Item::Assigns(clause), rest))
        }
        ClauseWord::Decreases => {
            let (term, rest) = term_ended(alloc, types, room, tokens)?;
            Ok((Item::Decreases(measure_of(term, place, line)), rest))
        }
        ClauseWord::Loop => loop_item_at(alloc, types, room, place, line, tokens),
    }
}

// A clause, of a loop or not.
#[tactic(auto, unfolding(crate::specs::Read::item_at))]
fn item_at<'a>(
    alloc: Global,
    types: &TypeNames,
    room: u32,
    end: usize,
    tokens: &'a [Token],
) -> Read<'a, Item>
    ensures { Gives view_item result (spec.item_at types.now room end tokens.now) }
{
    let Some(((word, line), rest)) = clause_word_at(tokens) else {
        return Err(Fault::Syntax);
    };
    item_behind(alloc, types, room, place_of(end, tokens), line, word, rest)
}

/// Clauses, as long as one starts.
pub fn items_at<'a>(
    alloc: Global,
    types: &TypeNames,
    room: u32,
    end: usize,
    tokens: &'a [Token],
) -> Read<'a, List<Item>>
    ensures { Gives (map view_item) result (spec.items_at types.now room end tokens.now) }
{
    let mut items = List::new(alloc);
    let mut rest = tokens;
    for turn in 0..tokens.len() {
        if !starts_item(rest) {
            return Ok((items, rest));
        }
        let (item, after) = item_at(alloc, types, room, end, rest)?;
        items.push(item)?;
        rest = after;
    }
    Ok((items, rest))
}
