// Behaviors that are complete or disjoint (ACSL 2.3.3).
ghost use Rattle.std.specs.Prelude.{◌≡◌, ◌-◌, length, map, IfOk};
ghost use Rattle.c_grammar.specs.Annots.{complete_of, disjoint_of};
ghost use Rattle.c_grammar.specs.Views.{Gives};
ghost use Rattle.c_grammar.specs.ListReaders.{with_items, more_separated, separated_at};
ghost use Rattle.acsl_parser.specs.Read as spec;
ghost use Rattle.acsl_parser.specs.Views.{view_ending};

use crate::words::{EndWord, end_word_at, place_of, starts_ending};
use c_grammar::{Fault, Read, expect, keyword_at, name_at, punct_at};
use c_syntax::{Names, Punct, Token};
use std::alloc::Global;
use wp_base::{List, NoMemory, Str};

/// What is said of behaviors.
#[derive(Drop)]
pub enum Ending {
    Complete(Names),
    Disjoint(Names),
}

#[tactic(auto, unfolding(crate::specs::Read::plain_name_at))]
fn plain_name_at(alloc: Global, tokens: &[Token]) -> Read<'_, Str>
    ensures { Gives (λ x. x) result (spec.plain_name_at tokens.now) }
{
    let ((name, _), rest) = name_at(alloc, tokens)?;
    Ok((name, rest))
}

// The names so far, and those that come after a comma.
fn more_names<'a>(alloc: Global, first: List<Str>, tokens: &'a [Token]) -> Read<'a, List<Str>>
    ensures { Gives (λ xs. xs) result (with_items first (more_separated spec.plain_name_at (length tokens.now) tokens.now)) }
{
    let mut items = first;
    let mut rest = tokens;
    for turn in 0..tokens.len() {
        let Some((_, after)) = punct_at(Punct::Comma, rest) else {
            return Ok((items, rest));
        };
        let (item, after) = plain_name_at(alloc, after)?;
        items.push(item)?;
        rest = after;
    }
    Ok((items, rest))
}

#[tactic(auto, using(c_grammar::proofs::Turns::one_more), unfolding(c_grammar::specs::ListReaders::separated_at))]
fn some_names(alloc: Global, tokens: &[Token]) -> Read<'_, List<Str>>
    ensures { Gives (λ xs. xs) result (separated_at spec.plain_name_at tokens.now) }
{
    let (item, rest) = plain_name_at(alloc, tokens)?;
    let mut items = List::new(alloc);
    items.push(item)?;
    more_names(alloc, items, rest)
}

// Names and a semicolon, or the semicolon alone.
#[tactic(auto, unfolding(crate::specs::Read::names_at))]
fn names_at(alloc: Global, tokens: &[Token]) -> Read<'_, List<Str>>
    ensures { Gives (λ xs. xs) result (spec.names_at tokens.now) }
{
    if let Some((_, rest)) = punct_at(Punct::Semicolon, tokens) {
        return Ok((List::new(alloc), rest));
    }
    let (names, rest) = some_names(alloc, tokens)?;
    let (_, rest) = expect(Punct::Semicolon, rest)?;
    Ok((names, rest))
}

fn ending_of(word: EndWord, names: Names) -> Ending
    ensures { view_ending result ≡ spec.ending_of word names }
{
    match word {
        EndWord::Complete => Ending::Complete(names),
        EndWord::Disjoint => Ending::Disjoint(names),
    }
}

#[tactic(auto, unfolding(crate::specs::Read::ending_at))]
fn ending_at(alloc: Global, end: usize, tokens: &[Token]) -> Read<'_, Ending>
    ensures { Gives view_ending result (spec.ending_at end tokens.now) }
{
    let Some(((word, line), rest)) = end_word_at(tokens) else {
        return Err(Fault::Syntax);
    };
    let Some((_, rest)) = keyword_at(b"behaviors", rest) else {
        return Err(Fault::Syntax);
    };
    let (names, rest) = names_at(alloc, rest)?;
    let place = place_of(end, tokens);
    Ok((ending_of(word, Names { names, line, place }), rest))
}

/// What is said of behaviors, as long as something is.
pub fn endings_at(alloc: Global, end: usize, tokens: &[Token]) -> Read<'_, List<Ending>>
    ensures { Gives (map view_ending) result (spec.all_endings_at end tokens.now) }
{
    let mut items = List::new(alloc);
    let mut rest = tokens;
    for turn in 0..tokens.len() {
        if !starts_ending(rest) {
            return Ok((items, rest));
        }
        let (item, after) = ending_at(alloc, end, rest)?;
        items.push(item)?;
        rest = after;
    }
    Ok((items, rest))
}

/// The complete ones, and the disjoint ones.
pub fn split_endings(
    alloc: Global,
    endings: List<Ending>,
) -> Result<(List<Names>, List<Names>), NoMemory>
    ensures complete { IfOk result (λ x. x.0 ≡ complete_of (map view_ending endings)) }
    ensures disjoint { IfOk result (λ x. x.1 ≡ disjoint_of (map view_ending endings)) }
{
    let mut complete = List::new(alloc);
    let mut disjoint = List::new(alloc);
    for ending in endings.into_vec() {
        match ending {
            Ending::Complete(names) => complete.push(names)?,
            Ending::Disjoint(names) => disjoint.push(names)?,
        }
    }
    Ok((complete, disjoint))
}
