// The integer kinds by their words (C11 6.7.2).
ghost use Rattle.std.specs.Prelude.{◌≡◌, map, Some, IfOk, find};
ghost use Rattle.std.specs.Option.{option_map};
ghost use Rattle.c_grammar.specs.Types as grammar;
ghost use Rattle.c_grammar.specs.Views.{Gives};
ghost use Rattle.parse_types.specs.Read as spec;

use c_grammar::{Fault, Read};
use c_syntax::{Token, TokenKind, Word};
use std::alloc::Global;
use wp_base::{Kind, NoMemory};

/// The spellings of each kind, whose words may stand in any order (C11 6.7.2p2).
pub const KIND_ROWS: [(&[Word], Kind); 27] = [
    (&[Word::Bool], Kind::Bool),
    (&[Word::Char], Kind::Char),
    (&[Word::Signed, Word::Char], Kind::SChar),
    (&[Word::Unsigned, Word::Char], Kind::UChar),
    (&[Word::Short], Kind::Short),
    (&[Word::Signed, Word::Short], Kind::Short),
    (&[Word::Short, Word::Int], Kind::Short),
    (&[Word::Signed, Word::Short, Word::Int], Kind::Short),
    (&[Word::Unsigned, Word::Short], Kind::UShort),
    (&[Word::Unsigned, Word::Short, Word::Int], Kind::UShort),
    (&[Word::Int], Kind::Int),
    (&[Word::Signed], Kind::Int),
    (&[Word::Signed, Word::Int], Kind::Int),
    (&[Word::Unsigned], Kind::UInt),
    (&[Word::Unsigned, Word::Int], Kind::UInt),
    (&[Word::Long], Kind::Long),
    (&[Word::Signed, Word::Long], Kind::Long),
    (&[Word::Long, Word::Int], Kind::Long),
    (&[Word::Signed, Word::Long, Word::Int], Kind::Long),
    (&[Word::Unsigned, Word::Long], Kind::ULong),
    (&[Word::Unsigned, Word::Long, Word::Int], Kind::ULong),
    (&[Word::Long, Word::Long], Kind::LLong),
    (&[Word::Signed, Word::Long, Word::Long], Kind::LLong),
    (&[Word::Long, Word::Long, Word::Int], Kind::LLong),
    (
        &[Word::Signed, Word::Long, Word::Long, Word::Int],
        Kind::LLong,
    ),
    (&[Word::Unsigned, Word::Long, Word::Long], Kind::ULLong),
    (
        &[Word::Unsigned, Word::Long, Word::Long, Word::Int],
        Kind::ULLong,
    ),
];

pub fn is_kind_word(word: Word) -> bool
    ensures { result ≡ grammar.is_kind_word word }
{
    match word {
        Word::Bool => true,
        Word::Char => true,
        Word::Int => true,
        Word::Long => true,
        Word::Short => true,
        Word::Signed => true,
        Word::Unsigned => true,
        _ => false,
    }
}

fn kind_word(kind: &TokenKind) -> Option<Word>
    ensures { result ≡ spec.kind_word kind.now }
{
    match kind {
        TokenKind::Word(word) if is_kind_word(*word) => Some(*word),
        _ => None,
    }
}

// How often a word stands among these.
#[tactic(auto, using(crate::proofs::Words::times_counts))]
fn times(word: Word, words: &[Word]) -> usize
    ensures { result ≡ grammar.times word words.now }
{
    words.iter().filter(|other| word == **other).count()
}

fn is_as_often(word: Word, left: &[Word], right: &[Word]) -> bool
    ensures { result ≡ spec.is_as_often word left.now right.now }
{
    times(word, left) == times(word, right)
}

fn same_words(left: &[Word], right: &[Word]) -> bool
    ensures { result ≡ grammar.same_words left.now right.now }
{
    is_as_often(Word::Bool, left, right)
        && is_as_often(Word::Char, left, right)
        && is_as_often(Word::Int, left, right)
        && is_as_often(Word::Long, left, right)
        && is_as_often(Word::Short, left, right)
        && is_as_often(Word::Signed, left, right)
        && is_as_often(Word::Unsigned, left, right)
}

fn kind_in(mut table: &[(&[Word], Kind)], words: &[Word]) -> Option<Kind>
    ensures { result ≡ spec.kind_among (map (λ row. (row.0.now, row.1)) table.entry.now) words.now }
{
    while let [row, rest @ ..] = table {
        if same_words(row.0, words) {
            return Some(row.1);
        }
        table = rest;
    }
    None
}

fn kind_of(words: &[Word]) -> Option<Kind>
    ensures { result ≡ grammar.kind_of words.now }
{
    kind_in(&KIND_ROWS, words)
}

// The words of a kind at the front, as far as they go.
fn words_at(alloc: Global, tokens: &[Token]) -> Result<(Vec<Word>, &[Token]), NoMemory>
    ensures words { IfOk result (λ x. x.0.items ≡ (spec.words_at tokens.now).0) }
    ensures rest { IfOk result (λ x. x.1.now ≡ (spec.words_at tokens.now).1) }
{
    let mut words = Vec::new(alloc);
    let mut rest = tokens;
    while let Some((first, after)) = rest.split_first() {
        let Some(word) = kind_word(&first.kind) else {
            return Ok((words, rest));
        };
        words.push(word)?;
        rest = after;
    }
    Ok((words, rest))
}

/// The kind that the words at the front spell, and the tokens after them.
#[tactic(auto, unfolding(crate::specs::Read::kind_at))]
pub fn kind_at(alloc: Global, tokens: &[Token]) -> Read<'_, Kind>
    ensures { Gives (λ x. x) result (spec.kind_at tokens.now) }
{
    let (words, rest) = words_at(alloc, tokens)?;
    match kind_of(&words) {
        Some(kind) => Ok((kind, rest)),
        None => Err(Fault::Syntax),
    }
}
