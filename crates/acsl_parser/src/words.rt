// The words that begin the parts of annotations (ACSL 2.3 to 2.6).
ghost use Rattle.std.specs.Prelude.{◌≡◌, ◌-◌, length};
ghost use Rattle.c_grammar.specs.Views.{Finds};
ghost use Rattle.acsl_parser.specs.Lists.{worded};
ghost use Rattle.acsl_parser.specs.Read as spec;

use c_grammar::keyword_at;
use c_syntax::{Token, TokenKind};
use wp_base::{Line, Str};

const REQUIRES: &[u8] = b"requires";

const ENSURES: &[u8] = b"ensures";

const ASSUMES: &[u8] = b"assumes";

const ASSIGNS: &[u8] = b"assigns";

const DECREASES: &[u8] = b"decreases";

const LOOP: &[u8] = b"loop";

const INVARIANT: &[u8] = b"invariant";

const VARIANT: &[u8] = b"variant";

const COMPLETE: &[u8] = b"complete";

const DISJOINT: &[u8] = b"disjoint";

const PREDICATE: &[u8] = b"predicate";

const LOGIC: &[u8] = b"logic";

/// The words of clauses.
#[derive(Clone, Copy)]
pub enum ClauseWord {
    Requires,
    Ensures,
    Assumes,
    Assigns,
    Decreases,
    Loop,
}

/// The words of clauses behind `loop`.
#[derive(Clone, Copy)]
pub enum LoopWord {
    Invariant,
    Assigns,
    Variant,
}

/// The words before `behaviors`.
#[derive(Clone, Copy)]
pub enum EndWord {
    Complete,
    Disjoint,
}

/// The words of definitions.
#[derive(Clone, Copy)]
pub enum LogicWord {
    Predicate,
    Logic,
}

#[tactic(auto, unfolding(crate::specs::Read::clause_word))]
fn clause_word(name: &Str) -> Option<ClauseWord>
    ensures { result ≡ spec.clause_word name.now }
{
    if name.bytes() == REQUIRES {
        Some(ClauseWord::Requires)
    } else if name.bytes() == ENSURES {
        Some(ClauseWord::Ensures)
    } else if name.bytes() == ASSUMES {
        Some(ClauseWord::Assumes)
    } else if name.bytes() == ASSIGNS {
        Some(ClauseWord::Assigns)
    } else if name.bytes() == DECREASES {
        Some(ClauseWord::Decreases)
    } else if name.bytes() == LOOP {
        Some(ClauseWord::Loop)
    } else {
        None
    }
}

/// The word of a clause, with its line, if it comes first.
pub fn clause_word_at(tokens: &[Token]) -> Option<((ClauseWord, Line), &[Token])>
    ensures { Finds (λ x. x) result (worded spec.clause_word tokens.now) }
{
    let (first, rest) = tokens.split_first()?;
    match &first.kind {
        TokenKind::Name(name) => {
            let word = clause_word(name)?;
            Some(((word, first.line), rest))
        }
        _ => None,
    }
}

/// Whether a clause starts here.
#[tactic(auto, unfolding(crate::specs::Read::starts_item))]
pub fn starts_item(tokens: &[Token]) -> bool
    ensures { result ≡ spec.starts_item tokens.now }
{
    match clause_word_at(tokens) {
        Some(_) => true,
        None => false,
    }
}

#[tactic(auto, unfolding(crate::specs::Read::loop_word))]
fn loop_word(name: &Str) -> Option<LoopWord>
    ensures { result ≡ spec.loop_word name.now }
{
    if name.bytes() == INVARIANT {
        Some(LoopWord::Invariant)
    } else if name.bytes() == ASSIGNS {
        Some(LoopWord::Assigns)
    } else if name.bytes() == VARIANT {
        Some(LoopWord::Variant)
    } else {
        None
    }
}

/// The word of a clause of a loop, with its line, if it comes first.
pub fn loop_word_at(tokens: &[Token]) -> Option<((LoopWord, Line), &[Token])>
    ensures { Finds (λ x. x) result (worded spec.loop_word tokens.now) }
{
    let (first, rest) = tokens.split_first()?;
    match &first.kind {
        TokenKind::Name(name) => {
            let word = loop_word(name)?;
            Some(((word, first.line), rest))
        }
        _ => None,
    }
}

/// Whether a behavior starts here.
#[tactic(auto, unfolding(crate::specs::Read::starts_behavior))]
pub fn starts_behavior(tokens: &[Token]) -> bool
    ensures { result ≡ spec.starts_behavior tokens.now }
{
    match keyword_at(b"behavior", tokens) {
        Some(_) => true,
        None => false,
    }
}

#[tactic(auto, unfolding(crate::specs::Read::end_word))]
fn end_word(name: &Str) -> Option<EndWord>
    ensures { result ≡ spec.end_word name.now }
{
    if name.bytes() == COMPLETE {
        Some(EndWord::Complete)
    } else if name.bytes() == DISJOINT {
        Some(EndWord::Disjoint)
    } else {
        None
    }
}

/// The word that tells what is said of behaviors, with its line, if it comes first.
pub fn end_word_at(tokens: &[Token]) -> Option<((EndWord, Line), &[Token])>
    ensures { Finds (λ x. x) result (worded spec.end_word tokens.now) }
{
    let (first, rest) = tokens.split_first()?;
    match &first.kind {
        TokenKind::Name(name) => {
            let word = end_word(name)?;
            Some(((word, first.line), rest))
        }
        _ => None,
    }
}

/// Whether something is said of behaviors here.
#[tactic(auto, unfolding(crate::specs::Read::starts_ending))]
pub fn starts_ending(tokens: &[Token]) -> bool
    ensures { result ≡ spec.starts_ending tokens.now }
{
    match end_word_at(tokens) {
        Some(_) => true,
        None => false,
    }
}

#[tactic(auto, unfolding(crate::specs::Read::logic_word))]
fn logic_word(name: &Str) -> Option<LogicWord>
    ensures { result ≡ spec.logic_word name.now }
{
    if name.bytes() == PREDICATE {
        Some(LogicWord::Predicate)
    } else if name.bytes() == LOGIC {
        Some(LogicWord::Logic)
    } else {
        None
    }
}

/// The word of a definition, with its line, if it comes first.
pub fn logic_word_at(tokens: &[Token]) -> Option<((LogicWord, Line), &[Token])>
    ensures { Finds (λ x. x) result (worded spec.logic_word tokens.now) }
{
    let (first, rest) = tokens.split_first()?;
    match &first.kind {
        TokenKind::Name(name) => {
            let word = logic_word(name)?;
            Some(((word, first.line), rest))
        }
        _ => None,
    }
}

/// Whether a definition starts here.
#[tactic(auto, unfolding(crate::specs::Read::starts_logic))]
pub fn starts_logic(tokens: &[Token]) -> bool
    ensures { result ≡ spec.starts_logic tokens.now }
{
    match logic_word_at(tokens) {
        Some(_) => true,
        None => false,
    }
}

/// The place of the first of these tokens, which are the last of so many.
pub fn place_of(end: usize, tokens: &[Token]) -> usize
    ensures { result ≡ end - length tokens.now }
{
    if tokens.len() <= end {
        end - tokens.len()
    } else {
        0
    }
}
