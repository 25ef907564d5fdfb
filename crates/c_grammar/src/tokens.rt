// Tokens at the front of a list.
ghost use Rattle.std.specs.Prelude.{◌≡◌};
ghost use Rattle.c_grammar.specs.Reading as spec;
ghost use Rattle.c_grammar.specs.Tokens.{first_line as line_of_first, is_type as is_typedef_name};
ghost use Rattle.c_grammar.specs.Views.{Finds, Gives};

use crate::fault::{Fault, Read};
use crate::type_names::TypeNames;
use c_syntax::{Punct, Token, TokenKind, Word};
use std::alloc::Global;
use wp_base::{Line, Str};

/// The line of the first token.
pub fn first_line(tokens: &[Token]) -> Line
    ensures { result ≡ line_of_first tokens.now }
{
    match tokens.first() {
        Some(first) => first.line,
        None => 0,
    }
}

/// The line of this punctuator and the tokens after it, if it comes first.
pub fn punct_at(punct: Punct, tokens: &[Token]) -> Option<(Line, &[Token])>
    ensures { Finds (λ x. x) result (spec.punct_at punct tokens.now) }
{
    let (first, rest) = tokens.split_first()?;
    match first.kind {
        TokenKind::Punct(found) if found == punct => Some((first.line, rest)),
        _ => None,
    }
}

/// The line of this punctuator, which has to come first, and the tokens after it.
pub fn expect(punct: Punct, tokens: &[Token]) -> Read<'_, Line>
    ensures { Gives (λ x. x) result (spec.punct_at punct tokens.now) }
{
    match punct_at(punct, tokens) {
        Some(found) => Ok(found),
        None => Err(Fault::Syntax),
    }
}

/// The line of this word and the tokens after it, if it comes first.
pub fn word_at(word: Word, tokens: &[Token]) -> Option<(Line, &[Token])>
    ensures { Finds (λ x. x) result (spec.word_at word tokens.now) }
{
    let (first, rest) = tokens.split_first()?;
    match first.kind {
        TokenKind::Word(found) if found == word => Some((first.line, rest)),
        _ => None,
    }
}

/// The line of a name with this text and the tokens after it, if it comes first.
pub fn keyword_at<'a>(text: &[u8], tokens: &'a [Token]) -> Option<(Line, &'a [Token])>
    ensures { Finds (λ x. x) result (spec.keyword_at text.now tokens.now) }
{
    let (first, rest) = tokens.split_first()?;
    match &first.kind {
        TokenKind::Name(name) if name.bytes() == text => Some((first.line, rest)),
        _ => None,
    }
}

/// The line of what opens an annotation and the tokens after it, if it comes first.
pub fn annot_open_at(tokens: &[Token]) -> Option<(Line, &[Token])>
    ensures { Finds (λ x. x) result (spec.annot_open_at tokens.now) }
{
    let (first, rest) = tokens.split_first()?;
    match first.kind {
        TokenKind::AnnotOpen => Some((first.line, rest)),
        _ => None,
    }
}

/// The line of what ends an annotation and the tokens after it, if it comes first.
pub fn annot_close_at(tokens: &[Token]) -> Option<(Line, &[Token])>
    ensures { Finds (λ x. x) result (spec.annot_close_at tokens.now) }
{
    let (first, rest) = tokens.split_first()?;
    match first.kind {
        TokenKind::AnnotClose => Some((first.line, rest)),
        _ => None,
    }
}

/// Whether a typedef declared the name.
pub fn is_type(types: &TypeNames, name: &Str) -> bool
    ensures { result ≡ is_typedef_name types.now name.now }
{
    types.has(name)
}

/// A name, with its line.
pub fn name_at(alloc: Global, tokens: &[Token]) -> Read<'_, (Str, Line)>
    ensures { Gives (λ x. x) result (spec.name_at tokens.now) }
{
    let Some((first, rest)) = tokens.split_first() else {
        return Err(Fault::Syntax);
    };
    match &first.kind {
        TokenKind::Name(name) => Ok(((name.copy(alloc)?, first.line), rest)),
        _ => Err(Fault::Syntax),
    }
}

/// A name that no typedef declared, with its line.
pub fn new_name_at<'a>(
    alloc: Global,
    types: &TypeNames,
    tokens: &'a [Token],
) -> Read<'a, (Str, Line)>
    ensures { Gives (λ x. x) result (spec.new_name_at types.now tokens.now) }
{
    let ((name, line), rest) = name_at(alloc, tokens)?;
    if is_type(types, &name) {
        return Err(Fault::Syntax);
    }
    Ok(((name, line), rest))
}
