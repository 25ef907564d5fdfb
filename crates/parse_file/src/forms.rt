// Which declaration comes first, by its first tokens.
ghost use Rattle.std.specs.Prelude.{◌≡◌};
ghost use Rattle.parse_file.specs.Read as spec;
ghost use Rattle.parse_file.specs.Views.{Skips};

use c_grammar::{annot_open_at, keyword_at, punct_at, word_at};
use c_syntax::{Punct, Token, TokenKind, Word};

/// The forms of declarations, as their first tokens tell them.
#[derive(Clone, Copy)]
pub enum Form {
    /// Definitions of predicates and logic functions, in an annotation (ACSL 2.6.1).
    Definitions,
    /// A function with a contract (ACSL 2.3).
    Contracted,
    Typedef,
    Struct,
    Enum,
    /// A function without a contract, or variables.
    Plain,
}

/// The tokens after a name, if one comes first.
#[tactic(auto, unfolding(crate::specs::Read::after_name))]
pub fn after_name(tokens: &[Token]) -> Option<&[Token]>
    ensures { Skips result (spec.after_name tokens.now) }
{
    let (first, rest) = tokens.split_first()?;
    match first.kind {
        TokenKind::Name(_) => Some(rest),
        _ => None,
    }
}

#[tactic(auto, unfolding(crate::specs::Read::begins_logic))]
fn begins_logic(tokens: &[Token]) -> bool
    ensures { result ≡ spec.begins_logic tokens.now }
{
    keyword_at(b"predicate", tokens).is_some() || keyword_at(b"logic", tokens).is_some()
}

// A name and this punctuator come first.
#[tactic(auto, unfolding(crate::specs::Read::names_then))]
fn names(punct: Punct, tokens: &[Token]) -> bool
    ensures { result ≡ spec.names_then punct tokens.now }
{
    match after_name(tokens) {
        Some(rest) => punct_at(punct, rest).is_some(),
        None => false,
    }
}

// A struct is declared with its fields.
#[tactic(auto, unfolding(crate::specs::Read::is_struct))]
fn is_struct(tokens: &[Token]) -> bool
    ensures { result ≡ spec.is_struct tokens.now }
{
    match word_at(Word::Struct, tokens) {
        Some((_, rest)) => names(Punct::OpenBrace, rest),
        None => false,
    }
}

// An enum is declared with its enumerators.
#[tactic(auto, unfolding(crate::specs::Read::is_enum))]
fn is_enum(tokens: &[Token]) -> bool
    ensures { result ≡ spec.is_enum tokens.now }
{
    match word_at(Word::Enum, tokens) {
        Some((_, rest)) => {
            punct_at(Punct::OpenBrace, rest).is_some() || names(Punct::OpenBrace, rest)
        }
        None => false,
    }
}

// A type is named.
#[tactic(auto, unfolding(crate::specs::Read::is_typedef))]
fn is_typedef(tokens: &[Token]) -> bool
    ensures { result ≡ spec.is_typedef tokens.now }
{
    word_at(Word::Typedef, tokens).is_some()
}

// Which declaration comes first, where no annotation does.
#[tactic(auto, unfolding(crate::specs::Read::bare_form))]
fn bare_form(tokens: &[Token]) -> Form
    ensures { result ≡ spec.bare_form tokens.now }
{
    if is_typedef(tokens) {
        Form::Typedef
    } else if is_struct(tokens) {
        Form::Struct
    } else if is_enum(tokens) {
        Form::Enum
    } else {
        Form::Plain
    }
}

/// Which declaration comes first.
#[tactic(auto, unfolding(crate::specs::Read::form_of))]
pub fn form_of(tokens: &[Token]) -> Form
    ensures { result ≡ spec.form_of tokens.now }
{
    match annot_open_at(tokens) {
        Some((_, inside)) if begins_logic(inside) => Form::Definitions,
        Some(_) => Form::Contracted,
        None => bare_form(tokens),
    }
}

fn is_pointer(kind: &TokenKind) -> bool
    ensures { result ≡ spec.is_pointer kind.now }
{
    matches!(
        kind,
        TokenKind::Punct(Punct::Star) | TokenKind::Word(Word::Const)
    )
}

/// Whether a function comes, behind the words of its type.
#[tactic(auto, using(crate::proofs::Reading::opens_none, crate::proofs::Reading::opens_stop, crate::proofs::Reading::opens_go))]
pub fn opens_params(tokens: &[Token]) -> bool
    ensures { result ≡ spec.opens_params tokens.now }
{
    let mut rest = tokens;
    while let Some((first, after)) = rest.split_first() {
        if !is_pointer(&first.kind) {
            return names(Punct::OpenParen, rest);
        }
        rest = after;
    }
    false
}
