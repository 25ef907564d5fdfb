// Statements by their first token (C11 6.8).
ghost use Rattle.std.specs.Prelude.{◌≡◌};
ghost use Rattle.parse_leaf_stmts.specs.Read as spec;

use c_syntax::{Punct, TokenKind, Word};

/// Which statement begins.
#[derive(Clone, Copy)]
pub enum Form {
    Empty,
    Block,
    If,
    While,
    Do,
    For,
    Switch,
    Break,
    Continue,
    Return,
    /// An assertion, or a loop with its annotation.
    Annotated,
    /// An expression.
    Value,
    /// None does.
    Nothing,
}

fn word_form(word: Word) -> Form
    ensures { result ≡ spec.word_form word }
{
    match word {
        Word::If => Form::If,
        Word::While => Form::While,
        Word::Do => Form::Do,
        Word::For => Form::For,
        Word::Switch => Form::Switch,
        Word::Break => Form::Break,
        Word::Continue => Form::Continue,
        Word::Return => Form::Return,
        Word::SizeOf => Form::Value,
        _ => Form::Nothing,
    }
}

fn punct_form(punct: Punct) -> Form
    ensures { result ≡ spec.punct_form punct }
{
    match punct {
        Punct::Semicolon => Form::Empty,
        Punct::OpenBrace => Form::Block,
        Punct::CloseBrace => Form::Nothing,
        _ => Form::Value,
    }
}

/// Which statement begins with a token of this kind.
pub fn form_of(kind: &TokenKind) -> Form
    ensures { result ≡ spec.form_of kind.now }
{
    match kind {
        TokenKind::Word(word) => word_form(*word),
        TokenKind::Punct(punct) => punct_form(*punct),
        TokenKind::AnnotOpen => Form::Annotated,
        TokenKind::AnnotClose => Form::Nothing,
        TokenKind::Name(_) | TokenKind::Number { .. } | TokenKind::Char(_) => Form::Value,
    }
}
