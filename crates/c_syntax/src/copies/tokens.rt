// Copies of tokens.
ghost use Rattle.std.specs.Prelude.{◌≡◌, IfOk};

use crate::token::{Token, TokenKind};
use std::alloc::Global;
use wp_base::NoMemory;

impl TokenKind {
    /// A copy, which equals its source.
    pub fn copy(&self, alloc: Global) -> Result<TokenKind, NoMemory>
        ensures { IfOk result (λ copy. copy ≡ self.now) }
    {
        match self {
            TokenKind::Name(name) => Ok(TokenKind::Name(name.copy(alloc)?)),
            TokenKind::Word(word) => Ok(TokenKind::Word(*word)),
            TokenKind::Number {
                value,
                base,
                suffix,
            } => Ok(TokenKind::Number {
                value: *value,
                base: *base,
                suffix: *suffix,
            }),
            TokenKind::Char(value) => Ok(TokenKind::Char(*value)),
            TokenKind::Punct(punct) => Ok(TokenKind::Punct(*punct)),
            TokenKind::AnnotOpen => Ok(TokenKind::AnnotOpen),
            TokenKind::AnnotClose => Ok(TokenKind::AnnotClose),
        }
    }
}

impl Token {
    /// A copy, which equals its source.
    pub fn copy(&self, alloc: Global) -> Result<Token, NoMemory>
        ensures { IfOk result (λ copy. copy ≡ self.now) }
    {
        let kind = self.kind.copy(alloc)?;
        Ok(Token {
            kind,
            line: self.line,
        })
    }
}
