// Types, pointers and names of types (C11 6.7.2, 6.7.3, 6.7.6, 6.7.7).
ghost use Rattle.std.specs.Prelude.{◌≡◌, IfOk, length};
ghost use Rattle.c_syntax.specs.View.{view_ctype};
ghost use Rattle.c_syntax.specs.Expr as e;
ghost use Rattle.c_grammar.specs.Types.{const_if};
ghost use Rattle.c_grammar.specs.Views.{Gives};
ghost use Rattle.parse_types.specs.Read as spec;

use crate::kinds::{is_kind_word, kind_at};
use c_grammar::{Fault, Read, TypeNames, is_type, name_at, punct_at};
use c_syntax::{CType, Punct, Token, TokenKind, Word};
use std::alloc::Global;
use wp_base::{Boxed, NoMemory};

fn word_starts(word: Word) -> bool
    ensures { result ≡ spec.word_starts word }
{
    match word {
        Word::Const => true,
        Word::Void => true,
        Word::Struct => true,
        Word::Enum => true,
        _ => is_kind_word(word),
    }
}

/// Whether the first token begins a type.
#[tactic(auto, unfolding(crate::specs::Read::starts_type))]
pub fn starts_type(types: &TypeNames, tokens: &[Token]) -> bool
    ensures { result ≡ spec.starts_type types.now tokens.now }
{
    let Some((first, _)) = tokens.split_first() else {
        return false;
    };
    match &first.kind {
        TokenKind::Word(word) => word_starts(*word),
        TokenKind::Name(name) => is_type(types, name),
        _ => false,
    }
}

fn is_const(kind: &TokenKind) -> bool
    ensures { result ≡ spec.is_const kind.now }
{
    matches!(kind, TokenKind::Word(Word::Const))
}

/// Whether there is a `const` at the front, and the tokens behind each of them.
pub fn consts_at(tokens: &[Token]) -> (bool, &[Token])
    ensures found { result.0 ≡ (spec.consts_at tokens.now).0 }
    ensures rest { result.1.now ≡ (spec.consts_at tokens.now).1 }
{
    let mut found = false;
    let mut rest = tokens;
    while let Some((first, after)) = rest.split_first() {
        if !is_const(&first.kind) {
            return (found, rest);
        }
        found = true;
        rest = after;
    }
    (found, rest)
}

// A `const` where it is allowed, if one comes next.
#[tactic(auto, unfolding(crate::specs::Read::const_at))]
fn const_at(consts: bool, tokens: &[Token]) -> (bool, &[Token])
    ensures found { result.0 ≡ (spec.const_at consts tokens.now).0 }
    ensures rest { result.1.now ≡ (spec.const_at consts tokens.now).1 }
{
    match tokens.split_first() {
        Some((first, rest)) if consts && is_const(&first.kind) => (true, rest),
        _ => (false, tokens),
    }
}

#[tactic(auto, using(crate::proofs::Reading::views))]
fn with_const(alloc: Global, constant: bool, ty: CType) -> Result<CType, NoMemory>
    ensures { IfOk result (λ x. view_ctype x ≡ const_if constant (view_ctype ty)) }
{
    if constant {
        Ok(CType::Const(Boxed::new(alloc, ty)?))
    } else {
        Ok(ty)
    }
}

#[tactic(auto, using(crate::proofs::Reading::views))]
fn pointer(alloc: Global, constant: bool, to: CType) -> Result<CType, NoMemory>
    ensures { IfOk result (λ x. view_ctype x ≡ const_if constant (e.pointer (view_ctype to))) }
{
    let pointer = CType::Pointer(Boxed::new(alloc, to)?);
    with_const(alloc, constant, pointer)
}

// The type that begins with a word.
#[tactic(auto, using(crate::proofs::Reading::views))]
fn worded<'a>(alloc: Global, word: Word, tokens: &'a [Token], after: &'a [Token]) -> Read<'a, CType>
    ensures { Gives view_ctype result (spec.worded word tokens.now after.now) }
{
    match word {
        Word::Void => Ok((CType::Void, after)),
        Word::Struct => {
            let ((name, _), rest) = name_at(alloc, after)?;
            Ok((CType::Struct(name), rest))
        }
        Word::Enum => {
            let ((name, _), rest) = name_at(alloc, after)?;
            Ok((CType::Enum(name), rest))
        }
        _ => {
            let (kind, rest) = kind_at(alloc, tokens)?;
            Ok((CType::Kind(kind), rest))
        }
    }
}

// A type without `const`.
#[tactic(auto, using(crate::proofs::Reading::views), unfolding(crate::specs::Read::specifier_at))]
fn specifier_at<'a>(alloc: Global, types: &TypeNames, tokens: &'a [Token]) -> Read<'a, CType>
    ensures { Gives view_ctype result (spec.specifier_at types.now tokens.now) }
{
    let Some((first, after)) = tokens.split_first() else {
        return Err(Fault::Syntax);
    };
    match &first.kind {
        TokenKind::Word(word) => worded(alloc, *word, tokens, after),
        TokenKind::Name(name) if is_type(types, name) => {
            Ok((CType::Named(name.copy(alloc)?), after))
        }
        _ => Err(Fault::Syntax),
    }
}

/// A type with its `const`, and the tokens after it.
#[tactic(auto, unfolding(crate::specs::Read::type_at))]
pub fn type_at<'a>(alloc: Global, types: &TypeNames, tokens: &'a [Token]) -> Read<'a, CType>
    ensures { Gives view_ctype result (spec.type_at types.now tokens.now) }
{
    let (before, rest) = consts_at(tokens);
    let (ty, rest) = specifier_at(alloc, types, rest)?;
    let (after, rest) = consts_at(rest);
    Ok((with_const(alloc, before || after, ty)?, rest))
}

/// The pointers to a type, as many as there are, each with `const` where it is allowed.
#[tactic(auto, using(crate::proofs::Reading::stars_turn))]
pub fn stars_at<'a>(
    alloc: Global,
    consts: bool,
    base: CType,
    tokens: &'a [Token],
) -> Read<'a, CType>
    ensures { Gives view_ctype result (spec.stars_at consts (view_ctype base) tokens.now) }
{
    let mut ty = base;
    let mut rest = tokens;
    for turn in 0..tokens.len() {
        let Some((_, after)) = punct_at(Punct::Star, rest) else {
            return Ok((ty, rest));
        };
        let (constant, after) = const_at(consts, after);
        ty = pointer(alloc, constant, ty)?;
        rest = after;
    }
    Ok((ty, rest))
}

/// The name of a type: a type and pointers to it.
#[tactic(auto, unfolding(crate::specs::Read::type_name_at))]
pub fn type_name_at<'a>(alloc: Global, types: &TypeNames, tokens: &'a [Token]) -> Read<'a, CType>
    ensures { Gives view_ctype result (spec.type_name_at types.now tokens.now) }
{
    let (ty, rest) = type_at(alloc, types, tokens)?;
    stars_at(alloc, false, ty, rest)
}
