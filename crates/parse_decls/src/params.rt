// Parameters of functions (C11 6.7.6.3), and what links functions and variables (C11 6.7.1).
ghost use Rattle.std.specs.Prelude.{◌≡◌, ◌≤◌, ◌-◌, IfOk, map, length};
ghost use Rattle.c_syntax.specs.View.{view_ctype, view_var};
ghost use Rattle.c_syntax.specs.declared.token.Word.TheVariants as w;
ghost use Rattle.c_syntax.specs.Expr as e;
ghost use Rattle.c_grammar.specs.Reading as tokens_spec;
ghost use Rattle.c_grammar.specs.Views.{Gives};
ghost use Rattle.c_grammar.specs.ListReaders.{with_items, more_separated, separated_at};
ghost use Rattle.parse_exprs.specs.Read.{cond_at};
ghost use Rattle.parse_decls.specs.Read as spec;
ghost use Rattle.parse_decls.specs.Views.{view_param, FindsRest};

use crate::declarators::{array, declared, length_at};
use c_grammar::{Fault, Read, TypeNames, first_line, new_name_at, punct_at, word_at};
use c_syntax::{CType, Punct, Token, TokenKind, VarDecl, Word};
use parse_types::{stars_at, type_at};
use std::alloc::Global;
use wp_base::{Boxed, Line, List, NoMemory, Str};

#[tactic(auto, using(crate::proofs::Reading::views))]
fn pointer(alloc: Global, to: CType) -> Result<CType, NoMemory>
    ensures { IfOk result (λ x. view_ctype x ≡ e.pointer (view_ctype to)) }
{
    let to = Boxed::new(alloc, to)?;
    Ok(CType::Pointer(to))
}

// Behind an opening bracket: nothing, for a pointer, or a length.
#[tactic(auto, unfolding(crate::specs::Read::bracketed))]
fn bracketed<'a>(
    alloc: Global,
    types: &TypeNames,
    room: u32,
    name: (Str, Line),
    ty: CType,
    tokens: &'a [Token],
) -> Read<'a, VarDecl>
    ensures { Gives view_var result (spec.bracketed (spec.length_of (cond_at types.now) room) room name (view_ctype ty) tokens.now) }
{
    if room == 0 {
        return Err(Fault::Syntax);
    }
    let (name, line) = name;
    let Some((_, rest)) = punct_at(Punct::CloseBracket, tokens) else {
        let (length, rest) = length_at(alloc, types, room, tokens)?;
        let ty = array(alloc, ty, length)?;
        return Ok((declared(name, ty, line), rest));
    };
    let ty = pointer(alloc, ty)?;
    Ok((declared(name, ty, line), rest))
}

#[tactic(auto, unfolding(crate::specs::Read::param_of))]
fn param_at<'a>(
    alloc: Global,
    types: &TypeNames,
    room: u32,
    tokens: &'a [Token],
) -> Read<'a, VarDecl>
    ensures { Gives view_var result (spec.param_of types.now (cond_at types.now) room tokens.now) }
{
    let (base, rest) = type_at(alloc, types, tokens)?;
    let (ty, rest) = stars_at(alloc, true, base, rest)?;
    let (name, rest) = new_name_at(alloc, types, rest)?;
    let Some((_, after)) = punct_at(Punct::OpenBracket, rest) else {
        let (name, line) = name;
        return Ok((declared(name, ty, line), rest));
    };
    bracketed(alloc, types, room, name, ty, after)
}

// A parameter, with the line of its first token.
#[tactic(auto, unfolding(crate::specs::Read::param_on_of))]
fn param_on<'a>(
    alloc: Global,
    types: &TypeNames,
    room: u32,
    tokens: &'a [Token],
) -> Read<'a, (VarDecl, Line)>
    ensures { Gives view_param result (spec.param_on_of types.now (cond_at types.now) room tokens.now) }
{
    let line = first_line(tokens);
    let (var, rest) = param_at(alloc, types, room, tokens)?;
    Ok(((var, line), rest))
}

// The parameters so far, and those that come after a comma.
fn more_params<'a>(
    alloc: Global,
    types: &TypeNames,
    room: u32,
    first: List<(VarDecl, Line)>,
    tokens: &'a [Token],
) -> Read<'a, List<(VarDecl, Line)>>
    ensures { Gives (map view_param) result (with_items (map view_param first) (more_separated (spec.param_on_of types.now (cond_at types.now) room) (length tokens.now) tokens.now)) }
{
    let mut params = first;
    let mut rest = tokens;
    for turn in 0..tokens.len() {
        let Some((_, after)) = punct_at(Punct::Comma, rest) else {
            return Ok((params, rest));
        };
        let (param, after) = param_on(alloc, types, room, after)?;
        params.push(param)?;
        rest = after;
    }
    Ok((params, rest))
}

// Parameters between commas.
#[tactic(auto, using(c_grammar::proofs::Turns::one_more), unfolding(c_grammar::specs::ListReaders::separated_at))]
fn some_params<'a>(
    alloc: Global,
    types: &TypeNames,
    room: u32,
    tokens: &'a [Token],
) -> Read<'a, List<(VarDecl, Line)>>
    ensures { Gives (map view_param) result (separated_at (spec.param_on_of types.now (cond_at types.now) room) tokens.now) }
{
    let (param, rest) = param_on(alloc, types, room, tokens)?;
    let mut params = List::new(alloc);
    params.push(param)?;
    more_params(alloc, types, room, params, rest)
}

#[tactic(auto, unfolding(crate::specs::Read::at_close))]
fn at_close(tokens: &[Token]) -> bool
    ensures { result ≡ spec.at_close tokens.now }
{
    match tokens.split_first() {
        Some((first, _)) => matches!(&first.kind, TokenKind::Punct(Punct::CloseParen)),
        None => false,
    }
}

// What comes behind `void`, where it stands alone.
fn no_params(tokens: &[Token]) -> Option<&[Token]>
    ensures { FindsRest result (spec.no_params (tokens_spec.word_at w.Void tokens.now)) }
{
    let (_, rest) = word_at(Word::Void, tokens)?;
    if at_close(rest) {
        return Some(rest);
    }
    None
}

/// The parameters of a function, each with its line, up to the parenthesis that closes them.
#[tactic(auto, unfolding(crate::specs::Read::params_at, crate::specs::Read::params_of))]
pub fn params_at<'a>(
    alloc: Global,
    types: &TypeNames,
    room: u32,
    tokens: &'a [Token],
) -> Read<'a, List<(VarDecl, Line)>>
    ensures { Gives (map view_param) result (spec.params_at types.now room tokens.now) }
{
    if at_close(tokens) {
        return Ok((List::new(alloc), tokens));
    }
    match no_params(tokens) {
        Some(rest) => Ok((List::new(alloc), rest)),
        None => some_params(alloc, types, room, tokens),
    }
}

/// The tokens behind `extern` or `static`, if one comes first.
#[tactic(auto, unfolding(crate::specs::Read::linkage_at))]
pub fn linkage_at(tokens: &[Token]) -> &[Token]
    ensures { result.now ≡ spec.linkage_at tokens.now }
{
    let Some((first, rest)) = tokens.split_first() else {
        return tokens;
    };
    match first.kind {
        TokenKind::Word(Word::Extern) => rest,
        TokenKind::Word(Word::Static) => rest,
        _ => tokens,
    }
}
