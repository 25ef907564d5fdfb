// What stands before the body of a quantifier or `\let` (ACSL 2.2): a part that is open at its right end.
ghost use Rattle.std.specs.Prelude.{map};
ghost use Rattle.c_syntax.specs.Pred as r;
ghost use Rattle.c_syntax.specs.View.{view_var};
ghost use Rattle.c_grammar.specs.Views.{Gives};
ghost use Rattle.parse_preds.specs.Parts as part;
ghost use Rattle.parse_preds.specs.Read as spec;
ghost use Rattle.parse_preds.specs.Views.{view_value};

use crate::binders::binders_at;
use crate::parts::{Frame, Part, opened};
use c_grammar::{Read, TypeNames, expect, new_name_at};
use c_syntax::{Punct, Term, Token, VarDecl};
use parse_terms::term_at;
use std::alloc::Global;
use wp_base::{Line, List, Str};

// The binders of a quantifier, and a semicolon.
fn bound_at<'a>(alloc: Global, types: &TypeNames, tokens: &'a [Token]) -> Read<'a, List<VarDecl>>
    ensures { Gives (map view_var) result (spec.bound_at types.now tokens.now) }
{
    let (binders, rest) = binders_at(alloc, types, tokens)?;
    let (_, rest) = expect(Punct::Semicolon, rest)?;
    Ok((binders, rest))
}

// The name of a `\let`, its value, and a semicolon.
fn value_at<'a>(
    alloc: Global,
    types: &TypeNames,
    room: u32,
    tokens: &'a [Token],
) -> Read<'a, (Str, Term)>
    ensures { Gives view_value result (spec.value_at types.now room tokens.now) }
{
    let ((name, _), rest) = new_name_at(alloc, types, tokens)?;
    let (_, rest) = expect(Punct::Assign, rest)?;
    let (value, rest) = term_at(alloc, types, room, rest)?;
    let (_, rest) = expect(Punct::Semicolon, rest)?;
    Ok(((name, value), rest))
}

/// What comes behind `\forall`, up to its body.
pub(crate) fn for_all<'a>(
    alloc: Global,
    types: &TypeNames,
    line: Line,
    tokens: &'a [Token],
) -> Read<'a, Part>
    ensures { Gives part.view_part result (spec.seen_as (λ xs. part.open_before (r.for_all line xs)) (spec.bound_at types.now tokens.now)) }
{
    let (binders, rest) = bound_at(alloc, types, tokens)?;
    Ok((opened(alloc, Frame::Forall(line, binders))?, rest))
}

/// What comes behind `\exists`, up to its body.
pub(crate) fn for_some<'a>(
    alloc: Global,
    types: &TypeNames,
    line: Line,
    tokens: &'a [Token],
) -> Read<'a, Part>
    ensures { Gives part.view_part result (spec.seen_as (λ xs. part.open_before (r.for_some line xs)) (spec.bound_at types.now tokens.now)) }
{
    let (binders, rest) = bound_at(alloc, types, tokens)?;
    Ok((opened(alloc, Frame::Exists(line, binders))?, rest))
}

/// What comes behind `\let`, up to its body.
pub(crate) fn let_in<'a>(
    alloc: Global,
    types: &TypeNames,
    room: u32,
    line: Line,
    tokens: &'a [Token],
) -> Read<'a, Part>
    ensures { Gives part.view_part result (spec.seen_as (λ x. part.open_before (r.let_in line x.0 x.1)) (spec.value_at types.now room tokens.now)) }
{
    let ((name, value), rest) = value_at(alloc, types, room, tokens)?;
    Ok((opened(alloc, Frame::Let(line, name, value))?, rest))
}
