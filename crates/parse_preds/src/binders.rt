// Types and names that annotations declare (ACSL 2.2, 2.6.1).
ghost use Rattle.std.specs.Prelude.{◌≡◌, map};
ghost use Rattle.c_syntax.specs.View.{view_ctype, view_var};
ghost use Rattle.c_grammar.specs.Preds.{without_integer};
ghost use Rattle.c_grammar.specs.Views.{Gives};
ghost use Rattle.c_grammar.specs.ListReaders.{with_items};
ghost use Rattle.parse_types.specs.Read.{type_name_at as type_name_of};
ghost use Rattle.parse_preds.specs.Binders as spec;

use c_grammar::{Fault, Read, TypeNames, keyword_at, new_name_at, punct_at};
use c_syntax::{CType, Punct, Token, TokenKind, VarDecl};
use parse_types::{consts_at, starts_type, type_name_at};
use std::alloc::Global;
use wp_base::List;

/// The name of the unbounded type.
const INTEGER: &[u8] = b"integer";

// The name of a type of C, where `integer` is none.
#[tactic(auto, using(crate::proofs::Binding::integer_named, crate::proofs::Binding::other_named))]
fn plain_type_at<'a>(alloc: Global, types: &TypeNames, tokens: &'a [Token]) -> Read<'a, CType>
    ensures { Gives view_ctype result (type_name_of (without_integer types.now) tokens.now) }
{
    let (_, named) = consts_at(tokens);
    match keyword_at(INTEGER, named) {
        Some(_) => Err(Fault::Syntax),
        None => type_name_at(alloc, types, tokens),
    }
}

/// A type of an annotation: `integer`, or the name of a type of C; and the tokens after it.
#[tactic(auto, using(c_syntax::proofs::Equations::expr_laws), unfolding(crate::specs::Binders::logic_type_at))]
pub fn logic_type_at<'a>(alloc: Global, types: &TypeNames, tokens: &'a [Token]) -> Read<'a, CType>
    ensures { Gives view_ctype result (spec.logic_type_at types.now tokens.now) }
{
    match keyword_at(INTEGER, tokens) {
        Some((_, rest)) => Ok((CType::Integer, rest)),
        None => plain_type_at(alloc, types, tokens),
    }
}

// A name of this type.
#[tactic(auto, unfolding(crate::specs::Binders::declared_at))]
fn declared_at<'a>(
    alloc: Global,
    types: &TypeNames,
    ty: CType,
    tokens: &'a [Token],
) -> Read<'a, VarDecl>
    ensures { Gives view_var result (spec.declared_at types.now (view_ctype ty) tokens.now) }
{
    let ((name, line), rest) = new_name_at(alloc, types, tokens)?;
    let declared = VarDecl {
        name,
        ty,
        init: None,
        line,
    };
    Ok((declared, rest))
}

/// A type and a name, and the tokens after them.
#[tactic(auto, unfolding(crate::specs::Binders::typed_at))]
pub fn typed_at<'a>(alloc: Global, types: &TypeNames, tokens: &'a [Token]) -> Read<'a, VarDecl>
    ensures { Gives view_var result (spec.typed_at types.now tokens.now) }
{
    let (ty, rest) = logic_type_at(alloc, types, tokens)?;
    declared_at(alloc, types, ty, rest)
}

// Whether a name comes next.
fn is_name(tokens: &[Token]) -> bool
    ensures { result ≡ spec.name_comes tokens.now }
{
    let Some((first, _)) = tokens.split_first() else {
        return false;
    };
    match &first.kind {
        TokenKind::Name(_) => true,
        _ => false,
    }
}

// Whether a type comes next, where a name may come in its place.
#[tactic(auto, unfolding(crate::specs::Binders::type_comes))]
fn type_comes(types: &TypeNames, tokens: &[Token]) -> bool
    ensures { result ≡ spec.type_comes types.now tokens.now }
{
    match keyword_at(INTEGER, tokens) {
        Some((_, rest)) => is_name(rest),
        None => starts_type(types, tokens),
    }
}

// A name, with a type before it or of this one.
#[tactic(auto, unfolding(crate::specs::Binders::binder_at))]
fn binder_at<'a>(
    alloc: Global,
    types: &TypeNames,
    ty: &CType,
    tokens: &'a [Token],
) -> Read<'a, VarDecl>
    ensures { Gives view_var result (spec.binder_at types.now (view_ctype ty.now) tokens.now) }
{
    if type_comes(types, tokens) {
        return typed_at(alloc, types, tokens);
    }
    declared_at(alloc, types, ty.copy(alloc)?, tokens)
}

// More names behind the first, each behind a comma.
#[tactic(auto, using(crate::proofs::Binding::more_binders_end, crate::proofs::Binding::more_binders_stop))]
fn more_binders<'a>(
    alloc: Global,
    types: &TypeNames,
    first: VarDecl,
    tokens: &'a [Token],
) -> Read<'a, List<VarDecl>>
    ensures { Gives (map view_var) result (spec.binders_from types.now (view_var first) tokens.now) }
{
    let mut ty = first.ty.copy(alloc)?;
    let mut binders = List::new(alloc);
    binders.push(first)?;
    let mut rest = tokens;
    for turn in 0..tokens.len() {
        let Some((_, after)) = punct_at(Punct::Comma, rest) else {
            return Ok((binders, rest));
        };
        let (next, after) = binder_at(alloc, types, &ty, after)?;
        ty = next.ty.copy(alloc)?;
        binders.push(next)?;
        rest = after;
    }
    Ok((binders, rest))
}

/// The binders of a quantifier: a type and names, where further types may stand before further names.
#[tactic(auto, unfolding(crate::specs::Binders::binders_at))]
pub fn binders_at<'a>(
    alloc: Global,
    types: &TypeNames,
    tokens: &'a [Token],
) -> Read<'a, List<VarDecl>>
    ensures { Gives (map view_var) result (spec.binders_at types.now tokens.now) }
{
    let (first, rest) = typed_at(alloc, types, tokens)?;
    more_binders(alloc, types, first, rest)
}
