// Declarators and variables (C11 6.7, 6.7.6, 6.7.9).
ghost use Rattle.std.specs.Prelude.{◌≡◌, ◌≤◌, ◌-◌, IfOk, map, length};
ghost use Rattle.c_syntax.specs.View.{view_ctype, view_expr, view_var};
ghost use Rattle.c_syntax.specs.Expr as e;
ghost use Rattle.c_grammar.specs.Declarators.{declared as declared_as, with_init as var_with_init};
ghost use Rattle.c_grammar.specs.Views.{Gives};
ghost use Rattle.c_grammar.specs.ListReaders.{with_items, more_separated, separated_at};
ghost use Rattle.parse_exprs.specs.Read.{cond_at, expr_at};
ghost use Rattle.parse_decls.specs.Read as spec;

use c_grammar::{Fault, Read, TypeNames, expect, new_name_at, punct_at};
use c_syntax::{CType, Expr, Punct, Token, VarDecl};
use parse_exprs::{cond_at, expr_at};
use parse_types::{stars_at, type_at};
use std::alloc::Global;
use wp_base::{Line, List, NoMemory, Str, box_both};

/// A declared name, without a value.
pub fn declared(name: Str, ty: CType, line: Line) -> VarDecl
    ensures { view_var result ≡ declared_as name (view_ctype ty) line }
{
    VarDecl {
        name,
        ty,
        init: None,
        line,
    }
}

/// The same name, with a value.
pub fn with_init(var: VarDecl, value: Expr) -> VarDecl
    ensures { view_var result ≡ var_with_init (view_var var) (view_expr value) }
{
    VarDecl {
        name: var.name,
        ty: var.ty,
        init: Some(value),
        line: var.line,
    }
}

/// So many elements of a type.
#[tactic(auto, using(crate::proofs::Reading::views))]
pub fn array(alloc: Global, of: CType, length: Expr) -> Result<CType, NoMemory>
    ensures { IfOk result (λ x. view_ctype x ≡ e.array (view_ctype of) (view_expr length)) }
{
    let (of, length) = box_both(alloc, of, length)?;
    Ok(CType::Array(of, length))
}

/// What stands behind an opening bracket, up to the one that closes it.
#[tactic(auto, unfolding(crate::specs::Read::length_of))]
pub fn length_at<'a>(
    alloc: Global,
    types: &TypeNames,
    room: u32,
    tokens: &'a [Token],
) -> Read<'a, Expr>
    ensures { Gives view_expr result (spec.length_of (cond_at types.now) room tokens.now) }
{
    if room == 0 {
        return Err(Fault::Syntax);
    }
    let (length, rest) = cond_at(alloc, types, room - 1, tokens)?;
    let (_, rest) = expect(Punct::CloseBracket, rest)?;
    Ok((length, rest))
}

/// A declarator, from the type that the specifiers give.
#[tactic(auto, unfolding(crate::specs::Read::declarator_at, crate::specs::Read::declarator_of))]
pub fn declarator_at<'a>(
    alloc: Global,
    types: &TypeNames,
    room: u32,
    base: CType,
    tokens: &'a [Token],
) -> Read<'a, VarDecl>
    ensures { Gives view_var result (spec.declarator_at types.now room (view_ctype base) tokens.now) }
{
    let (ty, rest) = stars_at(alloc, true, base, tokens)?;
    let ((name, line), rest) = new_name_at(alloc, types, rest)?;
    let Some((_, after)) = punct_at(Punct::OpenBracket, rest) else {
        return Ok((declared(name, ty, line), rest));
    };
    let (length, after) = length_at(alloc, types, room, after)?;
    let ty = array(alloc, ty, length)?;
    Ok((declared(name, ty, line), after))
}

/// A declarator, from a type that more of them share.
pub fn another_declarator<'a>(
    alloc: Global,
    types: &TypeNames,
    room: u32,
    base: &CType,
    tokens: &'a [Token],
) -> Read<'a, VarDecl>
    ensures { Gives view_var result (spec.declarator_at types.now room (view_ctype base.now) tokens.now) }
{
    let copy = base.copy(alloc)?;
    declarator_at(alloc, types, room, copy, tokens)
}

// A declarator, with a value if one is given.
#[tactic(auto, unfolding(crate::specs::Read::declarator_at, crate::specs::Read::initialised_of))]
fn initialised_at<'a>(
    alloc: Global,
    types: &TypeNames,
    room: u32,
    base: &CType,
    tokens: &'a [Token],
) -> Read<'a, VarDecl>
    ensures { Gives view_var result (spec.initialised_of types.now (cond_at types.now) (expr_at types.now) room (view_ctype base.now) tokens.now) }
{
    let (var, rest) = another_declarator(alloc, types, room, base, tokens)?;
    let Some((_, after)) = punct_at(Punct::Assign, rest) else {
        return Ok((var, rest));
    };
    let (value, after) = expr_at(alloc, types, room, after)?;
    Ok((with_init(var, value), after))
}

// The variables so far, and those that come after a comma.
fn more_variables<'a>(
    alloc: Global,
    types: &TypeNames,
    room: u32,
    base: &CType,
    first: List<VarDecl>,
    tokens: &'a [Token],
) -> Read<'a, List<VarDecl>>
    ensures { Gives (map view_var) result (with_items (map view_var first) (more_separated (spec.initialised_of types.now (cond_at types.now) (expr_at types.now) room (view_ctype base.now)) (length tokens.now) tokens.now)) }
{
    let mut vars = first;
    let mut rest = tokens;
    for turn in 0..tokens.len() {
        let Some((_, after)) = punct_at(Punct::Comma, rest) else {
            return Ok((vars, rest));
        };
        let (var, after) = initialised_at(alloc, types, room, base, after)?;
        vars.push(var)?;
        rest = after;
    }
    Ok((vars, rest))
}

// Variables between commas.
#[tactic(auto, using(c_grammar::proofs::Turns::one_more), unfolding(c_grammar::specs::ListReaders::separated_at))]
fn some_variables<'a>(
    alloc: Global,
    types: &TypeNames,
    room: u32,
    base: &CType,
    tokens: &'a [Token],
) -> Read<'a, List<VarDecl>>
    ensures { Gives (map view_var) result (separated_at (spec.initialised_of types.now (cond_at types.now) (expr_at types.now) room (view_ctype base.now)) tokens.now) }
{
    let (var, rest) = initialised_at(alloc, types, room, base, tokens)?;
    let mut vars = List::new(alloc);
    vars.push(var)?;
    more_variables(alloc, types, room, base, vars, rest)
}

/// The variables behind a type, and their semicolon.
#[tactic(auto, unfolding(crate::specs::Read::variables_after, crate::specs::Read::variables_after_of))]
pub fn variables_after<'a>(
    alloc: Global,
    types: &TypeNames,
    room: u32,
    base: &CType,
    tokens: &'a [Token],
) -> Read<'a, List<VarDecl>>
    ensures { Gives (map view_var) result (spec.variables_after types.now room (view_ctype base.now) tokens.now) }
{
    let (vars, rest) = some_variables(alloc, types, room, base, tokens)?;
    let (_, rest) = expect(Punct::Semicolon, rest)?;
    Ok((vars, rest))
}

/// A type, variables of it, and their semicolon.
#[tactic(auto, unfolding(crate::specs::Read::variables_after, crate::specs::Read::variables_at, crate::specs::Read::variables_of))]
pub fn variables_at<'a>(
    alloc: Global,
    types: &TypeNames,
    room: u32,
    tokens: &'a [Token],
) -> Read<'a, List<VarDecl>>
    ensures { Gives (map view_var) result (spec.variables_at types.now room tokens.now) }
{
    let (base, rest) = type_at(alloc, types, tokens)?;
    variables_after(alloc, types, room, &base, rest)
}
