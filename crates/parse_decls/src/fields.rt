// Fields of structs (C11 6.7.2.1).
ghost use Rattle.std.specs.Prelude.{◌≡◌, ◌≤◌, ◌-◌, map, length};
ghost use Rattle.c_syntax.specs.View.{view_ctype, view_var};
ghost use Rattle.c_grammar.specs.Views.{Gives};
ghost use Rattle.c_grammar.specs.ListReaders.{with_items, more_separated, separated_at};
ghost use Rattle.parse_exprs.specs.Read.{cond_at};
ghost use Rattle.parse_decls.specs.Read as spec;

use crate::declarators::another_declarator;
use c_grammar::{Fault, Read, TypeNames, expect, punct_at};
use c_syntax::{CType, Punct, Token, TokenKind, VarDecl};
use parse_types::type_at;
use std::alloc::Global;
use wp_base::List;

// The names so far, and those that come after a comma.
fn more_declarators<'a>(
    alloc: Global,
    types: &TypeNames,
    room: u32,
    base: &CType,
    first: List<VarDecl>,
    tokens: &'a [Token],
) -> Read<'a, List<VarDecl>>
    ensures { Gives (map view_var) result (with_items (map view_var first) (more_separated (spec.declarator_at types.now room (view_ctype base.now)) (length tokens.now) tokens.now)) }
{
    let mut vars = first;
    let mut rest = tokens;
    for turn in 0..tokens.len() {
        let Some((_, after)) = punct_at(Punct::Comma, rest) else {
            return Ok((vars, rest));
        };
        let (var, after) = another_declarator(alloc, types, room, base, after)?;
        vars.push(var)?;
        rest = after;
    }
    Ok((vars, rest))
}

// The names so far, and those of a type, between commas.
#[tactic(auto, using(c_grammar::proofs::Turns::items_first, crate::proofs::Reading::items_are))]
fn some_declarators<'a>(
    alloc: Global,
    types: &TypeNames,
    room: u32,
    base: &CType,
    first: List<VarDecl>,
    tokens: &'a [Token],
) -> Read<'a, List<VarDecl>>
    ensures { Gives (map view_var) result (with_items (map view_var first) (separated_at (spec.declarator_at types.now room (view_ctype base.now)) tokens.now)) }
{
    let (var, rest) = another_declarator(alloc, types, room, base, tokens)?;
    let mut vars = first;
    vars.push(var)?;
    more_declarators(alloc, types, room, base, vars, rest)
}

// The names so far, and those of a declaration.
#[tactic(auto, using(crate::proofs::Reading::group_is))]
fn group_at<'a>(
    alloc: Global,
    types: &TypeNames,
    room: u32,
    first: List<VarDecl>,
    tokens: &'a [Token],
) -> Read<'a, List<VarDecl>>
    ensures { Gives (map view_var) result (with_items (map view_var first) (spec.group_of types.now (cond_at types.now) room tokens.now)) }
{
    let (base, rest) = type_at(alloc, types, tokens)?;
    let (vars, rest) = some_declarators(alloc, types, room, &base, first, rest)?;
    let (_, rest) = expect(Punct::Semicolon, rest)?;
    Ok((vars, rest))
}

/// Whether a closing brace comes next.
#[tactic(auto, unfolding(crate::specs::Read::at_brace))]
pub fn at_brace(tokens: &[Token]) -> bool
    ensures { result ≡ spec.at_brace tokens.now }
{
    match tokens.split_first() {
        Some((first, _)) => matches!(&first.kind, TokenKind::Punct(Punct::CloseBrace)),
        None => false,
    }
}

/// The fields of a struct, up to the brace that closes them.
pub fn fields_at<'a>(
    alloc: Global,
    types: &TypeNames,
    room: u32,
    tokens: &'a [Token],
) -> Read<'a, List<VarDecl>>
    ensures { Gives (map view_var) result (spec.fields_at types.now room tokens.now) }
{
    let mut fields = List::new(alloc);
    let mut rest = tokens;
    for turn in 0..tokens.len() {
        let (more, after) = group_at(alloc, types, room, fields, rest)?;
        if at_brace(after) {
            return Ok((more, after));
        }
        fields = more;
        rest = after;
    }
    Err(Fault::Syntax)
}
