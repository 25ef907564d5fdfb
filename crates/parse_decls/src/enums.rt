// Enumerators (C11 6.7.2.2).
ghost use Rattle.std.specs.Prelude.{◌≡◌, ◌≤◌, ◌-◌, map, length};
ghost use Rattle.c_syntax.specs.View.{view_ctype, view_var};
ghost use Rattle.c_grammar.specs.Views.{Gives};
ghost use Rattle.c_grammar.specs.ListReaders.{with_items};
ghost use Rattle.parse_exprs.specs.Read.{cond_at};
ghost use Rattle.parse_decls.specs.Read as spec;

use crate::declarators::{declared, with_init};
use crate::fields::at_brace;
use c_grammar::{Fault, Read, TypeNames, expect, new_name_at, punct_at};
use c_syntax::{CType, Punct, Token, VarDecl};
use parse_exprs::cond_at;
use std::alloc::Global;
use wp_base::{Kind, List};

// A name, with a value if one is given.
#[tactic(auto, using(crate::proofs::Reading::views), unfolding(crate::specs::Read::enumerator_of))]
fn enumerator_at<'a>(
    alloc: Global,
    types: &TypeNames,
    room: u32,
    tokens: &'a [Token],
) -> Read<'a, VarDecl>
    ensures { Gives view_var result (spec.enumerator_of types.now (cond_at types.now) room tokens.now) }
{
    let ((name, line), rest) = new_name_at(alloc, types, tokens)?;
    let item = declared(name, CType::Kind(Kind::Int), line);
    let Some((_, after)) = punct_at(Punct::Assign, rest) else {
        return Ok((item, rest));
    };
    let (value, after) = cond_at(alloc, types, room, after)?;
    Ok((with_init(item, value), after))
}

// The enumerators so far, and those that come after a comma; the last may have one behind it.
fn more_enumerators<'a>(
    alloc: Global,
    types: &TypeNames,
    room: u32,
    first: List<VarDecl>,
    tokens: &'a [Token],
) -> Read<'a, List<VarDecl>>
    ensures { Gives (map view_var) result (with_items (map view_var first) (spec.more_enumerators (spec.enumerator_of types.now (cond_at types.now) room) (length tokens.now) tokens.now)) }
{
    let mut items = first;
    let mut rest = tokens;
    for turn in 0..tokens.len() {
        let Some((_, after)) = punct_at(Punct::Comma, rest) else {
            return Ok((items, rest));
        };
        if at_brace(after) {
            return Ok((items, after));
        }
        let (item, after) = enumerator_at(alloc, types, room, after)?;
        items.push(item)?;
        rest = after;
    }
    Ok((items, rest))
}

// Enumerators, with a comma behind the last or without.
#[tactic(auto, using(c_grammar::proofs::Turns::one_more))]
fn some_enumerators<'a>(
    alloc: Global,
    types: &TypeNames,
    room: u32,
    tokens: &'a [Token],
) -> Read<'a, List<VarDecl>>
    ensures { Gives (map view_var) result (spec.some_enumerators (spec.enumerator_of types.now (cond_at types.now) room) tokens.now) }
{
    let (item, rest) = enumerator_at(alloc, types, room, tokens)?;
    let mut items = List::new(alloc);
    items.push(item)?;
    more_enumerators(alloc, types, room, items, rest)
}

/// The enumerators of an `enum` between braces, and the semicolon behind them.
#[tactic(auto, unfolding(crate::specs::Read::enumerators_at, crate::specs::Read::enumerators_of, crate::specs::Read::enumerated))]
pub fn enumerators_at<'a>(
    alloc: Global,
    types: &TypeNames,
    room: u32,
    tokens: &'a [Token],
) -> Read<'a, List<VarDecl>>
    ensures { Gives (map view_var) result (spec.enumerators_at types.now room tokens.now) }
{
    let (_, rest) = expect(Punct::OpenBrace, tokens)?;
    if room == 0 {
        return Err(Fault::Syntax);
    }
    let (items, rest) = some_enumerators(alloc, types, room - 1, rest)?;
    let (_, rest) = expect(Punct::CloseBrace, rest)?;
    let (_, rest) = expect(Punct::Semicolon, rest)?;
    Ok((items, rest))
}
