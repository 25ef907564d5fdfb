// Operands of terms: prefix operators, casts, parts of a term, and what stands in parentheses (ACSL 2.2).
ghost use Rattle.std.specs.Prelude.{◌≡◌, length, map};
ghost use Rattle.c_grammar.specs.Terms.{inside_of};
ghost use Rattle.c_grammar.specs.Views.{Gives};
ghost use Rattle.c_syntax.specs.View.{view_term};
ghost use Rattle.parse_terms.specs.Read as spec;
ghost use Rattle.parse_terms.specs.Views.{view_place};

use crate::nodes;
use crate::place::Place;
use crate::tokens::{Selector, cast_at, prefix_at, range_at, selector_at};
use crate::wholes::{inner_term, spread_term, term, terms};
use c_grammar::{Fault, Read, TypeNames, expect, is_type, name_at, punct_at};
use c_syntax::{Punct, Term, TermNode, Token, TokenKind, UnOp, Word};
use parse_types::type_name_at;
use std::alloc::Global;
use wp_base::{Line, List, Str};

// An operand in a form that opens here.
#[cycle(terms)]
#[tactic(auto, using(crate::proofs::Reading::inner_none, crate::proofs::Reading::inner_some))]
fn inner_operand<'a>(
    alloc: Global,
    types: &TypeNames,
    place: Place,
    room: u32,
    tokens: &'a [Token],
) -> Read<'a, Term>
    ensures { Gives view_term result (spec.inner types.now room spec.operands (view_place place) tokens.now) }
{
    if room == 0 {
        return Err(Fault::Syntax);
    }
    operand(alloc, types, place, room - 1, tokens)
}

// What parentheses that open here enclose.
#[cycle(terms)]
#[tactic(auto, using(crate::proofs::Reading::inner_none, crate::proofs::Reading::inner_some, crate::proofs::Reading::group_is))]
fn inner_group<'a>(
    alloc: Global,
    types: &TypeNames,
    place: Place,
    room: u32,
    tokens: &'a [Token],
) -> Read<'a, Term>
    ensures { Gives view_term result (spec.inner types.now room spec.groups (view_place place) tokens.now) }
{
    if room == 0 {
        return Err(Fault::Syntax);
    }
    match place {
        Place::Anywhere | Place::InChain => term(alloc, types, place, room - 1, tokens),
        Place::InSet => spread_term(alloc, types, place, room - 1, tokens),
    }
}

/// An operand: prefix operators and casts before a part of a term.
#[cycle(terms)]
#[tactic(auto, using(crate::proofs::Reading::operand_is))]
pub(crate) fn operand<'a>(
    alloc: Global,
    types: &TypeNames,
    place: Place,
    room: u32,
    tokens: &'a [Token],
) -> Read<'a, Term>
    ensures { Gives view_term result (spec.read types.now room spec.operands (view_place place) tokens.now) }
{
    if let Some(((op, line), rest)) = prefix_at(place, tokens) {
        return prefixed(alloc, types, place, room, op, line, rest);
    }
    match cast_at(types, tokens) {
        Some((line, rest)) => cast(alloc, types, place, room, line, rest),
        None => postfix(alloc, types, place, room, tokens),
    }
}

#[cycle(terms)]
fn prefixed<'a>(
    alloc: Global,
    types: &TypeNames,
    place: Place,
    room: u32,
    op: UnOp,
    line: Line,
    tokens: &'a [Token],
) -> Read<'a, Term>
    ensures { Gives view_term result (spec.prefixed (spec.inner types.now room spec.operands (view_place place)) op line tokens.now) }
{
    let (of, rest) = inner_operand(alloc, types, place, room, tokens)?;
    let unary = nodes::unary(alloc, op, line, of)?;
    Ok((unary, rest))
}

// What comes after the parenthesis of a cast.
#[cycle(terms)]
fn cast<'a>(
    alloc: Global,
    types: &TypeNames,
    place: Place,
    room: u32,
    line: Line,
    tokens: &'a [Token],
) -> Read<'a, Term>
    ensures { Gives view_term result (spec.cast types.now (spec.inner types.now room spec.operands (view_place place)) line tokens.now) }
{
    let (ty, rest) = type_name_at(alloc, types, tokens)?;
    let (_, rest) = expect(Punct::CloseParen, rest)?;
    let (of, rest) = inner_operand(alloc, types, place, room, rest)?;
    let cast = nodes::cast(alloc, line, ty, of)?;
    Ok((cast, rest))
}

// An indexed term, or a field of one, and so on.
#[cycle(terms)]
#[tactic(auto, using(crate::proofs::Reading::postfix_is))]
fn postfix<'a>(
    alloc: Global,
    types: &TypeNames,
    place: Place,
    room: u32,
    tokens: &'a [Token],
) -> Read<'a, Term>
    ensures { Gives view_term result (spec.postfix types.now (view_place place) (spec.inner_args types.now room (inside_of (view_place place))) (spec.inner types.now room spec.wholes (inside_of (view_place place))) (spec.inner types.now room spec.groups (inside_of (view_place place))) tokens.now) }
{
    let (first, rest) = primary(alloc, types, place, room, tokens)?;
    parts(alloc, types, place, room, first, rest)
}

// Parts of a term, and of these.
#[cycle(terms)]
#[tactic(auto, using(crate::proofs::Reading::parts_end, crate::proofs::Reading::parts_stop))]
fn parts<'a>(
    alloc: Global,
    types: &TypeNames,
    place: Place,
    room: u32,
    first: Term,
    tokens: &'a [Token],
) -> Read<'a, Term>
    ensures { Gives view_term result (spec.parts (view_place place) (spec.inner types.now room spec.wholes (inside_of (view_place place))) (length tokens.now) (view_term first) tokens.now) }
{
    let mut part = first;
    let mut rest = tokens;
    for turn in 0..tokens.len() {
        let Some(((selector, line), after)) = selector_at(rest) else {
            return Ok((part, rest));
        };
        let (next, after) = selected(alloc, types, place, room, selector, line, part, after)?;
        part = next;
        rest = after;
    }
    Ok((part, rest))
}

#[cycle(terms)]
fn selected<'a>(
    alloc: Global,
    types: &TypeNames,
    place: Place,
    room: u32,
    selector: Selector,
    line: Line,
    base: Term,
    tokens: &'a [Token],
) -> Read<'a, Term>
    ensures { Gives view_term result (spec.selected (view_place place) (spec.inner types.now room spec.wholes (inside_of (view_place place))) selector line (view_term base) tokens.now) }
{
    match selector {
        Selector::Index => {
            let (at, rest) = offset(alloc, types, place, room, tokens)?;
            let (_, rest) = expect(Punct::CloseBracket, rest)?;
            Ok((nodes::index(alloc, line, base, at)?, rest))
        }
        Selector::Dot => field(alloc, line, base, false, tokens),
        Selector::Arrow => field(alloc, line, base, true, tokens),
    }
}

fn field(alloc: Global, line: Line, base: Term, arrow: bool, tokens: &[Token]) -> Read<'_, Term>
    ensures { Gives view_term result (spec.field_at arrow line (view_term base) tokens.now) }
{
    let ((name, _), rest) = name_at(alloc, tokens)?;
    let field = nodes::field(alloc, line, base, name, arrow)?;
    Ok((field, rest))
}

// What stands in square brackets: a term, or in a set a range.
#[cycle(terms)]
fn offset<'a>(
    alloc: Global,
    types: &TypeNames,
    place: Place,
    room: u32,
    tokens: &'a [Token],
) -> Read<'a, Term>
    ensures { Gives view_term result (spec.offset_at (view_place place) (spec.inner types.now room spec.wholes (inside_of (view_place place))) tokens.now) }
{
    let (low, rest) = inner_term(alloc, types, place.inside(), room, tokens)?;
    let Some((line, rest)) = range_at(place, rest) else {
        return Ok((low, rest));
    };
    let (high, rest) = inner_term(alloc, types, place.inside(), room, rest)?;
    let range = nodes::range(alloc, line, low, high)?;
    Ok((range, rest))
}

// A constant, a name, a call, `\result`, `\null`, `\old`, `\at`, or what stands in parentheses.
#[cycle(terms)]
#[tactic(auto, unfolding(crate::specs::Read::primary), using(c_syntax::proofs::Equations::term_laws))]
fn primary<'a>(
    alloc: Global,
    types: &TypeNames,
    place: Place,
    room: u32,
    tokens: &'a [Token],
) -> Read<'a, Term>
    ensures { Gives view_term result (spec.primary types.now (spec.inner_args types.now room (inside_of (view_place place))) (spec.inner types.now room spec.wholes (inside_of (view_place place))) (spec.inner types.now room spec.groups (inside_of (view_place place))) tokens.now) }
{
    let Some((first, rest)) = tokens.split_first() else {
        return Err(Fault::Syntax);
    };
    let line = first.line;
    match &first.kind {
        TokenKind::Number { .. } => {
            let node = TermNode::Number(first.copy(alloc)?);
            Ok((Term { node, line }, rest))
        }
        TokenKind::Char(value) => {
            let node = TermNode::Char(*value);
            Ok((Term { node, line }, rest))
        }
        TokenKind::Name(name) => named(alloc, types, place, room, name, line, rest),
        TokenKind::Word(word) => worded(alloc, types, place, room, *word, line, rest),
        TokenKind::Punct(Punct::OpenParen) => {
            let (inside, rest) = inner_group(alloc, types, place.inside(), room, rest)?;
            let (_, rest) = expect(Punct::CloseParen, rest)?;
            Ok((inside, rest))
        }
        _ => Err(Fault::Syntax),
    }
}

// What comes after a name.
#[cycle(terms)]
#[tactic(auto, using(c_syntax::proofs::Equations::term_laws))]
fn named<'a>(
    alloc: Global,
    types: &TypeNames,
    place: Place,
    room: u32,
    name: &Str,
    line: Line,
    tokens: &'a [Token],
) -> Read<'a, Term>
    ensures { Gives view_term result (spec.named types.now name.now line (spec.inner_args types.now room (inside_of (view_place place))) tokens.now) }
{
    if is_type(types, name) {
        return Err(Fault::Syntax);
    }
    let Some((_, rest)) = punct_at(Punct::OpenParen, tokens) else {
        let node = TermNode::Name(name.copy(alloc)?);
        return Ok((Term { node, line }, tokens));
    };
    let (args, rest) = args(alloc, types, place.inside(), room, rest)?;
    Ok((nodes::call(line, name.copy(alloc)?, args), rest))
}

// The arguments of a call, behind the parenthesis that opens them.
#[cycle(terms)]
#[tactic(auto, using(crate::proofs::Reading::args_none, crate::proofs::Reading::args_some))]
fn args<'a>(
    alloc: Global,
    types: &TypeNames,
    place: Place,
    room: u32,
    tokens: &'a [Token],
) -> Read<'a, List<Term>>
    ensures { Gives (map view_term) result (spec.inner_args types.now room (view_place place) tokens.now) }
{
    if room == 0 {
        return Err(Fault::Syntax);
    }
    if let Some((_, rest)) = punct_at(Punct::CloseParen, tokens) {
        return Ok((List::new(alloc), rest));
    }
    let (args, rest) = terms(alloc, types, place, room - 1, tokens)?;
    let (_, rest) = expect(Punct::CloseParen, rest)?;
    Ok((args, rest))
}

// What comes after a word.
#[cycle(terms)]
#[tactic(auto, using(c_syntax::proofs::Equations::term_laws))]
fn worded<'a>(
    alloc: Global,
    types: &TypeNames,
    place: Place,
    room: u32,
    word: Word,
    line: Line,
    tokens: &'a [Token],
) -> Read<'a, Term>
    ensures { Gives view_term result (spec.worded word line (spec.inner types.now room spec.wholes (inside_of (view_place place))) tokens.now) }
{
    match word {
        Word::Result => Ok((
            Term {
                node: TermNode::Result,
                line,
            },
            tokens,
        )),
        Word::Null => Ok((
            Term {
                node: TermNode::Null,
                line,
            },
            tokens,
        )),
        Word::Old => old(alloc, types, place, room, line, tokens),
        Word::At => at_label(alloc, types, place, room, line, tokens),
        _ => Err(Fault::Syntax),
    }
}

// What comes after `\old`.
#[cycle(terms)]
fn old<'a>(
    alloc: Global,
    types: &TypeNames,
    place: Place,
    room: u32,
    line: Line,
    tokens: &'a [Token],
) -> Read<'a, Term>
    ensures { Gives view_term result (spec.old_at line (spec.inner types.now room spec.wholes (inside_of (view_place place))) tokens.now) }
{
    let (_, rest) = expect(Punct::OpenParen, tokens)?;
    let (of, rest) = inner_term(alloc, types, place.inside(), room, rest)?;
    let (_, rest) = expect(Punct::CloseParen, rest)?;
    let old = nodes::old(alloc, line, of)?;
    Ok((old, rest))
}

// What comes after `\at`.
#[cycle(terms)]
fn at_label<'a>(
    alloc: Global,
    types: &TypeNames,
    place: Place,
    room: u32,
    line: Line,
    tokens: &'a [Token],
) -> Read<'a, Term>
    ensures { Gives view_term result (spec.label_at line (spec.inner types.now room spec.wholes (inside_of (view_place place))) tokens.now) }
{
    let (_, rest) = expect(Punct::OpenParen, tokens)?;
    let (of, rest) = inner_term(alloc, types, place.inside(), room, rest)?;
    let (_, rest) = expect(Punct::Comma, rest)?;
    let ((label, _), rest) = name_at(alloc, rest)?;
    let (_, rest) = expect(Punct::CloseParen, rest)?;
    let at_label = nodes::at_label(alloc, line, of, label)?;
    Ok((at_label, rest))
}
