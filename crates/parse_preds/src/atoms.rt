// Predicates that are closed by themselves, with terms in them (ACSL 2.2, 2.6.1, 2.7.1).
ghost use Rattle.std.specs.Prelude.{◌≡◌, ◌≤◌, [], ◌∷◌, length, map, IfOk};
ghost use Rattle.c_syntax.specs.Pred as r;
ghost use Rattle.c_syntax.specs.View.{view_pred, view_term};
ghost use Rattle.c_grammar.specs.Views.{Gives};
ghost use Rattle.parse_terms.specs.Read.{pointer_at as pointer_of, some_terms_at as some_terms_of};
ghost use Rattle.parse_preds.specs.Read as spec;

use c_grammar::{Fault, Read, TypeNames, expect, is_type, punct_at};
use c_syntax::{Pred, PredNode, Punct, Term, Token};
use parse_terms::{pointer_at, some_terms_at};
use std::alloc::Global;
use wp_base::{Boxed, Line, List, NoMemory, Str};

// A pointer in parentheses.
fn pointer_in<'a>(
    alloc: Global,
    types: &TypeNames,
    room: u32,
    tokens: &'a [Token],
) -> Read<'a, Term>
    ensures { Gives view_term result (spec.bracketed (spec.under (pointer_of types.now) room) tokens.now) }
{
    let (_, rest) = expect(Punct::OpenParen, tokens)?;
    if room == 0 {
        return Err(Fault::Syntax);
    }
    let (pointer, rest) = pointer_at(alloc, types, room - 1, rest)?;
    let (_, rest) = expect(Punct::CloseParen, rest)?;
    Ok((pointer, rest))
}

#[tactic(auto, using(c_syntax::proofs::Equations::pred_laws))]
fn valid(alloc: Global, line: Line, pointer: Term) -> Result<Pred, NoMemory>
    ensures { IfOk result (λ p. view_pred p ≡ r.valid line (view_term pointer)) }
{
    let node = PredNode::Valid(Boxed::new(alloc, pointer)?);
    Ok(Pred { node, line })
}

#[tactic(auto, using(c_syntax::proofs::Equations::pred_laws))]
fn valid_read(alloc: Global, line: Line, pointer: Term) -> Result<Pred, NoMemory>
    ensures { IfOk result (λ p. view_pred p ≡ r.valid_read line (view_term pointer)) }
{
    let node = PredNode::ValidRead(Boxed::new(alloc, pointer)?);
    Ok(Pred { node, line })
}

/// What comes behind `\valid`.
pub fn valid_at<'a>(
    alloc: Global,
    types: &TypeNames,
    room: u32,
    line: Line,
    tokens: &'a [Token],
) -> Read<'a, Pred>
    ensures { Gives view_pred result (spec.seen_as (r.valid line) (spec.bracketed (spec.under (pointer_of types.now) room) tokens.now)) }
{
    let (pointer, rest) = pointer_in(alloc, types, room, tokens)?;
    Ok((valid(alloc, line, pointer)?, rest))
}

/// What comes behind `\valid_read`.
pub fn valid_read_at<'a>(
    alloc: Global,
    types: &TypeNames,
    room: u32,
    line: Line,
    tokens: &'a [Token],
) -> Read<'a, Pred>
    ensures { Gives view_pred result (spec.seen_as (r.valid_read line) (spec.bracketed (spec.under (pointer_of types.now) room) tokens.now)) }
{
    let (pointer, rest) = pointer_in(alloc, types, room, tokens)?;
    Ok((valid_read(alloc, line, pointer)?, rest))
}

// More pointers behind two, each behind a comma.
#[tactic(auto, using(c_grammar::proofs::Turns::items_end, c_grammar::proofs::Turns::items_stop))]
fn more_pointers<'a>(
    alloc: Global,
    types: &TypeNames,
    room: u32,
    first: Term,
    second: Term,
    tokens: &'a [Token],
) -> Read<'a, List<Term>>
    ensures { Gives (map view_term) result (spec.pointers_from types.now room (view_term first) (view_term second) tokens.now) }
{
    let mut pointers = List::new(alloc);
    pointers.push(first)?;
    pointers.push(second)?;
    let mut rest = tokens;
    for turn in 0..tokens.len() {
        let Some((_, after)) = punct_at(Punct::Comma, rest) else {
            return Ok((pointers, rest));
        };
        let (next, after) = pointer_at(alloc, types, room, after)?;
        pointers.push(next)?;
        rest = after;
    }
    Ok((pointers, rest))
}

// Two or more pointers.
#[tactic(auto, unfolding(crate::specs::Read::pointers_at))]
fn pointers_at<'a>(
    alloc: Global,
    types: &TypeNames,
    room: u32,
    tokens: &'a [Token],
) -> Read<'a, List<Term>>
    ensures { Gives (map view_term) result (spec.pointers_at types.now room tokens.now) }
{
    let (first, rest) = pointer_at(alloc, types, room, tokens)?;
    let (_, rest) = expect(Punct::Comma, rest)?;
    let (second, rest) = pointer_at(alloc, types, room, rest)?;
    more_pointers(alloc, types, room, first, second, rest)
}

/// What comes behind `\separated`.
#[tactic(auto, using(c_syntax::proofs::Equations::pred_laws))]
pub fn separated_at<'a>(
    alloc: Global,
    types: &TypeNames,
    room: u32,
    line: Line,
    tokens: &'a [Token],
) -> Read<'a, Pred>
    ensures { Gives view_pred result (spec.seen_as (r.separated line) (spec.bracketed (spec.under (spec.pointers_at types.now) room) tokens.now)) }
{
    let (_, rest) = expect(Punct::OpenParen, tokens)?;
    if room == 0 {
        return Err(Fault::Syntax);
    }
    let (pointers, rest) = pointers_at(alloc, types, room - 1, rest)?;
    let (_, rest) = expect(Punct::CloseParen, rest)?;
    let node = PredNode::Separated(pointers);
    Ok((Pred { node, line }, rest))
}

// The arguments of a predicate, behind the opening parenthesis.
fn arguments<'a>(
    alloc: Global,
    types: &TypeNames,
    room: u32,
    tokens: &'a [Token],
) -> Read<'a, List<Term>>
    ensures { Gives (map view_term) result (spec.enclosed (spec.under (some_terms_of types.now) room) tokens.now) }
{
    if room == 0 {
        return Err(Fault::Syntax);
    }
    let (args, rest) = some_terms_at(alloc, types, room - 1, tokens)?;
    let (_, rest) = expect(Punct::CloseParen, rest)?;
    Ok((args, rest))
}

/// A name of a predicate, which stands before these tokens, and its arguments.
#[tactic(auto, using(c_syntax::proofs::Equations::pred_laws))]
pub fn named_at<'a>(
    alloc: Global,
    types: &TypeNames,
    room: u32,
    name: &Str,
    line: Line,
    tokens: &'a [Token],
) -> Read<'a, Pred>
    ensures { Gives view_pred result (spec.named types.now room name.now line tokens.now) }
{
    if is_type(types, name) {
        return Err(Fault::Syntax);
    }
    let name = name.copy(alloc)?;
    let Some((_, rest)) = punct_at(Punct::OpenParen, tokens) else {
        let node = PredNode::Call(name, List::new(alloc));
        return Ok((Pred { node, line }, tokens));
    };
    let (args, rest) = arguments(alloc, types, room, rest)?;
    let node = PredNode::Call(name, args);
    Ok((Pred { node, line }, rest))
}
