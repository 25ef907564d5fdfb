// Predicates (ACSL 2.2): operands, connectives, implications, equivalences and conditionals.
// Functions call each other once for each form that is open. A quantifier or `\let` is none: the functions read
// parts, each up to the body of one, and `behind` reads on from part to part.
ghost use Rattle.std.specs.Prelude.{◌≤◌};
ghost use Rattle.c_syntax.specs.Pred as r;
ghost use Rattle.c_syntax.specs.View.{view_pred};
ghost use Rattle.c_syntax.specs.declared.token.Punct.TheVariants as p;
ghost use Rattle.c_grammar.specs.Reading.{punct_at as punct_of};
ghost use Rattle.c_grammar.specs.Views.{Gives};
ghost use Rattle.parse_preds.specs.Read as spec;
ghost use Rattle.parse_preds.specs.Parts as part;
ghost use Rattle.parse_preds.specs.Views.{view_arms, view_form};

use crate::atoms::{named_at, separated_at, valid_at, valid_read_at};
use crate::chains::chain_at;
use crate::next::connective_at;
use crate::openings::{for_all, for_some, let_in};
use crate::parts::{Frame, Part, all_closed, connected_part, equivalent_part};
use crate::trees::{always, either_arm, implied_by, negated, never, not_sooner};
use c_grammar::{Fault, Read, TypeNames, expect, punct_at};
use c_syntax::{Pred, Punct, Token, TokenKind, Word};
use parse_terms::begins_chain;
use std::alloc::Global;
use wp_base::{Line, List};

// What is read whole: an operand, what `==>` joins, or a whole predicate.
#[derive(Clone, Copy)]
enum Form {
    Operand,
    Implied,
    Whole,
}

// A form with one form more open than before.
#[cycle(preds)]
fn below<'a>(
    alloc: Global,
    types: &TypeNames,
    room: u32,
    turns: usize,
    form: Form,
    tokens: &'a [Token],
) -> Read<'a, Pred>
    ensures { Gives view_pred result (spec.below_at types.now room turns (view_form form) tokens.now) }
{
    if room == 0 {
        return Err(Fault::Syntax);
    }
    complete(alloc, types, room - 1, turns, form, tokens)
}

// A predicate with one form more open, and the closing parenthesis.
#[cycle(preds)]
fn enclosed<'a>(
    alloc: Global,
    types: &TypeNames,
    room: u32,
    turns: usize,
    tokens: &'a [Token],
) -> Read<'a, Pred>
    ensures { Gives view_pred result (spec.enclosed (spec.below_at types.now room turns spec.a_whole) tokens.now) }
{
    let (inside, rest) = below(alloc, types, room, turns, Form::Whole, tokens)?;
    let (_, rest) = expect(Punct::CloseParen, rest)?;
    Ok((inside, rest))
}

// What comes behind `\old`.
#[cycle(preds)]
fn old_at<'a>(
    alloc: Global,
    types: &TypeNames,
    room: u32,
    turns: usize,
    line: Line,
    tokens: &'a [Token],
) -> Read<'a, Pred>
    ensures { Gives view_pred result (spec.seen_as (r.old line) (spec.bracketed (spec.below_at types.now room turns spec.a_whole) tokens.now)) }
{
    let (_, rest) = expect(Punct::OpenParen, tokens)?;
    let (inside, rest) = enclosed(alloc, types, room, turns, rest)?;
    Ok((not_sooner(alloc, line, inside)?, rest))
}

// What is closed by itself.
#[cycle(preds)]
#[tactic(auto, using(c_syntax::proofs::Equations::pred_laws), unfolding(crate::specs::Read::atom_at))]
fn atom<'a>(
    alloc: Global,
    types: &TypeNames,
    room: u32,
    turns: usize,
    tokens: &'a [Token],
) -> Read<'a, Pred>
    ensures { Gives view_pred result (spec.atom_at types.now room (spec.below_at types.now room turns spec.a_whole) tokens.now) }
{
    if begins_chain(types, tokens) {
        return chain_at(alloc, types, room, tokens);
    }
    let Some((first, rest)) = tokens.split_first() else {
        return Err(Fault::Syntax);
    };
    let line = first.line;
    match &first.kind {
        TokenKind::Word(Word::True) => Ok((always(line), rest)),
        TokenKind::Word(Word::False) => Ok((never(line), rest)),
        TokenKind::Word(Word::Valid) => valid_at(alloc, types, room, line, rest),
        TokenKind::Word(Word::ValidRead) => valid_read_at(alloc, types, room, line, rest),
        TokenKind::Word(Word::Separated) => separated_at(alloc, types, room, line, rest),
        TokenKind::Word(Word::Old) => old_at(alloc, types, room, turns, line, rest),
        TokenKind::Name(name) => named_at(alloc, types, room, name, line, rest),
        TokenKind::Punct(Punct::OpenParen) => enclosed(alloc, types, room, turns, rest),
        _ => Err(Fault::Syntax),
    }
}

// What is closed by itself, as a part.
#[cycle(preds)]
fn atom_part<'a>(
    alloc: Global,
    types: &TypeNames,
    room: u32,
    turns: usize,
    tokens: &'a [Token],
) -> Read<'a, Part>
    ensures { Gives part.view_part result (spec.seen_as part.ended (spec.atom_at types.now room (spec.below_at types.now room turns spec.a_whole) tokens.now)) }
{
    let (found, rest) = atom(alloc, types, room, turns, tokens)?;
    Ok((Part::Closed(found), rest))
}

// What stands behind `!`, with one form more open.
#[cycle(preds)]
fn not_at<'a>(
    alloc: Global,
    types: &TypeNames,
    room: u32,
    turns: usize,
    line: Line,
    tokens: &'a [Token],
) -> Read<'a, Part>
    ensures { Gives part.view_part result (spec.seen_as (λ a. part.ended (r.not_of line a)) (spec.below_at types.now room turns spec.an_operand tokens.now)) }
{
    let (inside, rest) = below(alloc, types, room, turns, Form::Operand, tokens)?;
    Ok((Part::Closed(negated(alloc, line, inside)?), rest))
}

// An operand of a connective.
#[cycle(preds)]
#[tactic(auto, unfolding(crate::specs::Parts::operand_at))]
fn operand<'a>(
    alloc: Global,
    types: &TypeNames,
    room: u32,
    turns: usize,
    tokens: &'a [Token],
) -> Read<'a, Part>
    ensures { Gives part.view_part result (part.operand_at types.now room turns tokens.now) }
{
    let Some((first, rest)) = tokens.split_first() else {
        return Err(Fault::Syntax);
    };
    let line = first.line;
    match &first.kind {
        TokenKind::Punct(Punct::Not) => not_at(alloc, types, room, turns, line, rest),
        TokenKind::Word(Word::Forall) => for_all(alloc, types, line, rest),
        TokenKind::Word(Word::Exists) => for_some(alloc, types, line, rest),
        TokenKind::Word(Word::Let) => let_in(alloc, types, room, line, rest),
        _ => atom_part(alloc, types, room, turns, tokens),
    }
}

// Connectives up to the level.
#[cycle(preds)]
#[tactic(auto, using(crate::proofs::Finished::joined_zero, crate::proofs::Finished::joined_more))]
fn joined<'a>(
    alloc: Global,
    types: &TypeNames,
    room: u32,
    turns: usize,
    level: u32,
    tokens: &'a [Token],
) -> Read<'a, Part>
    requires { level ≤ 3 }
    ensures { Gives part.view_part result (part.joined_at types.now room turns level tokens.now) }
{
    if level == 0 {
        return operand(alloc, types, room, turns, tokens);
    }
    let (left, rest) = joined(alloc, types, room, turns, level - 1, tokens)?;
    match left {
        Part::Closed(left) => joined_on(alloc, types, room, turns, level, left, rest),
        Part::Open(around) => Ok((Part::Open(around), rest)),
    }
}

// More operands of the level, up to an open one.
#[cycle(preds)]
#[tactic(auto, using(crate::proofs::Finished::chain_part_ends, crate::proofs::Finished::chain_part_stops))]
fn joined_on<'a>(
    alloc: Global,
    types: &TypeNames,
    room: u32,
    turns: usize,
    level: u32,
    first: Pred,
    tokens: &'a [Token],
) -> Read<'a, Part>
    requires least { 1 ≤ level }
    requires most { level ≤ 3 }
    ensures { Gives part.view_part result (part.joined_from types.now room turns level (view_pred first) tokens.now) }
{
    let mut left = first;
    let mut rest = tokens;
    for turn in 0..tokens.len() {
        let Some(((connective, line), after)) = connective_at(level, rest) else {
            return Ok((Part::Closed(left), rest));
        };
        let (right, after) = joined(alloc, types, room, turns, level - 1, after)?;
        match connected_part(alloc, connective, line, left, right)? {
            Part::Closed(both) => left = both,
            Part::Open(around) => return Ok((Part::Open(around), after)),
        }
        rest = after;
    }
    Ok((Part::Closed(left), rest))
}

// What stands behind `==>`, with one form more open.
#[cycle(preds)]
fn implied_on<'a>(
    alloc: Global,
    types: &TypeNames,
    room: u32,
    turns: usize,
    left: Pred,
    tokens: &'a [Token],
) -> Read<'a, Part>
    ensures { Gives part.view_part result (part.implies_part (punct_of p.Implies tokens.now) (spec.below_at types.now room turns spec.an_implied) (view_pred left) tokens.now) }
{
    let Some((line, rest)) = punct_at(Punct::Implies, tokens) else {
        return Ok((Part::Closed(left), tokens));
    };
    let (right, rest) = below(alloc, types, room, turns, Form::Implied, rest)?;
    Ok((Part::Closed(implied_by(alloc, line, left, right)?), rest))
}

// What `==>` joins, to the right.
#[cycle(preds)]
#[tactic(auto, unfolding(crate::specs::Parts::implied_at))]
fn implied<'a>(
    alloc: Global,
    types: &TypeNames,
    room: u32,
    turns: usize,
    tokens: &'a [Token],
) -> Read<'a, Part>
    ensures { Gives part.view_part result (part.implied_at types.now room turns tokens.now) }
{
    let (left, rest) = joined(alloc, types, room, turns, 3, tokens)?;
    match left {
        Part::Closed(left) => implied_on(alloc, types, room, turns, left, rest),
        Part::Open(around) => Ok((Part::Open(around), rest)),
    }
}

// What `<==>` joins, to the left.
#[cycle(preds)]
#[tactic(auto, using(crate::proofs::Finished::iff_more))]
fn equivalent<'a>(
    alloc: Global,
    types: &TypeNames,
    room: u32,
    turns: usize,
    tokens: &'a [Token],
) -> Read<'a, Part>
    ensures { Gives part.view_part result (part.iff_part (part.implied_at types.now room turns) tokens.now) }
{
    let (first, rest) = implied(alloc, types, room, turns, tokens)?;
    match first {
        Part::Closed(first) => equivalent_on(alloc, types, room, turns, first, rest),
        Part::Open(around) => Ok((Part::Open(around), rest)),
    }
}

// More of what `<==>` joins, up to an open part.
#[cycle(preds)]
#[tactic(auto, using(crate::proofs::Finished::chain_part_ends, crate::proofs::Finished::iff_part_stops))]
fn equivalent_on<'a>(
    alloc: Global,
    types: &TypeNames,
    room: u32,
    turns: usize,
    first: Pred,
    tokens: &'a [Token],
) -> Read<'a, Part>
    ensures { Gives part.view_part result (part.iff_from types.now room turns (view_pred first) tokens.now) }
{
    let mut left = first;
    let mut rest = tokens;
    for turn in 0..tokens.len() {
        let Some((line, after)) = punct_at(Punct::Iff, rest) else {
            return Ok((Part::Closed(left), rest));
        };
        let (right, after) = implied(alloc, types, room, turns, after)?;
        match equivalent_part(alloc, line, left, right)? {
            Part::Closed(both) => left = both,
            Part::Open(around) => return Ok((Part::Open(around), after)),
        }
        rest = after;
    }
    Ok((Part::Closed(left), rest))
}

// The arms of a conditional, with one form more open.
#[cycle(preds)]
fn arms<'a>(
    alloc: Global,
    types: &TypeNames,
    room: u32,
    turns: usize,
    tokens: &'a [Token],
) -> Read<'a, (Pred, Pred)>
    ensures { Gives view_arms result (spec.arms_at (spec.below_at types.now room turns spec.a_whole) tokens.now) }
{
    let (yes, rest) = below(alloc, types, room, turns, Form::Whole, tokens)?;
    let (_, rest) = expect(Punct::Colon, rest)?;
    let (no, rest) = below(alloc, types, room, turns, Form::Whole, rest)?;
    Ok(((yes, no), rest))
}

// The rest of a conditional behind its test, where there is one.
#[cycle(preds)]
fn conditional<'a>(
    alloc: Global,
    types: &TypeNames,
    room: u32,
    turns: usize,
    test: Pred,
    tokens: &'a [Token],
) -> Read<'a, Part>
    ensures { Gives part.view_part result (part.cond_part (punct_of p.Question tokens.now) (spec.below_at types.now room turns spec.a_whole) (view_pred test) tokens.now) }
{
    let Some((line, rest)) = punct_at(Punct::Question, tokens) else {
        return Ok((Part::Closed(test), tokens));
    };
    let ((yes, no), rest) = arms(alloc, types, room, turns, rest)?;
    Ok((Part::Closed(either_arm(alloc, line, test, yes, no)?), rest))
}

// A whole predicate, up to its end or to the body of a quantifier or of `\let`.
#[cycle(preds)]
#[tactic(auto, unfolding(crate::specs::Parts::whole_at))]
fn whole<'a>(
    alloc: Global,
    types: &TypeNames,
    room: u32,
    turns: usize,
    tokens: &'a [Token],
) -> Read<'a, Part>
    ensures { Gives part.view_part result (part.whole_at types.now room turns tokens.now) }
{
    let (test, rest) = equivalent(alloc, types, room, turns, tokens)?;
    match test {
        Part::Closed(test) => conditional(alloc, types, room, turns, test, rest),
        Part::Open(around) => Ok((Part::Open(around), rest)),
    }
}

// The part that a form begins with.
#[cycle(preds)]
fn part_at<'a>(
    alloc: Global,
    types: &TypeNames,
    room: u32,
    turns: usize,
    form: Form,
    tokens: &'a [Token],
) -> Read<'a, Part>
    ensures { Gives part.view_part result (part.part_at types.now room turns (view_form form) tokens.now) }
{
    match form {
        Form::Operand => operand(alloc, types, room, turns, tokens),
        Form::Implied => implied(alloc, types, room, turns, tokens),
        Form::Whole => whole(alloc, types, room, turns, tokens),
    }
}

// What comes behind an open part, with at most so many quantifiers and `\let` around each part. Each body reaches as far as it can, so
// the next part begins where the one before is open, and all end together.
#[cycle(preds)]
#[tactic(auto, unfolding(crate::specs::Parts::around_all))]
fn behind<'a>(
    alloc: Global,
    types: &TypeNames,
    room: u32,
    turns: usize,
    first: List<Frame>,
    tokens: &'a [Token],
) -> Read<'a, Pred>
    ensures { Gives view_pred result (part.behind types.now room turns (part.around first) tokens.now) }
{
    let mut opened = Vec::new(alloc);
    opened.push(first)?;
    let mut left = turns;
    let mut rest = tokens;
    while left > 0 {
        left -= 1;
        let (next, after) = whole(alloc, types, room, left, rest)?;
        match next {
            Part::Closed(inside) => return all_closed(alloc, opened, inside, after),
            Part::Open(around) => opened.push(around)?,
        }
        rest = after;
    }
    Err(Fault::Syntax)
}

// A form up to its end.
#[cycle(preds)]
#[tactic(auto, using(crate::proofs::Finished::form_finished))]
fn complete<'a>(
    alloc: Global,
    types: &TypeNames,
    room: u32,
    turns: usize,
    form: Form,
    tokens: &'a [Token],
) -> Read<'a, Pred>
    ensures { Gives view_pred result (spec.form_at types.now room turns (view_form form) tokens.now) }
{
    let (first, rest) = part_at(alloc, types, room, turns, form, tokens)?;
    match first {
        Part::Closed(found) => Ok((found, rest)),
        Part::Open(around) => behind(alloc, types, room, turns, around, rest),
    }
}

/// A predicate in which so many more forms may open, and the tokens after it.
#[tactic(auto, unfolding(crate::specs::Read::pred_at))]
pub fn pred_at<'a>(
    alloc: Global,
    types: &TypeNames,
    room: u32,
    tokens: &'a [Token],
) -> Read<'a, Pred>
    ensures { Gives view_pred result (spec.pred_at types.now room tokens.now) }
{
    complete(alloc, types, room, tokens.len(), Form::Whole, tokens)
}
