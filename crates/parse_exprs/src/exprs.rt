// Expressions (C11 6.5).
ghost use Rattle.std.specs.Prelude.{◌≡◌, ◌-◌, ◌≤◌, length, map};
ghost use Rattle.parse_exprs.specs.Read as spec;
ghost use Rattle.parse_exprs.specs.Views.{view_arg, view_arms};
ghost use Rattle.c_grammar.specs.Views.{Finds, Gives};
ghost use Rattle.c_syntax.specs.View.{view_expr};

use crate::operators::{Prefix, Suffix, assign_at, operator, prefix_at, suffix_at};
use crate::trees::{
    Place, assigned, binary, call, cast_to, conditional, field, index, step_behind, with_prefix,
};
use c_grammar::{Fault, LOOSEST, Read, TypeNames, expect, is_type, name_at, punct_at, word_at};
use c_syntax::{Expr, ExprNode, Punct, Token, TokenKind, Word};
use parse_types::{starts_type, type_name_at};
use std::alloc::Global;
use wp_base::{Line, List, Str};

// An expression and the punctuator that closes it.
#[cycle(exprs)]
#[tactic(auto, unfolding(crate::specs::Read::enclosed))]
fn enclosed<'a>(
    alloc: Global,
    types: &TypeNames,
    room: u32,
    close: Punct,
    tokens: &'a [Token],
) -> Read<'a, Expr>
    ensures { Gives view_expr result (spec.enclosed close (spec.inside types.now room) tokens.now) }
{
    if room == 0 {
        return Err(Fault::Syntax);
    }
    let (found, rest) = expr(alloc, types, room - 1, tokens)?;
    let (_, rest) = expect(close, rest)?;
    Ok((found, rest))
}

// An argument, and whether a comma stands behind it, or else the closing parenthesis.
#[cycle(exprs)]
#[tactic(auto, unfolding(crate::specs::Read::arg))]
fn arg<'a>(
    alloc: Global,
    types: &TypeNames,
    room: u32,
    tokens: &'a [Token],
) -> Read<'a, (Expr, bool)>
    ensures { Gives view_arg result (spec.arg (spec.expr_at types.now room) tokens.now) }
{
    let (found, rest) = expr(alloc, types, room, tokens)?;
    if let Some((_, rest)) = punct_at(Punct::Comma, rest) {
        return Ok(((found, true), rest));
    }
    let (_, rest) = expect(Punct::CloseParen, rest)?;
    Ok(((found, false), rest))
}

// At least one argument, and the closing parenthesis.
#[cycle(exprs)]
#[tactic(auto, using(crate::proofs::Reading::args_out))]
fn some_args<'a>(
    alloc: Global,
    types: &TypeNames,
    room: u32,
    tokens: &'a [Token],
) -> Read<'a, List<Expr>>
    ensures { Gives (map view_expr) result (spec.some_args (spec.expr_at types.now room) (length tokens.now) tokens.now) }
{
    let mut args = List::new(alloc);
    let mut rest = tokens;
    for turn in 0..tokens.len() {
        let ((found, another), after) = arg(alloc, types, room, rest)?;
        args.push(found)?;
        if !another {
            return Ok((args, after));
        }
        rest = after;
    }
    Err(Fault::Syntax)
}

// The arguments of a call, and its closing parenthesis.
#[cycle(exprs)]
#[tactic(auto, using(crate::proofs::Reading::args_is), unfolding(crate::specs::Read::args_over))]
fn args<'a>(
    alloc: Global,
    types: &TypeNames,
    room: u32,
    tokens: &'a [Token],
) -> Read<'a, List<Expr>>
    ensures { Gives (map view_expr) result ((spec.inside types.now room).args tokens.now) }
{
    if room == 0 {
        return Err(Fault::Syntax);
    }
    if let Some((_, rest)) = punct_at(Punct::CloseParen, tokens) {
        return Ok((List::new(alloc), rest));
    }
    some_args(alloc, types, room - 1, tokens)
}

// A variable, or a call of a named function (C11 6.5.1, 6.5.2.2).
#[cycle(exprs)]
#[tactic(auto, using(c_syntax::proofs::Equations::expr_laws), unfolding(crate::specs::Read::named))]
fn named<'a>(
    alloc: Global,
    types: &TypeNames,
    room: u32,
    name: &Str,
    line: Line,
    tokens: &'a [Token],
) -> Read<'a, Expr>
    ensures { Gives view_expr result (spec.named types.now (spec.inside types.now room) name.now line tokens.now) }
{
    if is_type(types, name) {
        return Err(Fault::Syntax);
    }
    let name = name.copy(alloc)?;
    let Some((_, rest)) = punct_at(Punct::OpenParen, tokens) else {
        let node = ExprNode::Name(name);
        return Ok((Expr { node, line }, tokens));
    };
    let (found, rest) = args(alloc, types, room, rest)?;
    Ok((call(name, line, found), rest))
}

// A primary expression (C11 6.5.1).
#[cycle(exprs)]
#[tactic(auto, using(c_syntax::proofs::Equations::expr_laws), unfolding(crate::specs::Read::primary))]
fn primary<'a>(alloc: Global, types: &TypeNames, room: u32, tokens: &'a [Token]) -> Read<'a, Expr>
    ensures { Gives view_expr result (spec.primary types.now (spec.inside types.now room) tokens.now) }
{
    let Some((first, rest)) = tokens.split_first() else {
        return Err(Fault::Syntax);
    };
    let line = first.line;
    match &first.kind {
        TokenKind::Number { .. } => {
            let node = ExprNode::Number(first.copy(alloc)?);
            Ok((Expr { node, line }, rest))
        }
        TokenKind::Char(value) => {
            let node = ExprNode::Char(*value);
            Ok((Expr { node, line }, rest))
        }
        TokenKind::Name(name) => named(alloc, types, room, name, line, rest),
        TokenKind::Punct(Punct::OpenParen) => {
            enclosed(alloc, types, room, Punct::CloseParen, rest)
        }
        _ => Err(Fault::Syntax),
    }
}

// What stands behind an operator behind an operand.
#[cycle(exprs)]
#[tactic(auto, unfolding(crate::specs::Read::suffix))]
fn suffix<'a>(
    alloc: Global,
    types: &TypeNames,
    room: u32,
    how: Suffix,
    line: Line,
    operand: Expr,
    tokens: &'a [Token],
) -> Read<'a, Expr>
    ensures { Gives view_expr result (spec.suffix (spec.inside types.now room) how line (view_expr operand) tokens.now) }
{
    match how {
        Suffix::Index => {
            let (at, rest) = enclosed(alloc, types, room, Punct::CloseBracket, tokens)?;
            Ok((index(alloc, line, operand, at)?, rest))
        }
        Suffix::Field(arrow) => {
            let ((name, _), rest) = name_at(alloc, tokens)?;
            Ok((field(alloc, line, operand, name, arrow)?, rest))
        }
        Suffix::Step(up) => Ok((step_behind(alloc, line, up, operand)?, tokens)),
    }
}

// Operators behind an operand.
#[cycle(exprs)]
#[tactic(auto, using(crate::proofs::Reading::suffixes_end, crate::proofs::Reading::suffixes_stop))]
fn suffixes<'a>(
    alloc: Global,
    types: &TypeNames,
    room: u32,
    first: Expr,
    tokens: &'a [Token],
) -> Read<'a, Expr>
    ensures { Gives view_expr result (spec.suffixes (spec.inside types.now room) (length tokens.now) (view_expr first) tokens.now) }
{
    let mut operand = first;
    let mut rest = tokens;
    for turn in 0..tokens.len() {
        let Some(((how, line), after)) = suffix_at(rest) else {
            return Ok((operand, rest));
        };
        let (longer, after) = suffix(alloc, types, room, how, line, operand, after)?;
        operand = longer;
        rest = after;
    }
    Ok((operand, rest))
}

// A postfix expression (C11 6.5.2).
#[cycle(exprs)]
#[tactic(auto, unfolding(crate::specs::Read::postfix))]
fn postfix<'a>(alloc: Global, types: &TypeNames, room: u32, tokens: &'a [Token]) -> Read<'a, Expr>
    ensures { Gives view_expr result (spec.postfix types.now (spec.inside types.now room) tokens.now) }
{
    let (first, rest) = primary(alloc, types, room, tokens)?;
    suffixes(alloc, types, room, first, rest)
}

// The operand behind an operator.
#[cycle(exprs)]
#[tactic(auto, unfolding(crate::specs::Read::prefixed))]
fn prefixed<'a>(
    alloc: Global,
    types: &TypeNames,
    room: u32,
    prefix: Prefix,
    line: Line,
    tokens: &'a [Token],
) -> Read<'a, Expr>
    ensures { Gives view_expr result (spec.prefixed (spec.inside types.now room) prefix line tokens.now) }
{
    if room == 0 {
        return Err(Fault::Syntax);
    }
    let (operand, rest) = unary(alloc, types, room - 1, tokens)?;
    Ok((with_prefix(alloc, prefix, line, operand)?, rest))
}

// What stands behind `sizeof` (C11 6.5.3.4).
#[tactic(auto, using(crate::proofs::Reading::type_name_is, c_syntax::proofs::Equations::expr_laws), unfolding(crate::specs::Read::sizeof))]
fn sizeof<'a>(
    alloc: Global,
    types: &TypeNames,
    room: u32,
    line: Line,
    tokens: &'a [Token],
) -> Read<'a, Expr>
    ensures { Gives view_expr result (spec.sizeof (spec.inside types.now room) line tokens.now) }
{
    let (_, rest) = expect(Punct::OpenParen, tokens)?;
    if room == 0 {
        return Err(Fault::Syntax);
    }
    let (of, rest) = type_name_at(alloc, types, rest)?;
    let (_, rest) = expect(Punct::CloseParen, rest)?;
    let node = ExprNode::SizeOf(of);
    Ok((Expr { node, line }, rest))
}

// A cast, behind its opening parenthesis (C11 6.5.4).
#[cycle(exprs)]
#[tactic(auto, using(crate::proofs::Reading::type_name_is), unfolding(crate::specs::Read::cast))]
fn cast<'a>(
    alloc: Global,
    types: &TypeNames,
    room: u32,
    line: Line,
    tokens: &'a [Token],
) -> Read<'a, Expr>
    ensures { Gives view_expr result (spec.cast (spec.inside types.now room) line tokens.now) }
{
    if room == 0 {
        return Err(Fault::Syntax);
    }
    let (to, rest) = type_name_at(alloc, types, tokens)?;
    let (_, rest) = expect(Punct::CloseParen, rest)?;
    let (operand, rest) = unary(alloc, types, room - 1, rest)?;
    Ok((cast_to(alloc, line, to, operand)?, rest))
}

// The parenthesis of a cast: a type comes behind it.
#[tactic(auto, unfolding(crate::specs::Read::cast_at))]
fn cast_at<'a>(types: &TypeNames, tokens: &'a [Token]) -> Option<(Line, &'a [Token])>
    ensures { Finds (λ x. x) result (spec.cast_at types.now tokens.now) }
{
    let (line, rest) = punct_at(Punct::OpenParen, tokens)?;
    if starts_type(types, rest) {
        Some((line, rest))
    } else {
        None
    }
}

// A unary expression (C11 6.5.3).
#[cycle(exprs)]
#[tactic(auto, using(crate::proofs::Reading::unary_is), unfolding(crate::specs::Read::unary_over))]
fn unary<'a>(alloc: Global, types: &TypeNames, room: u32, tokens: &'a [Token]) -> Read<'a, Expr>
    ensures { Gives view_expr result (spec.unary_at types.now room tokens.now) }
{
    if let Some(((prefix, line), rest)) = prefix_at(tokens) {
        return prefixed(alloc, types, room, prefix, line, rest);
    }
    if let Some((line, rest)) = word_at(Word::SizeOf, tokens) {
        return sizeof(alloc, types, room, line, rest);
    }
    if let Some((line, rest)) = cast_at(types, tokens) {
        return cast(alloc, types, room, line, rest);
    }
    postfix(alloc, types, room, tokens)
}

// Operators up to the level, over unary expressions (C11 6.5.5 to 6.5.14).
#[cycle(exprs)]
#[tactic(auto, using(crate::proofs::Reading::binary_is))]
fn operands<'a>(
    alloc: Global,
    types: &TypeNames,
    room: u32,
    level: u32,
    tokens: &'a [Token],
) -> Read<'a, Expr>
    ensures { Gives view_expr result (spec.binary level (spec.unary_at types.now room) tokens.now) }
{
    let (first, rest) = unary(alloc, types, room, tokens)?;
    operands_from(alloc, types, room, level, first, rest)
}

// The same, from the first operand on.
#[cycle(exprs)]
#[tactic(auto, using(crate::proofs::Reading::binary_from_zero, crate::proofs::Reading::binary_from_more))]
fn operands_from<'a>(
    alloc: Global,
    types: &TypeNames,
    room: u32,
    level: u32,
    first: Expr,
    tokens: &'a [Token],
) -> Read<'a, Expr>
    ensures { Gives view_expr result (spec.binary_from level (spec.unary_at types.now room) (view_expr first) tokens.now) }
{
    if level == 0 {
        return Ok((first, tokens));
    }
    let (left, rest) = operands_from(alloc, types, room, level - 1, first, tokens)?;
    chain(alloc, types, room, level, left, rest)
}

// More operands of one level.
#[cycle(exprs)]
#[tactic(auto, using(c_grammar::proofs::Chains::chain_ends, c_grammar::proofs::Chains::chain_stops))]
fn chain<'a>(
    alloc: Global,
    types: &TypeNames,
    room: u32,
    level: u32,
    first: Expr,
    tokens: &'a [Token],
) -> Read<'a, Expr>
    requires { 1 ≤ level }
    ensures { Gives view_expr result (spec.binary_chain level (spec.binary (level - 1) (spec.unary_at types.now room)) (length tokens.now) (view_expr first) tokens.now) }
{
    let mut left = first;
    let mut rest = tokens;
    for turn in 0..tokens.len() {
        let Some(((op, line), after)) = operator(level, rest) else {
            return Ok((left, rest));
        };
        let (right, after) = operands(alloc, types, room, level - 1, after)?;
        left = binary(alloc, op, line, left, right)?;
        rest = after;
    }
    Ok((left, rest))
}

// Both arms, behind the question mark.
#[cycle(exprs)]
#[tactic(auto, unfolding(crate::specs::Read::arms))]
fn arms<'a>(
    alloc: Global,
    types: &TypeNames,
    room: u32,
    tokens: &'a [Token],
) -> Read<'a, (Expr, Expr)>
    ensures { Gives view_arms result (spec.arms (spec.inside types.now room) tokens.now) }
{
    if room == 0 {
        return Err(Fault::Syntax);
    }
    let (then_arm, rest) = enclosed(alloc, types, room, Punct::Colon, tokens)?;
    let (else_arm, rest) = cond(alloc, types, room - 1, rest)?;
    Ok(((then_arm, else_arm), rest))
}

// A conditional, from its first operand on (C11 6.5.15).
#[cycle(exprs)]
#[tactic(auto, unfolding(crate::specs::Read::cond_from))]
fn cond_from<'a>(
    alloc: Global,
    types: &TypeNames,
    room: u32,
    first: Expr,
    tokens: &'a [Token],
) -> Read<'a, Expr>
    ensures { Gives view_expr result (spec.finish types.now room (view_expr first) tokens.now) }
{
    let (test, rest) = operands_from(alloc, types, room, LOOSEST, first, tokens)?;
    let Some((line, after)) = punct_at(Punct::Question, rest) else {
        return Ok((test, rest));
    };
    let ((then_arm, else_arm), rest) = arms(alloc, types, room, after)?;
    Ok((conditional(alloc, line, test, then_arm, else_arm)?, rest))
}

// A conditional (C11 6.5.15).
#[cycle(exprs)]
#[tactic(auto, using(crate::proofs::Reading::cond_is))]
pub(crate) fn cond<'a>(
    alloc: Global,
    types: &TypeNames,
    room: u32,
    tokens: &'a [Token],
) -> Read<'a, Expr>
    ensures { Gives view_expr result (spec.cond_at types.now room tokens.now) }
{
    let (first, rest) = unary(alloc, types, room, tokens)?;
    cond_from(alloc, types, room, first, rest)
}

// An expression (C11 6.5.16).
#[cycle(exprs)]
#[tactic(auto, using(crate::proofs::Reading::expr_is, crate::proofs::Reading::assigns_out))]
pub(crate) fn expr<'a>(
    alloc: Global,
    types: &TypeNames,
    room: u32,
    tokens: &'a [Token],
) -> Read<'a, Expr>
    ensures { Gives view_expr result (spec.expr_at types.now room tokens.now) }
{
    let mut places = Vec::new(alloc);
    let mut rest = tokens;
    for turn in 0..tokens.len() {
        let (first, after) = unary(alloc, types, room, rest)?;
        let Some(((op, line), after)) = assign_at(after) else {
            let (value, rest) = cond_from(alloc, types, room, first, after)?;
            return Ok((assigned(alloc, places, value)?, rest));
        };
        places.push(Place {
            to: first,
            op,
            line,
        })?;
        rest = after;
    }
    Err(Fault::Syntax)
}
