// Definitions of predicates and logic functions (ACSL 2.6.1).
ghost use Rattle.std.specs.Prelude.{◌≡◌, map, length};
ghost use Rattle.c_syntax.specs.View.{view_logic, view_var};
ghost use Rattle.c_grammar.specs.Views.{Gives};
ghost use Rattle.c_grammar.specs.ListReaders.{with_items, more_separated, separated_at};
ghost use Rattle.parse_preds.specs.Read.{typed_at as typed_of};
ghost use Rattle.acsl_parser.specs.Read as spec;

use crate::clauses::{pred_ended, term_ended};
use crate::words::{LogicWord, logic_word_at, starts_logic};
use c_grammar::{DEEPEST, Fault, Read, TypeNames, expect, new_name_at, punct_at};
use c_syntax::{LogicBody, LogicDecl, Punct, Token, VarDecl};
use parse_preds::typed_at;
use std::alloc::Global;
use wp_base::List;

// The parameters so far, and those that come after a comma.
fn more_params<'a>(
    alloc: Global,
    types: &TypeNames,
    first: List<VarDecl>,
    tokens: &'a [Token],
) -> Read<'a, List<VarDecl>>
    ensures { Gives (map view_var) result (with_items (map view_var first) (more_separated (typed_of types.now) (length tokens.now) tokens.now)) }
{
    let mut items = first;
    let mut rest = tokens;
    for turn in 0..tokens.len() {
        let Some((_, after)) = punct_at(Punct::Comma, rest) else {
            return Ok((items, rest));
        };
        let (item, after) = typed_at(alloc, types, after)?;
        items.push(item)?;
        rest = after;
    }
    Ok((items, rest))
}

#[tactic(auto, using(c_grammar::proofs::Turns::one_more), unfolding(c_grammar::specs::ListReaders::separated_at))]
fn some_params<'a>(alloc: Global, types: &TypeNames, tokens: &'a [Token]) -> Read<'a, List<VarDecl>>
    ensures { Gives (map view_var) result (separated_at (typed_of types.now) tokens.now) }
{
    let (item, rest) = typed_at(alloc, types, tokens)?;
    let mut items = List::new(alloc);
    items.push(item)?;
    more_params(alloc, types, items, rest)
}

// Parameters in parentheses, or none.
#[tactic(auto, unfolding(crate::specs::Read::params_at))]
fn params_at<'a>(alloc: Global, types: &TypeNames, tokens: &'a [Token]) -> Read<'a, List<VarDecl>>
    ensures { Gives (map view_var) result (spec.params_at types.now tokens.now) }
{
    let Some((_, rest)) = punct_at(Punct::OpenParen, tokens) else {
        return Ok((List::new(alloc), tokens));
    };
    let (params, rest) = some_params(alloc, types, rest)?;
    let (_, rest) = expect(Punct::CloseParen, rest)?;
    Ok((params, rest))
}

// What stands behind `predicate`.
#[tactic(auto, unfolding(crate::specs::Read::predicate_at))]
fn predicate_at<'a>(alloc: Global, types: &TypeNames, tokens: &'a [Token]) -> Read<'a, LogicDecl>
    ensures { Gives view_logic result (spec.predicate_at types.now tokens.now) }
{
    let ((name, line), rest) = new_name_at(alloc, types, tokens)?;
    let (params, rest) = params_at(alloc, types, rest)?;
    let (_, rest) = expect(Punct::Assign, rest)?;
    let (body, rest) = pred_ended(alloc, types, DEEPEST, rest)?;
    let declared = LogicDecl {
        name,
        result: None,
        params,
        body: LogicBody::Pred(body),
        line,
    };
    Ok((declared, rest))
}

fn function_of(var: VarDecl, params: List<VarDecl>, body: LogicBody) -> LogicDecl
    ensures { result ≡ record { name = var.name; result = Some var.ty; params = params; body = body; line = var.line } }
{
    LogicDecl {
        name: var.name,
        result: Some(var.ty),
        params,
        body,
        line: var.line,
    }
}

// What stands behind `logic`.
#[tactic(auto, unfolding(crate::specs::Read::function_at))]
fn function_at<'a>(alloc: Global, types: &TypeNames, tokens: &'a [Token]) -> Read<'a, LogicDecl>
    ensures { Gives view_logic result (spec.function_at types.now tokens.now) }
{
    let (var, rest) = typed_at(alloc, types, tokens)?;
    let (params, rest) = params_at(alloc, types, rest)?;
    let (_, rest) = expect(Punct::Assign, rest)?;
    let (body, rest) = term_ended(alloc, types, DEEPEST, rest)?;
    Ok((function_of(var, params, LogicBody::Term(body)), rest))
}

/// A definition of a predicate or a logic function.
#[tactic(auto, unfolding(crate::specs::Read::logic_at))]
pub fn logic_at<'a>(alloc: Global, types: &TypeNames, tokens: &'a [Token]) -> Read<'a, LogicDecl>
    ensures { Gives view_logic result (spec.logic_at types.now tokens.now) }
{
    let Some(((word, _), rest)) = logic_word_at(tokens) else {
        return Err(Fault::Syntax);
    };
    match word {
        LogicWord::Predicate => predicate_at(alloc, types, rest),
        LogicWord::Logic => function_at(alloc, types, rest),
    }
}

/// Definitions, at least one.
#[tactic(auto, using(crate::proofs::Reading::logics_none))]
pub fn logics_at<'a>(
    alloc: Global,
    types: &TypeNames,
    tokens: &'a [Token],
) -> Read<'a, List<LogicDecl>>
    ensures { Gives (map view_logic) result (spec.logics_at types.now tokens.now) }
{
    if !starts_logic(tokens) {
        return Err(Fault::Syntax);
    }
    let mut items = List::new(alloc);
    let mut rest = tokens;
    for turn in 0..tokens.len() {
        if !starts_logic(rest) {
            return Ok((items, rest));
        }
        let (item, after) = logic_at(alloc, types, rest)?;
        items.push(item)?;
        rest = after;
    }
    Ok((items, rest))
}
