// Chains of comparisons (ACSL 2.2.1).
ghost use Rattle.std.specs.Prelude.{◌≡◌, [], ◌∷◌, length};
ghost use Rattle.std.specs.List.{list_all};
ghost use Rattle.c_syntax.specs.View.{view_pred, view_term};
ghost use Rattle.c_grammar.specs.Operators.{goes_down as goes_down_of, goes_up as goes_up_of, is_chain as is_chain_of};
ghost use Rattle.c_grammar.specs.Views.{Gives};
ghost use Rattle.parse_terms.specs.Read.{chain_term_at as chain_term_of};
ghost use Rattle.parse_preds.specs.Read as spec;
ghost use Rattle.parse_preds.specs.Views.{view_tail};

use crate::next::comparison_at;
use c_grammar::{Fault, Read, TypeNames};
use c_syntax::{BinOp, Pred, PredNode, Term, Token};
use parse_terms::chain_term_at;
use std::alloc::Global;
use wp_base::List;

fn goes_up(op: BinOp) -> bool
    ensures { result ≡ goes_up_of op }
{
    match op {
        BinOp::Less => true,
        BinOp::AtMost => true,
        BinOp::Equal => true,
        _ => false,
    }
}

fn goes_down(op: BinOp) -> bool
    ensures { result ≡ goes_down_of op }
{
    match op {
        BinOp::Greater => true,
        BinOp::AtLeast => true,
        BinOp::Equal => true,
        _ => false,
    }
}

fn all_up(ops: &[BinOp]) -> bool
    ensures { result ≡ list_all goes_up_of ops.now }
{
    ops.iter().all(|op| goes_up(*op))
}

fn all_down(ops: &[BinOp]) -> bool
    ensures { result ≡ list_all goes_down_of ops.now }
{
    ops.iter().all(|op| goes_down(*op))
}

// Whether there is one, `!=`.
fn is_unequal(ops: &[BinOp]) -> bool
    ensures { result ≡ spec.is_unequal ops.now }
{
    match ops {
        [only] => *only == BinOp::NotEqual,
        _ => false,
    }
}

// Whether these comparisons stand in one chain.
#[tactic(auto, using(crate::proofs::Reading::chain_test))]
fn is_chain(ops: &[BinOp]) -> bool
    ensures { result ≡ is_chain_of ops.now }
{
    is_unequal(ops) || !ops.is_empty() && (all_up(ops) || all_down(ops))
}

// The comparisons behind the first term, and all terms.
#[tactic(auto, using(crate::proofs::Reading::tail_end, crate::proofs::Reading::tail_stop))]
fn tail_at<'a>(
    alloc: Global,
    types: &TypeNames,
    room: u32,
    first: Term,
    tokens: &'a [Token],
) -> Read<'a, (List<Term>, List<BinOp>)>
    ensures { Gives view_tail result (spec.tail_from types.now room (view_term first) tokens.now) }
{
    let mut terms = List::new(alloc);
    terms.push(first)?;
    let mut ops = List::new(alloc);
    let mut rest = tokens;
    for turn in 0..tokens.len() {
        let Some(((op, _), after)) = comparison_at(rest) else {
            return Ok(((terms, ops), rest));
        };
        let (next, after) = chain_term_at(alloc, types, room, after)?;
        terms.push(next)?;
        ops.push(op)?;
        rest = after;
    }
    Ok(((terms, ops), rest))
}

/// A chain of comparisons, with the line of the first one.
#[tactic(auto, using(c_syntax::proofs::Equations::pred_laws), unfolding(crate::specs::Read::chain_at))]
pub fn chain_at<'a>(
    alloc: Global,
    types: &TypeNames,
    room: u32,
    tokens: &'a [Token],
) -> Read<'a, Pred>
    ensures { Gives view_pred result (spec.chain_at types.now room tokens.now) }
{
    let (first, rest) = chain_term_at(alloc, types, room, tokens)?;
    let Some(((_, line), _)) = comparison_at(rest) else {
        return Err(Fault::Syntax);
    };
    let ((terms, ops), rest) = tail_at(alloc, types, room, first, rest)?;
    if !is_chain(ops.as_slice()) {
        return Err(Fault::Syntax);
    }
    let node = PredNode::Chain(terms, ops);
    Ok((Pred { node, line }, rest))
}
