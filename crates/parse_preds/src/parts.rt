// Parts of predicates, what stands around the predicates that come behind them, and how these are put together (ACSL 2.2).
ghost use Rattle.std.specs.Prelude.{◌≡◌, IfOk, Some, None, if◌then◌else◌};
ghost use Rattle.c_syntax.specs.Pred as r;
ghost use Rattle.c_syntax.specs.View.{view_pred};
ghost use Rattle.c_grammar.specs.Preds.{connected as connected_of};
ghost use Rattle.c_grammar.specs.Views.{Gives};
ghost use Rattle.parse_preds.specs.Next.{ends_pred as ends_pred_here};
ghost use Rattle.parse_preds.specs.Read.{seen_as};
ghost use Rattle.parse_preds.specs.Parts as spec;
ghost use Rattle.parse_preds.specs.Views.{view_connective};

use crate::next::{Connective, ends_pred};
use crate::trees::{connected, each_of, same_as, some_of, such_that};
use c_grammar::{Fault, Read};
use c_syntax::{Pred, Term, Token, VarDecl};
use std::alloc::Global;
use wp_base::{Line, List, NoMemory, Str};

/// What stands around a predicate that comes next.
#[derive(Drop)]
pub enum Frame {
    Forall(Line, List<VarDecl>),
    Exists(Line, List<VarDecl>),
    Let(Line, Str, Term),
    /// A connective with its left side.
    Connected(Connective, Line, Pred),
    /// `<==>` with its left side.
    Equivalent(Line, Pred),
}

/// A predicate at its end, or what stands around the one that comes next, innermost first.
#[derive(Drop)]
pub enum Part {
    Closed(Pred),
    Open(List<Frame>),
}

/// A quantifier or `\let` by itself, whose body comes next.
#[tactic(auto, unfolding(crate::specs::Parts::around))]
pub fn opened(alloc: Global, frame: Frame) -> Result<Part, NoMemory>
    ensures { IfOk result (λ made. spec.view_part made ≡ spec.open_before (spec.view_frame frame)) }
{
    let mut around = List::new(alloc);
    around.push(frame)?;
    Ok(Part::Open(around))
}

/// A connective between a predicate and a part.
#[tactic(auto, using(crate::proofs::Finished::around_more))]
pub fn connected_part(
    alloc: Global,
    connective: Connective,
    line: Line,
    left: Pred,
    right: Part,
) -> Result<Part, NoMemory>
    ensures { IfOk result (λ made. spec.view_part made ≡ spec.within (connected_of (view_connective connective) line (view_pred left)) (spec.view_part right)) }
{
    match right {
        Part::Closed(right) => Ok(Part::Closed(connected(alloc, connective, line, left, right)?)),
        Part::Open(mut around) => {
            around.push(Frame::Connected(connective, line, left))?;
            Ok(Part::Open(around))
        }
    }
}

/// `<==>` between a predicate and a part.
#[tactic(auto, using(crate::proofs::Finished::around_more))]
pub fn equivalent_part(alloc: Global, line: Line, left: Pred, right: Part) -> Result<Part, NoMemory>
    ensures { IfOk result (λ made. spec.view_part made ≡ spec.within (r.iff line (view_pred left)) (spec.view_part right)) }
{
    match right {
        Part::Closed(right) => Ok(Part::Closed(same_as(alloc, line, left, right)?)),
        Part::Open(mut around) => {
            around.push(Frame::Equivalent(line, left))?;
            Ok(Part::Open(around))
        }
    }
}

fn framed(alloc: Global, frame: Frame, inside: Pred) -> Result<Pred, NoMemory>
    ensures { IfOk result (λ made. view_pred made ≡ spec.view_frame frame (view_pred inside)) }
{
    match frame {
        Frame::Forall(line, binders) => each_of(alloc, line, binders, inside),
        Frame::Exists(line, binders) => some_of(alloc, line, binders, inside),
        Frame::Let(line, name, value) => such_that(alloc, line, name, value, inside),
        Frame::Connected(connective, line, left) => {
            connected(alloc, connective, line, left, inside)
        }
        Frame::Equivalent(line, left) => same_as(alloc, line, left, inside),
    }
}

// One open part around a predicate.
#[tactic(auto, using(crate::proofs::Finished::around_last), unfolding(crate::specs::Parts::around))]
fn put_around(alloc: Global, frames: List<Frame>, inside: Pred) -> Result<Pred, NoMemory>
    ensures { IfOk result (λ made. view_pred made ≡ spec.around frames (view_pred inside)) }
{
    let mut inside = inside;
    for frame in frames.into_vec() {
        inside = framed(alloc, frame, inside)?;
    }
    Ok(inside)
}

// Open parts around a predicate, the last one first.
#[tactic(auto, using(crate::proofs::Finished::around_all_last), unfolding(crate::specs::Parts::around_all))]
fn put_all_around(alloc: Global, opened: Vec<List<Frame>>, inside: Pred) -> Result<Pred, NoMemory>
    ensures { IfOk result (λ made. view_pred made ≡ spec.around_all opened.items (view_pred inside)) }
{
    let mut opened = opened;
    let mut inside = inside;
    while let Some(frames) = opened.pop() {
        inside = put_around(alloc, frames, inside)?;
    }
    Ok(inside)
}

/// Open parts around a predicate that reaches to the end.
pub fn all_closed<'a>(
    alloc: Global,
    opened: Vec<List<Frame>>,
    inside: Pred,
    rest: &'a [Token],
) -> Read<'a, Pred>
    ensures { Gives view_pred result (seen_as (spec.around_all opened.items) (if ends_pred_here rest.now then Some (view_pred inside, rest.now) else None)) }
{
    if !ends_pred(rest) {
        return Err(Fault::Syntax);
    }
    Ok((put_all_around(alloc, opened, inside)?, rest))
}
