// What stands around an operand that is typed first.
ghost use Rattle.std.specs.Prelude.{◌≡◌, Ok};
ghost use Rattle.c_answers.specs.Answers.{Gives};
ghost use Rattle.c_exprs.specs.Frames as spec;
ghost use Rattle.c_exprs.specs.Typing.{around};
ghost use Rattle.c_operands.specs.Operands.{view_operand};

use crate::steps::{assign, field};
use c_kinds::Machdep;
use c_operands::Operand;
use c_places::{indexed, stepped};
use c_rules::binary;
use c_scopes::Scope;
use c_syntax::BinOp;
use std::alloc::Global;
use wp_base::{Line, NoMemory, Refusal, Stop, Str};

/// An operator over the operand that is typed next, with what its other operand is, or the first fault in that.
#[derive(Drop)]
pub(crate) enum Frame<'a> {
    Binary(BinOp, Line, Result<Operand, Refusal>),
    Index(Line, Result<Operand, Refusal>),
    /// An assignment, whose object was typed already.
    Assign(Option<BinOp>, Line, Operand),
    Field(&'a Str, bool, Line),
    Step(bool, bool, Line),
}

/// An answer that isn't want of memory.
pub(crate) fn settled(answer: Result<Operand, Stop>) -> Result<Result<Operand, Refusal>, NoMemory>
    ensures { spec.Settles answer result }
{
    match answer {
        Ok(operand) => Ok(Ok(operand)),
        Err(Stop::Refused(refusal)) => Ok(Err(refusal)),
        Err(Stop::NoMemory) => Err(NoMemory),
    }
}

fn framed(
    alloc: Global,
    model: Machdep,
    sizes: &[u32],
    scope: &Scope,
    frame: Frame<'_>,
    operand: Operand,
) -> Result<Operand, Stop>
    ensures { Gives view_operand result (spec.framed (around model sizes.now scope.now) frame.entry (Ok (view_operand operand))) }
{
    match frame {
        Frame::Binary(op, line, Ok(right)) => binary(alloc, model, sizes, line, op, operand, right),
        Frame::Binary(_, _, Err(refusal)) => Err(Stop::Refused(refusal)),
        Frame::Index(line, Ok(right)) => indexed(alloc, sizes, line, operand, right),
        Frame::Index(_, Err(refusal)) => Err(Stop::Refused(refusal)),
        Frame::Assign(op, line, place) => assign(alloc, model, sizes, line, op, place, operand),
        Frame::Field(name, arrow, line) => field(alloc, scope, line, name, arrow, operand),
        Frame::Step(up, prefix, line) => stepped(alloc, model, sizes, line, up, prefix, operand),
    }
}

// All of these around an operand, the last one first.
#[tactic(auto, using(crate::proofs::Framing::frame_turn, crate::proofs::Framing::frame_fault), unfolding(crate::specs::Frames::all_framed))]
fn all_framed(
    alloc: Global,
    model: Machdep,
    sizes: &[u32],
    scope: &Scope,
    mut frames: Vec<Frame<'_>>,
    first: Operand,
) -> Result<Operand, Stop>
    ensures { Gives view_operand result (spec.all_framed (around model sizes.now scope.now) frames.entry.items (Ok (view_operand first))) }
{
    let mut whole = first;
    while let Some(frame) = frames.pop() {
        whole = framed(alloc, model, sizes, scope, frame, whole)?;
    }
    Ok(whole)
}

/// All frames around what was typed first, or the fault in that.
#[tactic(auto, using(crate::proofs::Framing::fault_inside))]
pub(crate) fn done(
    alloc: Global,
    model: Machdep,
    sizes: &[u32],
    scope: &Scope,
    frames: Vec<Frame<'_>>,
    first: Result<Operand, Stop>,
) -> Result<Operand, Stop>
    ensures { (given : spec.Given) → Gives view_operand first given → Gives view_operand result (spec.all_framed (around model sizes.now scope.now) frames.entry.items given) }
{
    match first {
        Ok(first) => all_framed(alloc, model, sizes, scope, frames, first),
        Err(stop) => Err(stop),
    }
}
