// Calls in an expression.
ghost use Rattle.std.specs.Prelude.{◌≡◌, IfOk, suc};
ghost use Rattle.c_runs.specs.Core as core;
ghost use Rattle.core_trees.specs.View.{view_cores, view_variables};
ghost use Rattle.normal_steps.specs.Into.{SentInto, view_put};
ghost use Rattle.c_runs.specs.Plans as plans;
ghost use Rattle.typed_prog.specs.Tree.{values_of};
ghost use Rattle.typed_prog.specs.View.{view_value, view_values};

use core_trees::{Core, FunctionVariable};
use normal_steps::{Put, after, push_put, temporary_like};
use normal_values::pures;
use std::alloc::Global;
use typed_prog::Value;
use wp_base::{Line, List, NoMemory};

/// A call, what comes first in its arguments being done and having left `done`.
#[tactic(auto, using(crate::proofs::Calling::called_done))]
pub fn called_from(
    alloc: Global,
    variables: &[FunctionVariable],
    function: u32,
    line: Line,
    operands: &[Value],
    done: &Value,
    next: u32,
    out: &mut List<Core>,
) -> Result<(Put, u32), NoMemory>
    ensures { IfOk result (λ r. SentInto out.old out.new (plans.called_sent line function (plans.operands (view_variables variables.now) (values_of (view_values operands.now)) (plans.kept (view_value done.now)) next)) r.0 r.1) }
{
    let (arguments, next) = pures(alloc, variables, operands, done, next, out)?;
    Ok((Put::Called(function, line, arguments), next))
}

/// What was to go to a temporary goes to the next one, of the type of `like`.
pub fn put_sent(
    alloc: Global,
    put: Put,
    like: &Value,
    slot: u32,
    out: &mut List<Core>,
) -> Result<(Value, u32), NoMemory>
    ensures { IfOk result (λ r. (view_cores out.new ≡ core.join (view_cores out.old) (core.one (view_put put slot))) × (view_value r.0 ≡ plans.temp_for (view_value like.now) slot) × (r.1 ≡ suc slot)) }
{
    let last = after(slot)?;
    push_put(put, slot, out)?;
    let left = temporary_like(alloc, like, slot)?;
    Ok((left, last))
}
