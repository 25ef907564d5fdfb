// `++` and `--` behind their operand, whose old value is wanted (C11 6.5.2.4).
ghost use Rattle.std.specs.Prelude.{◌≡◌, IfOk};
ghost use Rattle.c_runs.specs.Run as run;
ghost use Rattle.core_trees.specs.View.{view_variables};
ghost use Rattle.normal_steps.specs.Into.{MadeInto};
ghost use Rattle.c_runs.specs.Plans as plans;
ghost use Rattle.typed_prog.specs.Tree.{values_of};
ghost use Rattle.typed_prog.specs.View.{view_value, view_values};

use crate::assigned::value_stored;
use crate::builds::{changed, others_of, read_of};
use core_trees::{Core, FunctionVariable};
use normal_steps::{no_value, save, save_if};
use normal_values::{pure_made, pures};
use std::alloc::Global;
use typed_copies::copy_value;
use typed_prog::{Change, Path, Value};
use value_facts::need;
use wp_base::{List, NoMemory};

// The old value goes to a temporary. Its way has these operands.
#[tactic(auto, using(crate::proofs::Storing::old_done))]
fn old_saved(
    alloc: Global,
    variables: &[FunctionVariable],
    path: &Path,
    others: &[Value],
    like: &Value,
    done: &Value,
    next: u32,
    out: &mut List<Core>,
) -> Result<(Value, u32), NoMemory>
    ensures { IfOk result (λ r. MadeInto out.old out.new (plans.save ((plans.pure (view_variables variables.now) (view_value done.now) (run.old_value path.now like.now.ty like.now.line (values_of (view_values others.now)))).made next)) r.0 r.1) }
{
    let (way, next) = pures(alloc, variables, others, done, next, out)?;
    let old = read_of(alloc, path, way, like)?;
    let (old, next) = save(alloc, old, next, out)?;
    Ok((old, next))
}

// The other operand, which is the first one.
#[tactic(auto, using(crate::proofs::Storing::none_made))]
fn first_made(
    alloc: Global,
    variables: &[FunctionVariable],
    operands: &[Value],
    done: &Value,
    next: u32,
    out: &mut List<Core>,
) -> Result<(Value, u32), NoMemory>
    ensures { IfOk result (λ r. MadeInto out.old out.new ((plans.pure (view_variables variables.now) (view_value done.now) (run.first_operand (values_of (view_values operands.now)))).made next) r.0 r.1) }
{
    match operands.split_first() {
        Some((first, _)) => pure_made(alloc, variables, first, done, next, out),
        None => Ok((no_value(alloc), next)),
    }
}

// The new value, which goes to a temporary where it may be undefined and the operands of the way need statements.
#[tactic(auto, using(crate::proofs::Storing::new_done))]
fn new_made(
    alloc: Global,
    variables: &[FunctionVariable],
    by: Change,
    operands: &[Value],
    old: Value,
    like: &Value,
    done: &Value,
    next: u32,
    out: &mut List<Core>,
) -> Result<(Value, u32), NoMemory>
    ensures { IfOk result (λ r. MadeInto out.old out.new (plans.save_if (view_variables variables.now) (plans.need (run.other_operands (values_of (view_values operands.now)))) (plans.changed_made (view_variables variables.now) by like.now.ty like.now.line (view_value old) ((plans.pure (view_variables variables.now) (view_value done.now) (run.first_operand (values_of (view_values operands.now)))).made next))) r.0 r.1) }
{
    let (other, next) = first_made(alloc, variables, operands, done, next, out)?;
    let value = changed(alloc, by, like, old, other)?;
    let needed = need(others_of(operands));
    let (value, next) = save_if(alloc, needed, variables, value, next, out)?;
    Ok((value, next))
}

/// An increment whose old value is wanted, what comes first in its operands being done and having left `done`.
#[tactic(auto, using(crate::proofs::Storing::postfix_whole))]
pub(crate) fn postfix_from(
    alloc: Global,
    variables: &[FunctionVariable],
    path: &Path,
    by: Change,
    operands: &[Value],
    like: &Value,
    done: &Value,
    next: u32,
    out: &mut List<Core>,
) -> Result<(Value, u32), NoMemory>
    ensures { IfOk result (λ r. MadeInto out.old out.new (plans.postfix_made (view_variables variables.now) like.now.ty like.now.line path.now by (values_of (view_values operands.now)) (plans.kept (view_value done.now)) next) r.0 r.1) }
{
    let others = others_of(operands);
    let (old, next) = old_saved(alloc, variables, path, others, like, done, next, out)?;
    let left = copy_value(alloc, &old)?;
    let (value, next) = new_made(alloc, variables, by, operands, old, like, done, next, out)?;
    let last = value_stored(alloc, variables, path, value, others, like, done, next, out)?;
    Ok((left, last))
}
