// Assignments whose value is wanted.
ghost use Rattle.std.specs.Prelude.{◌≡◌, IfOk};
ghost use Rattle.c_runs.specs.Core as core;
ghost use Rattle.core_trees.specs.View.{view_cores, view_variables};
ghost use Rattle.normal_effects.specs.Stored.{stored_behind};
ghost use Rattle.normal_steps.specs.Into.{DidInto, MadeInto};
ghost use Rattle.c_runs.specs.Plans as plans;
ghost use Rattle.typed_prog.specs.Tree as tree;
ghost use Rattle.typed_prog.specs.Tree.{values_of};
ghost use Rattle.typed_prog.specs.View.{view_value, view_values};

use crate::builds::in_front;
use core_trees::{Core, FunctionVariable};
use normal_steps::{no_value, push, save};
use normal_values::{pure_made, pures};
use std::alloc::Global;
use typed_copies::{copy_path, copy_value};
use typed_prog::{Path, Value};
use wp_base::{List, NoMemory};

/// An object of the type of `like` gets the first of these values; the others are the operands of its way.
#[tactic(auto, using(core_trees::proofs::Equations::core_laws))]
pub fn push_store(
    alloc: Global,
    path: &Path,
    values: List<Value>,
    like: &Value,
    out: &mut List<Core>,
) -> Result<(), NoMemory>
    ensures { IfOk result (λ _. view_cores out.new ≡ core.join (view_cores out.old) (core.one (core.store like.now.ty like.now.line path.now (values_of (view_values values))))) }
{
    let path = copy_path(alloc, path)?;
    let ty = like.ty.copy(alloc)?;
    push(Core::Store(ty, like.line, path, values), out)
}

// A value that was made is stored, behind what the operands of the way become.
#[tactic(auto, using(crate::proofs::Storing::stored_done))]
pub(crate) fn value_stored(
    alloc: Global,
    variables: &[FunctionVariable],
    path: &Path,
    value: Value,
    others: &[Value],
    like: &Value,
    done: &Value,
    next: u32,
    out: &mut List<Core>,
) -> Result<u32, NoMemory>
    ensures { IfOk result (λ last. DidInto out.old out.new (stored_behind (view_variables variables.now) like.now.ty like.now.line path.now (view_value value) (view_value done.now) (values_of (view_values others.now)) next) last) }
{
    let (way, last) = pures(alloc, variables, others, done, next, out)?;
    let values = in_front(alloc, value, way)?;
    push_store(alloc, path, values, like, out)?;
    Ok(last)
}

// The value goes to a temporary, which is stored and is the value of the assignment.
#[tactic(auto, using(crate::proofs::Storing::assigned_done))]
fn first_assigned(
    alloc: Global,
    variables: &[FunctionVariable],
    path: &Path,
    first: &Value,
    others: &[Value],
    like: &Value,
    done: &Value,
    next: u32,
    out: &mut List<Core>,
) -> Result<(Value, u32), NoMemory>
    ensures { IfOk result (λ r. MadeInto out.old out.new (plans.stored_made like.now.ty like.now.line path.now (plans.saved_operands (view_variables variables.now) (view_value first.now) (values_of (view_values others.now)) (plans.kept (view_value done.now)) next)) r.0 r.1) }
{
    let (value, next) = pure_made(alloc, variables, first, done, next, out)?;
    let (value, next) = save(alloc, value, next, out)?;
    let left = copy_value(alloc, &value)?;
    let last = value_stored(alloc, variables, path, value, others, like, done, next, out)?;
    Ok((left, last))
}

// There is always a first operand; without one there would be nothing to store.
#[tactic(auto, using(crate::proofs::Storing::none_stored))]
fn none_assigned(
    alloc: Global,
    path: &Path,
    like: &Value,
    next: u32,
    out: &mut List<Core>,
) -> Result<(Value, u32), NoMemory>
    ensures { IfOk result (λ r. MadeInto out.old out.new (plans.stored_made like.now.ty like.now.line path.now (record { before = core.end; values = tree.stop; next_temp = next })) r.0 r.1) }
{
    push_store(alloc, path, List::new(alloc), like, out)?;
    Ok((no_value(alloc), next))
}

/// An assignment whose value is wanted, what comes first in its operands being done and having left `done`.
#[tactic(auto)]
pub(crate) fn assigned_from(
    alloc: Global,
    variables: &[FunctionVariable],
    path: &Path,
    operands: &[Value],
    like: &Value,
    done: &Value,
    next: u32,
    out: &mut List<Core>,
) -> Result<(Value, u32), NoMemory>
    ensures { IfOk result (λ r. MadeInto out.old out.new (plans.assigned_made (view_variables variables.now) like.now.ty like.now.line path.now (values_of (view_values operands.now)) (plans.kept (view_value done.now)) next) r.0 r.1) }
{
    match operands.split_first() {
        None => none_assigned(alloc, path, like, next, out),
        Some((first, others)) => {
            first_assigned(alloc, variables, path, first, others, like, done, next, out)
        }
    }
}
