// Statements on operands, behind what comes first in these.
ghost use Rattle.std.specs.Prelude.{◌≡◌, IfOk};
ghost use Rattle.c_runs.specs.Core as core;
ghost use Rattle.core_trees.specs.View.{view_target, view_variables};
ghost use Rattle.normal_steps.specs.Into.{DidInto, MadesInto};
ghost use Rattle.c_runs.specs.Normal as normal;
ghost use Rattle.c_runs.specs.Plans as plans;
ghost use Rattle.typed_prog.specs.Tree.{values_of};
ghost use Rattle.typed_prog.specs.View.{view_values};

use crate::whole::first_of;
use core_trees::{Core, FunctionVariable, Target};
use normal_effects::push_store;
use normal_steps::{no_value, push};
use normal_values::pures;
use std::alloc::Global;
use typed_copies::copy_path;
use typed_prog::{Path, Value};
use wp_base::{Line, List, NoMemory};

// Operands, behind what comes first in the operands `from`.
#[tactic(auto, using(crate::proofs::Alone::operands_done))]
fn operands_of(
    alloc: Global,
    variables: &[FunctionVariable],
    from: &[Value],
    operands: &[Value],
    next: u32,
    out: &mut List<Core>,
) -> Result<(List<Value>, u32), NoMemory>
    ensures { IfOk result (λ r. MadesInto out.old out.new (plans.operands (view_variables variables.now) (values_of (view_values operands.now)) (plans.first_plan (view_variables variables.now) (values_of (view_values from.now))) next) r.0 r.1) }
{
    let (done, next) = first_of(alloc, variables, from, next, out)?;
    let (operands, next) = pures(alloc, variables, operands, &done, next, out)?;
    Ok((operands, next))
}

// A store whose value isn't wanted.
#[tactic(auto, using(crate::proofs::Alone::plain_store_done))]
pub(crate) fn plain_store(
    alloc: Global,
    variables: &[FunctionVariable],
    path: &Path,
    from: &[Value],
    operands: &[Value],
    like: &Value,
    next: u32,
    out: &mut List<Core>,
) -> Result<u32, NoMemory>
    ensures { IfOk result (λ last. DidInto out.old out.new (normal.plain_store (view_variables variables.now) like.now.ty like.now.line path.now (plans.operands (view_variables variables.now) (values_of (view_values operands.now)) (plans.first_plan (view_variables variables.now) (values_of (view_values from.now))) next)) last) }
{
    let (values, last) = operands_of(alloc, variables, from, operands, next, out)?;
    push_store(alloc, path, values, like, out)?;
    Ok(last)
}

// A call whose result goes where it is wanted at once.
#[tactic(auto, using(crate::proofs::Alone::call_done))]
pub(crate) fn call_into(
    alloc: Global,
    variables: &[FunctionVariable],
    to: Target,
    function: u32,
    line: Line,
    operands: &[Value],
    next: u32,
    out: &mut List<Core>,
) -> Result<u32, NoMemory>
    ensures { IfOk result (λ last. DidInto out.old out.new (normal.called_into (view_target to) line function (plans.operands (view_variables variables.now) (values_of (view_values operands.now)) (plans.first_plan (view_variables variables.now) (values_of (view_values operands.now))) next)) last) }
{
    let (arguments, last) = operands_of(alloc, variables, operands, operands, next, out)?;
    push(Core::Call(to, function, line, arguments), out)?;
    Ok(last)
}

// The object of the type of `like` that a way leads to, whose operands ask for nothing that has to be done before.
#[tactic(auto, using(crate::proofs::Alone::place_is))]
pub(crate) fn place_of(
    alloc: Global,
    variables: &[FunctionVariable],
    path: &Path,
    others: &[Value],
    like: &Value,
    next: u32,
) -> Result<Target, NoMemory>
    ensures { IfOk result (λ to. view_target to ≡ core.place like.now.ty like.now.line path.now (plans.pures (view_variables variables.now) plans.no_value (values_of (view_values others.now)) next).values) }
{
    let none = no_value(alloc);
    let mut nothing = List::new(alloc);
    let (way, _) = pures(alloc, variables, others, &none, next, &mut nothing)?;
    let path = copy_path(alloc, path)?;
    let ty = like.ty.copy(alloc)?;
    Ok(Target::Place(ty, like.line, path, way))
}
