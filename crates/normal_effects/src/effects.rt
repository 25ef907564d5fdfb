// Effects, what comes first in their operands being done.
ghost use Rattle.std.specs.Prelude.{◌≡◌, IfOk};
ghost use Rattle.core_trees.specs.View.{view_variables};
ghost use Rattle.normal_steps.specs.Into.{MadeInto, SentInto};
ghost use Rattle.c_runs.specs.Plans as plans;
ghost use Rattle.typed_prog.specs.Tree.{values_of};
ghost use Rattle.typed_prog.specs.View.{view_value, view_values};

use crate::assigned::assigned_from;
use crate::builds::updated;
use crate::calls::{called_from, put_sent};
use crate::postfix::postfix_from;
use core_trees::{Core, FunctionVariable};
use normal_steps::Put;
use std::alloc::Global;
use typed_prog::{Change, Effect, Path, UpdateForm, Value};
use wp_base::{List, NoMemory};

#[tactic(auto, using(crate::proofs::Storing::updated_done))]
fn update_from(
    alloc: Global,
    variables: &[FunctionVariable],
    path: &Path,
    by: Change,
    form: UpdateForm,
    operands: &[Value],
    like: &Value,
    done: &Value,
    next: u32,
    out: &mut List<Core>,
) -> Result<(Value, u32), NoMemory>
    ensures { IfOk result (λ r. MadeInto out.old out.new (plans.update_made (view_variables variables.now) like.now.ty like.now.line path.now by form (values_of (view_values operands.now)) (plans.kept (view_value done.now)) next) r.0 r.1) }
{
    match form {
        UpdateForm::Postfix => {
            postfix_from(alloc, variables, path, by, operands, like, done, next, out)
        }
        UpdateForm::Compound | UpdateForm::Prefix => {
            let values = updated(alloc, path, by, operands, like)?;
            let (left, next) = assigned_from(
                alloc,
                variables,
                path,
                values.as_slice(),
                like,
                done,
                next,
                out,
            )?;
            Ok((left, next))
        }
    }
}

/// An effect whose value is wanted, with the type and the line of `like`.
#[tactic(auto, using(crate::proofs::Calling::sent_value_done))]
pub fn effect_made_from(
    alloc: Global,
    variables: &[FunctionVariable],
    effect: &Effect,
    operands: &[Value],
    like: &Value,
    done: &Value,
    next: u32,
    out: &mut List<Core>,
) -> Result<(Value, u32), NoMemory>
    ensures { IfOk result (λ r. MadeInto out.old out.new ((plans.effect_plan (view_variables variables.now) like.now.ty like.now.line effect.now (values_of (view_values operands.now)) (plans.kept (view_value done.now))).made next) r.0 r.1) }
{
    match effect {
        Effect::Assign(path) => {
            assigned_from(alloc, variables, path, operands, like, done, next, out)
        }
        Effect::Update { path, by, form } => {
            update_from(
                alloc, variables, path, *by, *form, operands, like, done, next, out,
            )
        }
        Effect::Call(function) => {
            let (put, slot) = called_from(
                alloc, variables, *function, like.line, operands, done, next, out,
            )?;
            let (left, next) = put_sent(alloc, put, like, slot, out)?;
            Ok((left, next))
        }
    }
}

/// An effect whose value goes to a temporary.
#[tactic(auto, using(normal_values::proofs::Purely::made_sent))]
pub fn effect_sent_from(
    alloc: Global,
    variables: &[FunctionVariable],
    effect: &Effect,
    operands: &[Value],
    like: &Value,
    done: &Value,
    next: u32,
    out: &mut List<Core>,
) -> Result<(Put, u32), NoMemory>
    ensures { IfOk result (λ r. SentInto out.old out.new ((plans.effect_plan (view_variables variables.now) like.now.ty like.now.line effect.now (values_of (view_values operands.now)) (plans.kept (view_value done.now))).sent next) r.0 r.1) }
{
    match effect {
        Effect::Call(function) => called_from(
            alloc, variables, *function, like.line, operands, done, next, out,
        ),
        Effect::Assign(_) => {
            let (left, next) = effect_made_from(
                alloc, variables, effect, operands, like, done, next, out,
            )?;
            Ok((Put::Made(left), next))
        }
        Effect::Update { .. } => {
            let (left, next) = effect_made_from(
                alloc, variables, effect, operands, like, done, next, out,
            )?;
            Ok((Put::Made(left), next))
        }
    }
}
