// Expressions that are done for their effect, and values that variables are declared with (C11 6.7.9, 6.8.3).
ghost use Rattle.std.specs.Prelude.{◌≡◌, IfOk};
ghost use Rattle.c_runs.specs.Run as run;
ghost use Rattle.core_trees.specs.View.{view_variables};
ghost use Rattle.normal_plans.specs.Calls.{starting};
ghost use Rattle.normal_steps.specs.Into.{DidInto};
ghost use Rattle.c_runs.specs.Normal as normal;
ghost use Rattle.c_runs.specs.Plans as plans;
ghost use Rattle.typed_prog.specs.Tree as tree;
ghost use Rattle.typed_prog.specs.Tree.{values_of};
ghost use Rattle.typed_prog.specs.View.{view_value, view_values};

use crate::flow::call_of;
use crate::operands::{call_into, place_of, plain_store};
use crate::whole::planned_made;
use core_trees::{Core, FunctionVariable, Target};
use normal_effects::updated;
use normal_steps::{push, save};
use std::alloc::Global;
use typed_prog::{Change, Effect, Path, Value, ValueNode};
use value_facts::{have_effect, is_temp, need};
use wp_base::{Line, List, NoMemory};

// ---- assignments

// The result of a call goes to the object at once.
#[tactic(auto, using(crate::proofs::Alone::called_to_done))]
fn called_to(
    alloc: Global,
    variables: &[FunctionVariable],
    path: &Path,
    line: Line,
    function: u32,
    arguments: &[Value],
    others: &[Value],
    like: &Value,
    next: u32,
    out: &mut List<Core>,
) -> Result<u32, NoMemory>
    ensures { IfOk result (λ last. DidInto out.old out.new (normal.called_to (view_variables variables.now) like.now.ty like.now.line path.now line function (values_of (view_values arguments.now)) (values_of (view_values others.now)) next) last) }
{
    let to = place_of(alloc, variables, path, others, like, next)?;
    let last = call_into(alloc, variables, to, function, line, arguments, next, out)?;
    Ok(last)
}

// An assignment whose value isn't wanted. These are its operands, the value first.
#[tactic(auto, using(crate::proofs::Alone::stored_none, crate::proofs::Alone::stored_plain, crate::proofs::Alone::stored_busy, crate::proofs::Alone::stored_call))]
fn stored(
    alloc: Global,
    variables: &[FunctionVariable],
    path: &Path,
    operands: &[Value],
    like: &Value,
    next: u32,
    out: &mut List<Core>,
) -> Result<u32, NoMemory>
    ensures { IfOk result (λ last. DidInto out.old out.new (normal.stored (view_variables variables.now) like.now.ty like.now.line path.now (values_of (view_values operands.now)) next) last) }
{
    let Some((first, others)) = operands.split_first() else {
        let last = plain_store(alloc, variables, path, operands, operands, like, next, out)?;
        return Ok(last);
    };
    let busy = need(others) || have_effect(others);
    match call_of(first) {
        Some((function, arguments)) => {
            if busy {
                let last = plain_store(
                    alloc, variables, path, operands, operands, like, next, out,
                )?;
                Ok(last)
            } else {
                let last = called_to(
                    alloc, variables, path, first.line, function, arguments, others, like, next,
                    out,
                )?;
                Ok(last)
            }
        }
        None => {
            let last = plain_store(alloc, variables, path, operands, operands, like, next, out)?;
            Ok(last)
        }
    }
}

// ---- expressions

// A value that isn't wanted goes to a temporary for its checks, unless it is one.
#[tactic(auto, using(crate::proofs::Alone::dropped_kept, crate::proofs::Alone::dropped_saved))]
fn dropped(
    alloc: Global,
    variables: &[FunctionVariable],
    value: &Value,
    next: u32,
    out: &mut List<Core>,
) -> Result<u32, NoMemory>
    ensures { IfOk result (λ last. DidInto out.old out.new (normal.dropped ((plans.planned (view_variables variables.now) (view_value value.now)).made next)) last) }
{
    let (left, next) = planned_made(alloc, variables, value, next, out)?;
    if is_temp(&left) {
        return Ok(next);
    }
    let (_, last) = save(alloc, left, next, out)?;
    Ok(last)
}

// An update whose value isn't wanted is the assignment that it stands for.
#[tactic(auto, using(crate::proofs::Alone::updating_done))]
fn update_alone(
    alloc: Global,
    variables: &[FunctionVariable],
    path: &Path,
    by: Change,
    operands: &[Value],
    like: &Value,
    next: u32,
    out: &mut List<Core>,
) -> Result<u32, NoMemory>
    ensures { IfOk result (λ last. DidInto out.old out.new (normal.plain_store (view_variables variables.now) like.now.ty like.now.line path.now (plans.operands (view_variables variables.now) (run.updating path.now by like.now.ty like.now.line (values_of (view_values operands.now))) (plans.first_plan (view_variables variables.now) (values_of (view_values operands.now))) next)) last) }
{
    let values = updated(alloc, path, by, operands, like)?;
    let last = plain_store(
        alloc,
        variables,
        path,
        operands,
        values.as_slice(),
        like,
        next,
        out,
    )?;
    Ok(last)
}

fn effect_alone(
    alloc: Global,
    variables: &[FunctionVariable],
    effect: &Effect,
    operands: &[Value],
    like: &Value,
    next: u32,
    out: &mut List<Core>,
) -> Result<u32, NoMemory>
    ensures { IfOk result (λ last. DidInto out.old out.new (normal.effect_of (view_variables variables.now) (tree.typed (tree.effect effect.now (values_of (view_values operands.now))) like.now.ty like.now.line) next) last) }
{
    match effect {
        Effect::Assign(path) => stored(alloc, variables, path, operands, like, next, out),
        Effect::Update { path, by, .. } => {
            update_alone(alloc, variables, path, *by, operands, like, next, out)
        }
        Effect::Call(function) => call_into(
            alloc,
            variables,
            Target::Nowhere,
            *function,
            like.line,
            operands,
            next,
            out,
        ),
    }
}

/// An expression that is done for its effect and its checks.
#[tactic(auto, using(typed_prog::proofs::Equations::view_laws))]
pub fn effect_of(
    alloc: Global,
    variables: &[FunctionVariable],
    value: &Value,
    next: u32,
    out: &mut List<Core>,
) -> Result<u32, NoMemory>
    ensures { IfOk result (λ last. DidInto out.old out.new (normal.effect_of (view_variables variables.now) (view_value value.now) next) last) }
{
    match &value.node {
        ValueNode::Effect(effect, operands) => {
            effect_alone(
                alloc,
                variables,
                effect,
                operands.as_slice(),
                value,
                next,
                out,
            )
        }
        ValueNode::Constant(_)
        | ValueNode::Null
        | ValueNode::Temporary(_)
        | ValueNode::Apply(_, _)
        | ValueNode::Logic(_, _, _)
        | ValueNode::Choose(_, _, _) => dropped(alloc, variables, value, next, out),
    }
}

// ---- declared variables

#[tactic(auto, using(core_trees::proofs::Equations::core_laws, crate::proofs::Alone::starting_done))]
fn value_started(
    alloc: Global,
    variables: &[FunctionVariable],
    variable: u32,
    value: &Value,
    next: u32,
    out: &mut List<Core>,
) -> Result<u32, NoMemory>
    ensures { IfOk result (λ last. DidInto out.old out.new (starting variable ((plans.planned (view_variables variables.now) (view_value value.now)).made next)) last) }
{
    let (left, last) = planned_made(alloc, variables, value, next, out)?;
    push(Core::Start(variable, left), out)?;
    Ok(last)
}

/// The variable with this number gets the value that it is declared with.
#[tactic(auto, using(crate::proofs::Alone::started_call, crate::proofs::Alone::started_value))]
pub fn started(
    alloc: Global,
    variables: &[FunctionVariable],
    variable: u32,
    value: &Value,
    next: u32,
    out: &mut List<Core>,
) -> Result<u32, NoMemory>
    ensures { IfOk result (λ last. DidInto out.old out.new (normal.started (view_variables variables.now) variable (view_value value.now) next) last) }
{
    match call_of(value) {
        Some((function, arguments)) => {
            let to = Target::Variable(variable);
            let last = call_into(
                alloc, variables, to, function, value.line, arguments, next, out,
            )?;
            Ok(last)
        }
        None => {
            let last = value_started(alloc, variables, variable, value, next, out)?;
            Ok(last)
        }
    }
}
