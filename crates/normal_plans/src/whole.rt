// A whole expression: what comes first in it, and then what is left of it. What comes of it is pushed.
ghost use Rattle.std.specs.Prelude.{◌≡◌, true, IfOk};
ghost use Rattle.core_trees.specs.View.{view_variables};
ghost use Rattle.normal_steps.specs.Into.{choice_from, MadeInto, SentInto, TestsInto};
ghost use Rattle.c_runs.specs.Plans as plans;
ghost use Rattle.typed_prog.specs.Tree.{values_of};
ghost use Rattle.typed_prog.specs.View.{view_value, view_values};

use crate::flow::jumps;
use core_trees::{Core, FunctionVariable};
use normal_effects::{effect_made_from, effect_sent_from};
use normal_steps::{
    Put, after, branched, first_way, joined, no_value, push, push_flag, push_jump, put_first,
};
use normal_values::{decides, pure_made};
use std::alloc::Global;
use typed_copies::typed_as;
use typed_prog::{Connective, Effect, Value, ValueNode};
use value_facts::has_effect;
use wp_base::{List, NoMemory};

/// What is left of an expression.
#[cycle(whole)]
#[tactic(auto, using(typed_prog::proofs::Equations::view_laws, normal_steps::proofs::Joins::join_end))]
pub fn planned_made(
    alloc: Global,
    variables: &[FunctionVariable],
    value: &Value,
    next: u32,
    out: &mut List<Core>,
) -> Result<(Value, u32), NoMemory>
    ensures { IfOk result (λ r. MadeInto out.old out.new ((plans.planned (view_variables variables.now) (view_value value.now)).made next) r.0 r.1) }
{
    match &value.node {
        ValueNode::Constant(number) => {
            Ok((typed_as(alloc, ValueNode::Constant(*number), value)?, next))
        }
        ValueNode::Null => Ok((typed_as(alloc, ValueNode::Null, value)?, next)),
        ValueNode::Temporary(_) => Ok((no_value(alloc), next)),
        ValueNode::Apply(_, operands) => {
            applied_made(alloc, variables, operands.as_slice(), value, next, out)
        }
        ValueNode::Logic(how, first, second) => {
            logic_made(
                alloc,
                variables,
                *how,
                first.get(),
                second.get(),
                value,
                next,
                out,
            )
        }
        ValueNode::Choose(test, first, second) => {
            choice_made(
                alloc,
                variables,
                test.get(),
                first.get(),
                second.get(),
                value,
                next,
                out,
            )
        }
        ValueNode::Effect(effect, operands) => {
            effect_made(
                alloc,
                variables,
                effect,
                operands.as_slice(),
                value,
                next,
                out,
            )
        }
    }
}

// An operator, behind what comes first in its operands.
#[cycle(whole)]
#[tactic(auto, using(crate::proofs::Wholes::whole_done))]
fn applied_made(
    alloc: Global,
    variables: &[FunctionVariable],
    operands: &[Value],
    value: &Value,
    next: u32,
    out: &mut List<Core>,
) -> Result<(Value, u32), NoMemory>
    ensures { IfOk result (λ r. MadeInto out.old out.new (plans.whole_made (view_variables variables.now) (view_value value.now) (plans.first_plan (view_variables variables.now) (values_of (view_values operands.now))) next) r.0 r.1) }
{
    let (done, next) = first_of(alloc, variables, operands, next, out)?;
    let (left, next) = pure_made(alloc, variables, value, &done, next, out)?;
    Ok((left, next))
}

// What comes first in an expression.
#[cycle(whole)]
#[tactic(auto, using(typed_prog::proofs::Equations::view_laws, normal_steps::proofs::Joins::join_end))]
fn first_in(
    alloc: Global,
    variables: &[FunctionVariable],
    value: &Value,
    next: u32,
    out: &mut List<Core>,
) -> Result<(Value, u32), NoMemory>
    ensures { IfOk result (λ r. MadeInto out.old out.new ((plans.plans (view_variables variables.now) (view_value value.now)).first next) r.0 r.1) }
{
    match &value.node {
        ValueNode::Constant(_) => Ok((no_value(alloc), next)),
        ValueNode::Null => Ok((no_value(alloc), next)),
        ValueNode::Temporary(_) => Ok((no_value(alloc), next)),
        ValueNode::Apply(_, operands) => {
            first_of(alloc, variables, operands.as_slice(), next, out)
        }
        ValueNode::Logic(how, first, second) => {
            if has_effect(first.get()) {
                first_in(alloc, variables, first.get(), next, out)
            } else if has_effect(second.get()) {
                logic_made(
                    alloc,
                    variables,
                    *how,
                    first.get(),
                    second.get(),
                    value,
                    next,
                    out,
                )
            } else {
                Ok((no_value(alloc), next))
            }
        }
        ValueNode::Choose(test, first, second) => {
            if has_effect(test.get()) {
                first_in(alloc, variables, test.get(), next, out)
            } else if has_effect(first.get()) || has_effect(second.get()) {
                choice_made(
                    alloc,
                    variables,
                    test.get(),
                    first.get(),
                    second.get(),
                    value,
                    next,
                    out,
                )
            } else {
                Ok((no_value(alloc), next))
            }
        }
        ValueNode::Effect(effect, operands) => {
            effect_made(
                alloc,
                variables,
                effect,
                operands.as_slice(),
                value,
                next,
                out,
            )
        }
    }
}

// What comes first in operands.
#[cycle(whole)]
pub(crate) fn first_of(
    alloc: Global,
    variables: &[FunctionVariable],
    values: &[Value],
    next: u32,
    out: &mut List<Core>,
) -> Result<(Value, u32), NoMemory>
    ensures { IfOk result (λ r. MadeInto out.old out.new (plans.first_plan (view_variables variables.now) (values_of (view_values values.now)) next) r.0 r.1) }
{
    for value in values {
        if has_effect(value) {
            return first_in(alloc, variables, value, next, out);
        }
    }
    Ok((no_value(alloc), next))
}

// An effect whose value is wanted.
#[cycle(whole)]
#[tactic(auto, using(normal_effects::proofs::Behind::effect_done))]
fn effect_made(
    alloc: Global,
    variables: &[FunctionVariable],
    effect: &Effect,
    operands: &[Value],
    like: &Value,
    next: u32,
    out: &mut List<Core>,
) -> Result<(Value, u32), NoMemory>
    ensures { IfOk result (λ r. MadeInto out.old out.new ((plans.effect_plan (view_variables variables.now) like.now.ty like.now.line effect.now (values_of (view_values operands.now)) (plans.first_plan (view_variables variables.now) (values_of (view_values operands.now)))).made next) r.0 r.1) }
{
    let (done, next) = first_of(alloc, variables, operands, next, out)?;
    let (left, next) = effect_made_from(
        alloc, variables, effect, operands, like, &done, next, out,
    )?;
    Ok((left, next))
}

// An effect whose value goes to a temporary.
#[cycle(whole)]
#[tactic(auto, using(normal_effects::proofs::Behind::effect_sent_done))]
fn effect_sent(
    alloc: Global,
    variables: &[FunctionVariable],
    effect: &Effect,
    operands: &[Value],
    like: &Value,
    next: u32,
    out: &mut List<Core>,
) -> Result<(Put, u32), NoMemory>
    ensures { IfOk result (λ r. SentInto out.old out.new ((plans.effect_plan (view_variables variables.now) like.now.ty like.now.line effect.now (values_of (view_values operands.now)) (plans.first_plan (view_variables variables.now) (values_of (view_values operands.now)))).sent next) r.0 r.1) }
{
    let (done, next) = first_of(alloc, variables, operands, next, out)?;
    let (put, next) = effect_sent_from(alloc, variables, effect, operands, like, &done, next, out)?;
    Ok((put, next))
}

// An expression whose value goes to a temporary at once.
#[cycle(whole)]
#[tactic(auto, using(typed_prog::proofs::Equations::view_laws))]
fn planned_sent(
    alloc: Global,
    variables: &[FunctionVariable],
    value: &Value,
    next: u32,
    out: &mut List<Core>,
) -> Result<(Put, u32), NoMemory>
    ensures { IfOk result (λ r. SentInto out.old out.new ((plans.planned (view_variables variables.now) (view_value value.now)).sent next) r.0 r.1) }
{
    match &value.node {
        ValueNode::Effect(effect, operands) => {
            effect_sent(
                alloc,
                variables,
                effect,
                operands.as_slice(),
                value,
                next,
                out,
            )
        }
        ValueNode::Constant(_)
        | ValueNode::Null
        | ValueNode::Temporary(_)
        | ValueNode::Apply(_, _)
        | ValueNode::Logic(_, _, _)
        | ValueNode::Choose(_, _, _) => value_sent(alloc, variables, value, next, out),
    }
}

// A value that is made, and then goes to a temporary.
#[cycle(whole)]
#[tactic(auto, using(normal_values::proofs::Purely::made_sent))]
fn value_sent(
    alloc: Global,
    variables: &[FunctionVariable],
    value: &Value,
    next: u32,
    out: &mut List<Core>,
) -> Result<(Put, u32), NoMemory>
    ensures { IfOk result (λ r. SentInto out.old out.new (plans.sent_made ((plans.planned (view_variables variables.now) (view_value value.now)).made next)) r.0 r.1) }
{
    let (left, next) = planned_made(alloc, variables, value, next, out)?;
    Ok((Put::Made(left), next))
}

// A connective as a value, of the type of the expression `like`.
#[cycle(whole)]
#[tactic(auto, using(normal_steps::proofs::Conditions::flag_of))]
fn logic_made(
    alloc: Global,
    variables: &[FunctionVariable],
    how: Connective,
    first: &Value,
    second: &Value,
    like: &Value,
    next: u32,
    out: &mut List<Core>,
) -> Result<(Value, u32), NoMemory>
    ensures { IfOk result (λ r. MadeInto out.old out.new (plans.logic_made like.now.ty like.now.line how (plans.planned (view_variables variables.now) (view_value first.now)) (plans.planned (view_variables variables.now) (view_value second.now)) next) r.0 r.1) }
{
    let mut tests = List::new(alloc);
    let next = logic_test(
        alloc, variables, how, first, second, true, 0, next, &mut tests,
    )?;
    let (flag, next) = push_flag(alloc, tests, like, next, out)?;
    Ok((flag, next))
}

/// The test of a condition: it goes on where the truth is as wanted, and leaves the block where it isn't.
#[cycle(whole)]
#[tactic(auto, using(typed_prog::proofs::Equations::view_laws))]
pub fn planned_test(
    alloc: Global,
    variables: &[FunctionVariable],
    value: &Value,
    want: bool,
    block: u32,
    next: u32,
    out: &mut List<Core>,
) -> Result<u32, NoMemory>
    ensures { IfOk result (λ last. TestsInto out.old out.new ((plans.planned (view_variables variables.now) (view_value value.now)).test want block next) last) }
{
    match &value.node {
        ValueNode::Logic(how, first, second) => logic_test(
            alloc,
            variables,
            *how,
            first.get(),
            second.get(),
            want,
            block,
            next,
            out,
        ),
        ValueNode::Constant(_)
        | ValueNode::Null
        | ValueNode::Temporary(_)
        | ValueNode::Apply(_, _)
        | ValueNode::Choose(_, _, _) => leaf_test(alloc, variables, value, want, block, next, out),
        ValueNode::Effect(effect, _) => match effect {
            Effect::Assign(_) => leaf_test(alloc, variables, value, want, block, next, out),
            Effect::Update { .. } => leaf_test(alloc, variables, value, want, block, next, out),
            Effect::Call(_) => leaf_test(alloc, variables, value, want, block, next, out),
        },
    }
}

// The test of a value that is made.
#[cycle(whole)]
#[tactic(auto, using(normal_steps::proofs::Conditions::leaf_done))]
fn leaf_test(
    alloc: Global,
    variables: &[FunctionVariable],
    value: &Value,
    want: bool,
    block: u32,
    next: u32,
    out: &mut List<Core>,
) -> Result<u32, NoMemory>
    ensures { IfOk result (λ last. TestsInto out.old out.new (plans.leaf want block ((plans.planned (view_variables variables.now) (view_value value.now)).made next)) last) }
{
    let (left, next) = planned_made(alloc, variables, value, next, out)?;
    push_jump(alloc, want, block, left, out)?;
    Ok(next)
}

// The tests of both operands of a connective.
#[cycle(whole)]
#[tactic(auto, using(normal_steps::proofs::Conditions::straight_done, normal_steps::proofs::Conditions::crossed_done))]
fn logic_test(
    alloc: Global,
    variables: &[FunctionVariable],
    how: Connective,
    first: &Value,
    second: &Value,
    want: bool,
    block: u32,
    next: u32,
    out: &mut List<Core>,
) -> Result<u32, NoMemory>
    ensures { IfOk result (λ last. TestsInto out.old out.new (plans.logic_test how (plans.planned (view_variables variables.now) (view_value first.now)) (plans.planned (view_variables variables.now) (view_value second.now)) want block next) last) }
{
    if decides(how) == want {
        let outer = after(block)?;
        let mut inner = List::new(alloc);
        let next = planned_test(alloc, variables, first, !want, 0, next, &mut inner)?;
        let next = planned_test(alloc, variables, second, want, outer, next, &mut inner)?;
        push(Core::Around(inner), out)?;
        Ok(next)
    } else {
        let next = planned_test(alloc, variables, first, want, block, next, out)?;
        let next = planned_test(alloc, variables, second, want, block, next, out)?;
        Ok(next)
    }
}

// A choice, of the type of the expression `like`.
#[cycle(whole)]
#[tactic(auto, using(crate::proofs::Wholes::by_jumps, crate::proofs::Wholes::by_branch))]
fn choice_made(
    alloc: Global,
    variables: &[FunctionVariable],
    test: &Value,
    first: &Value,
    second: &Value,
    like: &Value,
    next: u32,
    out: &mut List<Core>,
) -> Result<(Value, u32), NoMemory>
    ensures { IfOk result (λ r. MadeInto out.old out.new (plans.choice_made like.now.ty like.now.line (plans.planned (view_variables variables.now) (view_value test.now)) (plans.planned (view_variables variables.now) (view_value first.now)) (plans.planned (view_variables variables.now) (view_value second.now)) next) r.0 r.1) }
{
    if jumps(test) {
        choice_by_jumps(alloc, variables, test, first, second, like, next, out)
    } else {
        choice_by_branch(alloc, variables, test, first, second, like, next, out)
    }
}

// A choice whose condition is made of jumps.
#[cycle(whole)]
fn choice_by_jumps(
    alloc: Global,
    variables: &[FunctionVariable],
    test: &Value,
    first: &Value,
    second: &Value,
    like: &Value,
    next: u32,
    out: &mut List<Core>,
) -> Result<(Value, u32), NoMemory>
    ensures { IfOk result (λ r. MadeInto out.old out.new (choice_from like.now.ty like.now.line (plans.jumps_ ((plans.planned (view_variables variables.now) (view_value test.now)).test true 0 next)) (plans.planned (view_variables variables.now) (view_value first.now)) (plans.planned (view_variables variables.now) (view_value second.now))) r.0 r.1) }
{
    let mut inner = List::new(alloc);
    let tested = planned_test(alloc, variables, test, true, 0, next, &mut inner)?;
    let (put, slot) = planned_sent(alloc, variables, first, tested, &mut inner)?;
    let (mut outer, free) = first_way(alloc, inner, put, slot)?;
    let (put, last) = planned_sent(alloc, variables, second, free, &mut outer)?;
    let left = joined(alloc, outer, put, slot, like, out)?;
    Ok((left, last))
}

// A choice whose condition is a value.
#[cycle(whole)]
fn choice_by_branch(
    alloc: Global,
    variables: &[FunctionVariable],
    test: &Value,
    first: &Value,
    second: &Value,
    like: &Value,
    next: u32,
    out: &mut List<Core>,
) -> Result<(Value, u32), NoMemory>
    ensures { IfOk result (λ r. MadeInto out.old out.new (choice_from like.now.ty like.now.line (plans.tests_ ((plans.planned (view_variables variables.now) (view_value test.now)).made next)) (plans.planned (view_variables variables.now) (view_value first.now)) (plans.planned (view_variables variables.now) (view_value second.now))) r.0 r.1) }
{
    let (tested, next) = planned_made(alloc, variables, test, next, out)?;
    let mut yes = List::new(alloc);
    let (put, slot) = planned_sent(alloc, variables, first, next, &mut yes)?;
    let free = put_first(put, slot, &mut yes)?;
    let mut no = List::new(alloc);
    let (put, last) = planned_sent(alloc, variables, second, free, &mut no)?;
    let left = branched(alloc, tested, yes, no, put, slot, like, out)?;
    Ok((left, last))
}
