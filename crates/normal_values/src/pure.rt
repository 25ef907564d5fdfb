// An expression whose effect is done and left a value. What comes of it is pushed, and what is left of it is answered with the next temporary.
ghost use Rattle.std.specs.Prelude.{◌≡◌, true, IfOk};
ghost use Rattle.core_trees.specs.View.{view_variables};
ghost use Rattle.c_runs.specs.Plans as plans;
ghost use Rattle.normal_steps.specs.Into.{choice_from, MadeInto, MadesInto, TestsInto};
ghost use Rattle.typed_prog.specs.Tree.{values_of};
ghost use Rattle.typed_prog.specs.declared.tree.ValueNode.TheVariants as node;
ghost use Rattle.typed_prog.specs.View.{view_value, view_values};

use crate::flow::{decides, is_flow};
use core_trees::{Core, FunctionVariable};
use normal_steps::{
    Put, after, branched, first_way, joined, no_value, push, push_flag, push_jump, put_first,
    save_if,
};
use std::alloc::Global;
use typed_copies::{copy_op, copy_value, typed_as};
use typed_prog::{Connective, Op, Value, ValueNode};
use value_facts::{has_effect, need_from};
use wp_base::{List, NoMemory};

// The operator on operands that were made, with the type and the line of an expression.
fn applied(alloc: Global, op: &Op, operands: List<Value>, like: &Value) -> Result<Value, NoMemory>
    ensures { IfOk result (λ made. made ≡ record { node = node.Apply op.now operands; ty = like.now.ty; line = like.now.line }) }
{
    let op = copy_op(alloc, op)?;
    typed_as(alloc, ValueNode::Apply(op, operands), like)
}

/// What is left of an expression whose effect is done and left the value `done`.
#[cycle(pure)]
#[tactic(auto, using(typed_prog::proofs::Equations::view_laws, normal_steps::proofs::Joins::join_end, crate::proofs::Purely::op_done, crate::proofs::Purely::by_jumps, crate::proofs::Purely::by_branch))]
pub fn pure_made(
    alloc: Global,
    variables: &[FunctionVariable],
    value: &Value,
    done: &Value,
    next: u32,
    out: &mut List<Core>,
) -> Result<(Value, u32), NoMemory>
    ensures { IfOk result (λ r. MadeInto out.old out.new ((plans.pure (view_variables variables.now) (view_value done.now) (view_value value.now)).made next) r.0 r.1) }
{
    match &value.node {
        ValueNode::Constant(number) => {
            Ok((typed_as(alloc, ValueNode::Constant(*number), value)?, next))
        }
        ValueNode::Null => Ok((typed_as(alloc, ValueNode::Null, value)?, next)),
        ValueNode::Temporary(_) => Ok((no_value(alloc), next)),
        ValueNode::Apply(op, operands) => {
            let (operands, next) = pures(alloc, variables, operands.as_slice(), done, next, out)?;
            Ok((applied(alloc, op, operands, value)?, next))
        }
        ValueNode::Logic(how, first, second) => {
            if has_effect(second.get()) {
                Ok((copy_value(alloc, done)?, next))
            } else {
                logic_made(
                    alloc,
                    variables,
                    *how,
                    first.get(),
                    second.get(),
                    value,
                    done,
                    next,
                    out,
                )
            }
        }
        ValueNode::Choose(test, first, second) => {
            if has_effect(first.get()) || has_effect(second.get()) {
                Ok((copy_value(alloc, done)?, next))
            } else if is_flow(test.get()) {
                choice_by_jumps(
                    alloc,
                    variables,
                    test.get(),
                    first.get(),
                    second.get(),
                    value,
                    done,
                    next,
                    out,
                )
            } else {
                choice_by_branch(
                    alloc,
                    variables,
                    test.get(),
                    first.get(),
                    second.get(),
                    value,
                    done,
                    next,
                    out,
                )
            }
        }
        ValueNode::Effect(_, _) => Ok((copy_value(alloc, done)?, next)),
    }
}

/// Operands: one with checks goes to a temporary where a later one needs statements.
#[cycle(pure)]
pub fn pures(
    alloc: Global,
    variables: &[FunctionVariable],
    values: &[Value],
    done: &Value,
    next: u32,
    out: &mut List<Core>,
) -> Result<(List<Value>, u32), NoMemory>
    ensures { IfOk result (λ r. MadesInto out.old out.new (plans.pures (view_variables variables.now) (view_value done.now) (values_of (view_values values.now)) next) r.0 r.1) }
{
    let mut operands = List::new(alloc);
    let mut next = next;
    let mut at = 0;
    for value in values {
        at += 1;
        let (operand, used) = pure_made(alloc, variables, value, done, next, out)?;
        let needed = need_from(values, at);
        let (operand, used) = save_if(alloc, needed, variables, operand, used, out)?;
        operands.push(operand)?;
        next = used;
    }
    Ok((operands, next))
}

// A connective as a value, of the type of the expression `like`.
#[cycle(pure)]
#[tactic(auto, using(normal_steps::proofs::Conditions::flag_of))]
fn logic_made(
    alloc: Global,
    variables: &[FunctionVariable],
    how: Connective,
    first: &Value,
    second: &Value,
    like: &Value,
    done: &Value,
    next: u32,
    out: &mut List<Core>,
) -> Result<(Value, u32), NoMemory>
    ensures { IfOk result (λ r. MadeInto out.old out.new (plans.logic_made like.now.ty like.now.line how (plans.pure (view_variables variables.now) (view_value done.now) (view_value first.now)) (plans.pure (view_variables variables.now) (view_value done.now) (view_value second.now)) next) r.0 r.1) }
{
    let mut tests = List::new(alloc);
    let next = logic_test(
        alloc, variables, how, first, second, done, true, 0, next, &mut tests,
    )?;
    let (flag, next) = push_flag(alloc, tests, like, next, out)?;
    Ok((flag, next))
}

/// The test of a condition: it goes on where the truth is as wanted, and leaves the block where it isn't.
#[cycle(pure)]
#[tactic(auto, using(typed_prog::proofs::Equations::view_laws))]
pub fn pure_test(
    alloc: Global,
    variables: &[FunctionVariable],
    value: &Value,
    done: &Value,
    want: bool,
    block: u32,
    next: u32,
    out: &mut List<Core>,
) -> Result<u32, NoMemory>
    ensures { IfOk result (λ last. TestsInto out.old out.new ((plans.pure (view_variables variables.now) (view_value done.now) (view_value value.now)).test want block next) last) }
{
    match &value.node {
        ValueNode::Logic(how, first, second) => {
            if has_effect(second.get()) {
                leaf_test(alloc, variables, value, done, want, block, next, out)
            } else {
                logic_test(
                    alloc,
                    variables,
                    *how,
                    first.get(),
                    second.get(),
                    done,
                    want,
                    block,
                    next,
                    out,
                )
            }
        }
        ValueNode::Constant(_)
        | ValueNode::Null
        | ValueNode::Temporary(_)
        | ValueNode::Apply(_, _)
        | ValueNode::Choose(_, _, _)
        | ValueNode::Effect(_, _) => {
            leaf_test(alloc, variables, value, done, want, block, next, out)
        }
    }
}

// The test of a value that is made.
#[cycle(pure)]
#[tactic(auto, using(normal_steps::proofs::Conditions::leaf_done))]
fn leaf_test(
    alloc: Global,
    variables: &[FunctionVariable],
    value: &Value,
    done: &Value,
    want: bool,
    block: u32,
    next: u32,
    out: &mut List<Core>,
) -> Result<u32, NoMemory>
    ensures { IfOk result (λ last. TestsInto out.old out.new (plans.leaf want block ((plans.pure (view_variables variables.now) (view_value done.now) (view_value value.now)).made next)) last) }
{
    let (value, next) = pure_made(alloc, variables, value, done, next, out)?;
    push_jump(alloc, want, block, value, out)?;
    Ok(next)
}

// The tests of both operands of a connective.
#[cycle(pure)]
#[tactic(auto, using(normal_steps::proofs::Conditions::straight_done, normal_steps::proofs::Conditions::crossed_done))]
fn logic_test(
    alloc: Global,
    variables: &[FunctionVariable],
    how: Connective,
    first: &Value,
    second: &Value,
    done: &Value,
    want: bool,
    block: u32,
    next: u32,
    out: &mut List<Core>,
) -> Result<u32, NoMemory>
    ensures { IfOk result (λ last. TestsInto out.old out.new (plans.logic_test how (plans.pure (view_variables variables.now) (view_value done.now) (view_value first.now)) (plans.pure (view_variables variables.now) (view_value done.now) (view_value second.now)) want block next) last) }
{
    if decides(how) == want {
        let outer = after(block)?;
        let mut inner = List::new(alloc);
        let next = pure_test(alloc, variables, first, done, !want, 0, next, &mut inner)?;
        let next = pure_test(
            alloc, variables, second, done, want, outer, next, &mut inner,
        )?;
        push(Core::Around(inner), out)?;
        Ok(next)
    } else {
        let next = pure_test(alloc, variables, first, done, want, block, next, out)?;
        let next = pure_test(alloc, variables, second, done, want, block, next, out)?;
        Ok(next)
    }
}

// A choice whose condition is made of jumps.
#[cycle(pure)]
fn choice_by_jumps(
    alloc: Global,
    variables: &[FunctionVariable],
    test: &Value,
    first: &Value,
    second: &Value,
    like: &Value,
    done: &Value,
    next: u32,
    out: &mut List<Core>,
) -> Result<(Value, u32), NoMemory>
    ensures { IfOk result (λ r. MadeInto out.old out.new (choice_from like.now.ty like.now.line (plans.jumps_ ((plans.pure (view_variables variables.now) (view_value done.now) (view_value test.now)).test true 0 next)) (plans.pure (view_variables variables.now) (view_value done.now) (view_value first.now)) (plans.pure (view_variables variables.now) (view_value done.now) (view_value second.now))) r.0 r.1) }
{
    let mut inner = List::new(alloc);
    let tested = pure_test(alloc, variables, test, done, true, 0, next, &mut inner)?;
    let (value, slot) = pure_made(alloc, variables, first, done, tested, &mut inner)?;
    let (mut outer, free) = first_way(alloc, inner, Put::Made(value), slot)?;
    let (value, last) = pure_made(alloc, variables, second, done, free, &mut outer)?;
    let left = joined(alloc, outer, Put::Made(value), slot, like, out)?;
    Ok((left, last))
}

// A choice whose condition is a value.
#[cycle(pure)]
fn choice_by_branch(
    alloc: Global,
    variables: &[FunctionVariable],
    test: &Value,
    first: &Value,
    second: &Value,
    like: &Value,
    done: &Value,
    next: u32,
    out: &mut List<Core>,
) -> Result<(Value, u32), NoMemory>
    ensures { IfOk result (λ r. MadeInto out.old out.new (choice_from like.now.ty like.now.line (plans.tests_ ((plans.pure (view_variables variables.now) (view_value done.now) (view_value test.now)).made next)) (plans.pure (view_variables variables.now) (view_value done.now) (view_value first.now)) (plans.pure (view_variables variables.now) (view_value done.now) (view_value second.now))) r.0 r.1) }
{
    let (tested, next) = pure_made(alloc, variables, test, done, next, out)?;
    let mut yes = List::new(alloc);
    let (value, slot) = pure_made(alloc, variables, first, done, next, &mut yes)?;
    let free = put_first(Put::Made(value), slot, &mut yes)?;
    let mut no = List::new(alloc);
    let (value, last) = pure_made(alloc, variables, second, done, free, &mut no)?;
    let left = branched(alloc, tested, yes, no, Put::Made(value), slot, like, out)?;
    Ok((left, last))
}
