// Single statements, pushed behind those that are there.
ghost use Rattle.std.specs.Prelude.{◌≡◌, [], IfOk};
ghost use Rattle.c_runs.specs.Core.{join, one, around, branch, exit, claim as claim_of, scope};
ghost use Rattle.core_trees.specs.View.{view_claim, view_cores, view_loop, view_variables};
ghost use Rattle.normal_bodies.specs.Parts as spec;
ghost use Rattle.normal_steps.specs.Into.{DidInto, MadeInto, TestsInto};
ghost use Rattle.c_runs.specs.Normal as normal;
ghost use Rattle.c_runs.specs.Plans as plans;
ghost use Rattle.program_trees.specs.View.{view_option, view_stmts};
ghost use Rattle.typed_prog.specs.View.{view_value};

use crate::claims::{copy_claim, copy_loop};
use crate::dispatch::dispatched;
use core_trees::{Claim, Core, FunctionVariable, Loop};
use normal_plans::{effect_of, planned_made, planned_test};
use normal_steps::{push, save};
use program_trees::{Stmt, Turns};
use std::alloc::Global;
use typed_prog::Value;
use value_facts::is_settled;
use wp_base::{List, NoMemory};

/// A block of these variables.
#[tactic(auto, using(core_trees::proofs::Equations::core_laws))]
pub(crate) fn scoped(
    alloc: Global,
    variables: &List<u32>,
    body: List<Core>,
    out: &mut List<Core>,
) -> Result<(), NoMemory>
    ensures { IfOk result (λ _. view_cores out.new ≡ join (view_cores out.old) (one (scope variables.now (view_cores body)))) }
{
    let variables = Vec::from_slice(alloc, variables.as_slice())?;
    push(Core::Scope(List::from_vec(variables), body), out)
}

/// A block that an exit leaves.
#[tactic(auto, using(core_trees::proofs::Equations::core_laws))]
pub(crate) fn push_around(body: List<Core>, out: &mut List<Core>) -> Result<(), NoMemory>
    ensures { IfOk result (λ _. view_cores out.new ≡ join (view_cores out.old) (one (around (view_cores body)))) }
{
    push(Core::Around(body), out)
}

/// That block alone.
pub(crate) fn around_all(alloc: Global, body: List<Core>) -> Result<List<Core>, NoMemory>
    ensures { IfOk result (λ made. view_cores made ≡ one (around (view_cores body))) }
{
    let mut made = List::new(alloc);
    push_around(body, &mut made)?;
    Ok(made)
}

/// Two ways by the truth of a value.
#[tactic(auto, using(core_trees::proofs::Equations::core_laws))]
pub(crate) fn push_branch(
    test: Value,
    first: List<Core>,
    second: List<Core>,
    out: &mut List<Core>,
) -> Result<(), NoMemory>
    ensures { IfOk result (λ _. view_cores out.new ≡ join (view_cores out.old) (one (branch (view_value test) (view_cores first) (view_cores second)))) }
{
    push(Core::Branch(test, first, second), out)
}

/// The block with this number is left.
#[tactic(auto, using(core_trees::proofs::Equations::core_laws, crate::proofs::Doing::one_done))]
pub(crate) fn push_exit(block: u32, next: u32, out: &mut List<Core>) -> Result<u32, NoMemory>
    ensures { IfOk result (λ n. DidInto out.old out.new (spec.alone (exit block) next) n) }
{
    push(Core::Exit(block), out)?;
    Ok(next)
}

/// An assertion.
#[tactic(auto, using(core_trees::proofs::Equations::core_laws, crate::proofs::Doing::one_done))]
pub(crate) fn push_claim(
    alloc: Global,
    claim: &Claim,
    next: u32,
    out: &mut List<Core>,
) -> Result<u32, NoMemory>
    ensures { IfOk result (λ n. DidInto out.old out.new (spec.alone (claim_of (view_claim claim.now)) next) n) }
{
    let claim = copy_claim(alloc, claim)?;
    push(Core::Claim(claim), out)?;
    Ok(next)
}

/// The function returns.
#[tactic(auto, using(crate::proofs::Doing::given_nothing, crate::proofs::Doing::given_value))]
pub(crate) fn given(
    alloc: Global,
    variables: &[FunctionVariable],
    value: Option<&Value>,
    next: u32,
    out: &mut List<Core>,
) -> Result<u32, NoMemory>
    ensures { IfOk result (λ n. DidInto out.old out.new (normal.given (view_variables variables.now) (view_option value.entry) next) n) }
{
    match value {
        None => {
            push(Core::Give(None), out)?;
            Ok(next)
        }
        Some(value) => {
            let (value, next) = planned_made(alloc, variables, value, next, out)?;
            push(Core::Give(Some(value)), out)?;
            Ok(next)
        }
    }
}

// ---- loops

/// A test of a loop, which goes on where it is true.
#[tactic(auto, using(crate::proofs::Doing::no_test))]
pub(crate) fn loop_test(
    alloc: Global,
    variables: &[FunctionVariable],
    test: Option<&Value>,
    next: u32,
    out: &mut List<Core>,
) -> Result<u32, NoMemory>
    ensures { IfOk result (λ n. TestsInto out.old out.new (normal.loop_test (view_variables variables.now) (view_option test.entry) next) n) }
{
    match test {
        None => Ok(next),
        Some(test) => planned_test(alloc, variables, test, true, 0, next, out),
    }
}

#[tactic(auto, using(crate::proofs::Doing::no_step))]
fn loop_step(
    alloc: Global,
    variables: &[FunctionVariable],
    step: Option<&Value>,
    next: u32,
    out: &mut List<Core>,
) -> Result<u32, NoMemory>
    ensures { IfOk result (λ n. DidInto out.old out.new (normal.loop_step (view_variables variables.now) (view_option step.entry) next) n) }
{
    match step {
        None => Ok(next),
        Some(step) => effect_of(alloc, variables, step, next, out),
    }
}

#[tactic(auto, using(core_trees::proofs::Equations::core_laws))]
fn push_repeat(
    alloc: Global,
    claims: &Loop,
    body: List<Core>,
    out: &mut List<Core>,
) -> Result<(), NoMemory>
    ensures { IfOk result (λ _. view_cores out.new ≡ join (view_cores out.old) (spec.loop_of (view_loop claims.now) (view_cores body))) }
{
    let claims = copy_loop(alloc, claims)?;
    let mut made = List::new(alloc);
    push(Core::Repeat(claims, body), &mut made)?;
    push_around(made, out)
}

/// A loop from its body on, behind the test before that.

pub(crate) fn loop_from(
    alloc: Global,
    variables: &[FunctionVariable],
    claims: &Loop,
    turns: Turns<'_>,
    before: List<Core>,
    body: List<Core>,
    next: u32,
    out: &mut List<Core>,
) -> Result<u32, NoMemory>
    ensures { IfOk result (λ n. DidInto out.old out.new (spec.loop_from (view_variables variables.now) (view_loop claims.now) (view_option turns.entry.step) (view_option turns.entry.behind) (view_cores before) (view_cores body) next) n) }
{
    let mut inner = before;
    push_around(body, &mut inner)?;
    let next = loop_step(alloc, variables, turns.step, next, &mut inner)?;
    let next = loop_test(alloc, variables, turns.behind, next, &mut inner)?;
    push_repeat(alloc, claims, inner, out)?;
    Ok(next)
}

// ---- switches

// A value stays as it is, or goes to a temporary.
#[tactic(auto, using(crate::proofs::Doing::stays, crate::proofs::Doing::goes))]
fn settled(
    alloc: Global,
    value: Value,
    next: u32,
    out: &mut List<Core>,
) -> Result<(Value, u32), NoMemory>
    ensures { IfOk result (λ r. MadeInto out.old out.new (normal.save_unless (normal.is_settled (view_value value)) (plans.kept (view_value value) next)) r.0 r.1) }
{
    if is_settled(&value) {
        return Ok((value, next));
    }
    save(alloc, value, next, out)
}

/// The operand of a switch, and then what leads to its labels, which is answered with the next temporary.

pub(crate) fn switch_begun(
    alloc: Global,
    variables: &[FunctionVariable],
    value: &Value,
    body: &[Stmt<'_>],
    next: u32,
    out: &mut List<Core>,
) -> Result<(List<Core>, u32), NoMemory>
    ensures { IfOk result (λ r. spec.Begins (view_cores out.old) (view_cores out.new) (spec.operand (view_variables variables.now) (view_value value.now) next) (view_stmts body.now) (view_cores r.0) r.1) }
{
    let (value, next) = planned_made(alloc, variables, value, next, out)?;
    let (value, next) = settled(alloc, value, next, out)?;
    let lead = dispatched(alloc, &value, body)?;
    Ok((lead, next))
}

/// The block of a group of labels is closed.
pub(crate) fn close(alloc: Global, is_open: bool, out: &mut List<Core>) -> Result<(), NoMemory>
    ensures { IfOk result (λ _. view_cores out.new ≡ normal.close is_open (view_cores out.old)) }
{
    if !is_open {
        return Ok(());
    }
    let inner = std::mem::replace(out, List::new(alloc));
    push_around(inner, out)
}
