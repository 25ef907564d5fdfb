// The two ways of a choice, each of which puts its value into one temporary.
ghost use Rattle.std.specs.Prelude.{◌≡◌, IfOk, suc};
ghost use Rattle.c_runs.specs.Core as core;
ghost use Rattle.core_trees.specs.View.{view_cores};
ghost use Rattle.c_runs.specs.Plans as plans;
ghost use Rattle.normal_steps.specs.Into.{view_put};
ghost use Rattle.typed_prog.specs.View.{view_value};

use crate::pushes::{after, push};
use crate::puts::{Put, push_put};
use crate::saves::temporary_like;
use core_trees::Core;
use std::alloc::Global;
use typed_prog::Value;
use wp_base::{List, NoMemory};

/// The value of the first way goes to the temporary; the answer is the next one.
pub fn put_first(put: Put, slot: u32, out: &mut List<Core>) -> Result<u32, NoMemory>
    ensures { IfOk result (λ next. (view_cores out.new ≡ core.join (view_cores out.old) (core.one (view_put put slot))) × (next ≡ suc slot)) }
{
    let next = after(slot)?;
    push_put(put, slot, out)?;
    Ok(next)
}

/// The first way of a choice by jumps, behind the tests that lead to it: it leaves the block of both ways. The answer is what stands in that
/// block, and the next temporary.
#[tactic(auto, using(crate::proofs::Ways::first_way_is))]
pub fn first_way(
    alloc: Global,
    inner: List<Core>,
    put: Put,
    slot: u32,
) -> Result<(List<Core>, u32), NoMemory>
    ensures { IfOk result (λ r. (view_cores r.0 ≡ core.one (core.around (core.join (view_cores inner) (core.then_ (view_put put slot) (core.one (core.exit 1)))))) × (r.1 ≡ suc slot)) }
{
    let mut inner = inner;
    let next = put_first(put, slot, &mut inner)?;
    push(Core::Exit(1), &mut inner)?;
    let mut outer = List::new(alloc);
    push(Core::Around(inner), &mut outer)?;
    Ok((outer, next))
}

/// The end of a choice by jumps: the value of the second way goes to the temporary, which is left, of the type of this expression.
#[tactic(auto, using(crate::proofs::Ways::around_is))]
pub fn joined(
    alloc: Global,
    outer: List<Core>,
    put: Put,
    slot: u32,
    like: &Value,
    out: &mut List<Core>,
) -> Result<Value, NoMemory>
    ensures { IfOk result (λ left. (view_cores out.new ≡ core.join (view_cores out.old) (core.one (core.around (core.join (view_cores outer) (core.one (view_put put slot)))))) × (view_value left ≡ plans.temp_for (view_value like.now) slot)) }
{
    let mut outer = outer;
    push_put(put, slot, &mut outer)?;
    push(Core::Around(outer), out)?;
    temporary_like(alloc, like, slot)
}

/// The end of a choice by a value.
#[tactic(auto, using(crate::proofs::Ways::branch_is))]
pub fn branched(
    alloc: Global,
    test: Value,
    first: List<Core>,
    second: List<Core>,
    put: Put,
    slot: u32,
    like: &Value,
    out: &mut List<Core>,
) -> Result<Value, NoMemory>
    ensures { IfOk result (λ left. (view_cores out.new ≡ core.join (view_cores out.old) (core.one (core.branch (view_value test) (view_cores first) (core.join (view_cores second) (core.one (view_put put slot)))))) × (view_value left ≡ plans.temp_for (view_value like.now) slot)) }
{
    let mut second = second;
    push_put(put, slot, &mut second)?;
    push(Core::Branch(test, first, second), out)?;
    temporary_like(alloc, like, slot)
}
