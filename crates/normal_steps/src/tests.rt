// Conditions: jumps, and flags that they set.
ghost use Rattle.std.specs.Prelude.{◌≡◌, IfOk};
ghost use Rattle.c_runs.specs.Core as core;
ghost use Rattle.core_trees.specs.View.{view_cores};
ghost use Rattle.c_runs.specs.Plans as plans;
ghost use Rattle.normal_steps.specs.Into.{MadeInto};
ghost use Rattle.typed_prog.specs.View.{view_value};

use crate::pushes::{after, push, push_set};
use crate::saves::temporary_like;
use core_trees::Core;
use std::alloc::Global;
use typed_copies::typed_as;
use typed_prog::{Value, ValueNode};
use wp_base::{List, NoMemory};

/// Leaves the block with this number where the value isn't as wanted.
#[tactic(auto, using(crate::proofs::Jumping::jump_true, crate::proofs::Jumping::jump_false))]
pub fn push_jump(
    alloc: Global,
    want: bool,
    block: u32,
    value: Value,
    out: &mut List<Core>,
) -> Result<(), NoMemory>
    ensures { IfOk result (λ _. view_cores out.new ≡ core.join (view_cores out.old) (core.one (plans.jump want block (view_value value)))) }
{
    let mut leave = List::new(alloc);
    push(Core::Exit(block), &mut leave)?;
    let stay = List::new(alloc);
    if want {
        push(Core::Branch(value, stay, leave), out)
    } else {
        push(Core::Branch(value, leave, stay), out)
    }
}

// A temporary gets a constant of the type of this expression.
#[tactic(auto, using(typed_prog::proofs::Equations::view_laws))]
fn set_constant(
    alloc: Global,
    like: &Value,
    number: i128,
    slot: u32,
    out: &mut List<Core>,
) -> Result<(), NoMemory>
    ensures { IfOk result (λ _. view_cores out.new ≡ core.join (view_cores out.old) (core.one (core.set slot (plans.constant_of like.now.ty like.now.line number)))) }
{
    let value = typed_as(alloc, ValueNode::Constant(number), like)?;
    push_set(slot, value, out)
}

/// The flag of a condition whose tests were made: a temporary that is 1 or 0, of the type of this expression.
pub fn push_flag(
    alloc: Global,
    tests: List<Core>,
    like: &Value,
    slot: u32,
    out: &mut List<Core>,
) -> Result<(Value, u32), NoMemory>
    ensures { IfOk result (λ r. MadeInto out.old out.new (plans.flag like.now.ty like.now.line (record { tests = view_cores tests; next_temp = slot })) r.0 r.1) }
{
    let last = after(slot)?;
    let mut inner = tests;
    set_constant(alloc, like, 1, slot, &mut inner)?;
    push(Core::Exit(1), &mut inner)?;
    let mut outer = List::new(alloc);
    push(Core::Around(inner), &mut outer)?;
    set_constant(alloc, like, 0, slot, &mut outer)?;
    push(Core::Around(outer), out)?;
    let flag = temporary_like(alloc, like, slot)?;
    Ok((flag, last))
}
