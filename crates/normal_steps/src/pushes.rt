// Statements that are pushed behind others.
ghost use Rattle.std.specs.Prelude.{◌≡◌, IfOk, suc};
ghost use Rattle.c_runs.specs.Core as core;
ghost use Rattle.core_trees.specs.View.{view_core, view_cores};
ghost use Rattle.typed_prog.specs.View.{view_value};

use core_trees::Core;
use typed_prog::Value;
use wp_base::{List, NoMemory};

/// The number after it. There is none where 2^32 temporaries or blocks were made, which no memory holds.
pub fn after(number: u32) -> Result<u32, NoMemory>
    ensures { IfOk result (λ next. next ≡ suc number) }
{
    let Some(next) = number.checked_add(1) else {
        return Err(NoMemory);
    };
    Ok(next)
}

/// A statement is pushed.
#[tactic(auto, using(crate::proofs::Joins::pushed_one))]
pub fn push(statement: Core, out: &mut List<Core>) -> Result<(), NoMemory>
    ensures { IfOk result (λ _. view_cores out.new ≡ core.join (view_cores out.old) (core.one (view_core statement))) }
{
    out.push(statement)
}

/// A temporary gets a value.
#[tactic(auto, using(core_trees::proofs::Equations::core_laws))]
pub fn push_set(slot: u32, value: Value, out: &mut List<Core>) -> Result<(), NoMemory>
    ensures { IfOk result (λ _. view_cores out.new ≡ core.join (view_cores out.old) (core.one (core.set slot (view_value value)))) }
{
    push(Core::Set(slot, value), out)
}
