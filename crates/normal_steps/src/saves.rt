// Values that go to temporaries.
ghost use Rattle.std.specs.Prelude.{◌≡◌, IfOk, suc};
ghost use Rattle.core_trees.specs.View.{view_cores, view_variables};
ghost use Rattle.c_runs.specs.Plans as plans;
ghost use Rattle.normal_steps.specs.Into.{MadeInto};
ghost use Rattle.typed_prog.specs.View.{view_value};

use crate::pushes::{after, push_set};
use core_trees::{Core, FunctionVariable};
use std::alloc::Global;
use typed_copies::typed_as;
use typed_prog::{CoreType, Value, ValueNode};
use value_facts::has_checks;
use wp_base::{List, NoMemory};

/// The temporary that takes the place of a value.
#[tactic(auto, using(typed_prog::proofs::Equations::view_laws))]
pub fn temporary_like(alloc: Global, like: &Value, slot: u32) -> Result<Value, NoMemory>
    ensures { IfOk result (λ made. view_value made ≡ plans.temp_for (view_value like.now) slot) }
{
    typed_as(alloc, ValueNode::Temporary(slot), like)
}

/// A value that is of no use.
#[tactic(auto, using(typed_prog::proofs::Equations::view_laws))]
pub fn no_value(alloc: Global) -> Value
    ensures { view_value result ≡ plans.no_value }
{
    Value {
        node: ValueNode::Constant(0),
        ty: CoreType::void(alloc),
        line: 0,
    }
}

/// A value goes to the next temporary.
#[tactic(auto, using(crate::proofs::Saving::saved))]
pub fn save(
    alloc: Global,
    value: Value,
    next: u32,
    out: &mut List<Core>,
) -> Result<(Value, u32), NoMemory>
    ensures { IfOk result (λ r. MadeInto out.old out.new (plans.save (plans.kept (view_value value) next)) r.0 r.1) }
{
    let last = after(next)?;
    let temporary = temporary_like(alloc, &value, next)?;
    push_set(next, value, out)?;
    Ok((temporary, last))
}

/// A value goes to the next temporary where it is needed later and may be undefined.
#[tactic(auto, using(crate::proofs::Saving::saved_if, crate::proofs::Saving::kept_if))]
pub fn save_if(
    alloc: Global,
    needed: bool,
    variables: &[FunctionVariable],
    value: Value,
    next: u32,
    out: &mut List<Core>,
) -> Result<(Value, u32), NoMemory>
    ensures { IfOk result (λ r. MadeInto out.old out.new (plans.save_if (view_variables variables.now) needed (plans.kept (view_value value) next)) r.0 r.1) }
{
    if needed && has_checks(&value, variables) {
        save(alloc, value, next, out)
    } else {
        Ok((value, next))
    }
}
