// Single checks, pushed behind those that are there.
ghost use Rattle.std.specs.Prelude.{◌≡◌, [], ◌∷◌, ◌++◌, IfOk, suc};
ghost use Rattle.check_lists.specs.View as spec;
ghost use Rattle.c_runs.specs.Checks as checks;

use crate::checks::{Check, Undefined};
use std::alloc::Global;
use wp_base::{Line, List, NoMemory};

/// The next number. There is none behind 2^32 operands or steps, which no memory holds.
pub(crate) fn after(number: u32) -> Result<u32, NoMemory>
    ensures { IfOk result (λ next. next ≡ suc number) }
{
    number.checked_add(1).ok_or(NoMemory)
}

/// A way to an operand.
pub(crate) fn extended(alloc: Global, way: &[u32], operand: u32) -> Result<List<u32>, NoMemory>
    ensures { IfOk result (λ longer. longer ≡ way.now ++ operand ∷ []) }
{
    let mut longer = List::from_vec(Vec::from_slice(alloc, way)?);
    longer.push(operand)?;
    Ok(longer)
}

/// A check of the operation that a way leads to.
#[tactic(auto, using(crate::proofs::Adding::one_added))]
pub(crate) fn push_check(
    alloc: Global,
    kind: Undefined,
    line: Line,
    step: u32,
    way: &[u32],
    out: &mut List<Check>,
) -> Result<(), NoMemory>
    ensures { IfOk result (λ _. spec.Added out.old out.new way.now (spec.check_at (spec.view_undefined kind) line step ∷ [])) }
{
    let way = List::from_vec(Vec::from_slice(alloc, way)?);
    out.push(Check {
        kind,
        line,
        step,
        way,
    })
}

/// The same, where it is asked for.
#[tactic(auto, using(crate::proofs::Adding::none_added))]
pub(crate) fn push_if(
    alloc: Global,
    is_asked: bool,
    kind: Undefined,
    line: Line,
    way: &[u32],
    out: &mut List<Check>,
) -> Result<(), NoMemory>
    ensures { IfOk result (λ _. spec.Added out.old out.new way.now (checks.one_if is_asked (spec.view_undefined kind) line)) }
{
    if is_asked {
        push_check(alloc, kind, line, 0, way, out)
    } else {
        Ok(())
    }
}
