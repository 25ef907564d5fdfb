// Checks of objects, behind those of the operands of their ways (C11 6.5.2.1, 6.5.3.2).
ghost use Rattle.std.specs.Prelude.{◌≡◌, [], ◌∷◌, ◌++◌, IfOk};
ghost use Rattle.c_runs.specs.Objects.{is_pointed as is_pointed_root, plain_root};
ghost use Rattle.c_runs.specs.Operators.{access};
ghost use Rattle.check_lists.specs.View as spec;
ghost use Rattle.c_runs.specs.Adding as adding;
ghost use Rattle.core_trees.specs.View.{view_variables};
ghost use Rattle.c_runs.specs.Checks as checks;

use crate::checks::{Check, Undefined};
use crate::pushes::{after, push_check, push_if};
use core_trees::FunctionVariable;
use std::alloc::Global;
use typed_prog::{Path, Step};
use value_facts::{is_pointed, plain_value};
use wp_base::{List, NoMemory};

// The index of a declared array.
#[tactic(auto, using(crate::proofs::Adding::none_added))]
fn push_step(
    alloc: Global,
    step: &Step,
    number: u32,
    way: &[u32],
    out: &mut List<Check>,
) -> Result<(), NoMemory>
    ensures { IfOk result (λ _. spec.Added out.old out.new way.now (checks.index_checks number (step.now ∷ []))) }
{
    match step {
        Step::Element { line, .. } => {
            push_check(alloc, Undefined::Index, *line, number, way, out)
        }
        Step::Field { .. } => Ok(()),
        Step::Moved { .. } => Ok(()),
    }
}

// The index of each declared array on a way.
#[tactic(auto, using(crate::proofs::Reaching::all_steps))]
fn push_indices(
    alloc: Global,
    steps: &[Step],
    way: &[u32],
    out: &mut List<Check>,
) -> Result<(), NoMemory>
    ensures { IfOk result (λ _. spec.Added out.old out.new way.now (checks.index_checks 0 steps.now)) }
{
    let mut number = 0u32;
    for step in steps {
        push_step(alloc, step, number, way, out)?;
        number = after(number)?;
    }
    Ok(())
}

// An object to which a way leads that begins at no plain variable: its indices, and then the access.
#[tactic(auto, using(crate::proofs::Adding::both_added))]
fn push_reached(
    alloc: Global,
    path: &Path,
    way: &[u32],
    out: &mut List<Check>,
) -> Result<(), NoMemory>
    ensures { IfOk result (λ _. spec.Added out.old out.new way.now (spec.reached path.now)) }
{
    push_indices(alloc, path.steps.as_slice(), way, out)?;
    push_if(
        alloc,
        is_pointed(path.root),
        Undefined::Access,
        path.line,
        way,
        out,
    )
}

/// A read of an object.
#[tactic(auto, using(crate::proofs::Reaching::read_laws))]
pub(crate) fn push_read(
    alloc: Global,
    variables: &[FunctionVariable],
    path: &Path,
    way: &[u32],
    out: &mut List<Check>,
) -> Result<(), NoMemory>
    ensures { IfOk result (λ _. spec.Added out.old out.new way.now (checks.read_checks (view_variables variables.now) path.now)) }
{
    match plain_value(variables, path.root) {
        Some(has_value) => push_if(alloc, !has_value, Undefined::Init, path.line, way, out),
        None => push_reached(alloc, path, way, out),
    }
}

/// A write of one.
#[tactic(auto, using(crate::proofs::Reaching::way_laws))]
pub(crate) fn push_way(
    alloc: Global,
    variables: &[FunctionVariable],
    path: &Path,
    way: &[u32],
    out: &mut List<Check>,
) -> Result<(), NoMemory>
    ensures { IfOk result (λ _. spec.Added out.old out.new way.now (adding.way_checks (view_variables variables.now) path.now)) }
{
    match plain_value(variables, path.root) {
        Some(_) => Ok(()),
        None => push_reached(alloc, path, way, out),
    }
}

/// A pointer that is made, and is at once followed or not.
pub(crate) fn push_address(
    alloc: Global,
    path: &Path,
    accessed: bool,
    way: &[u32],
    out: &mut List<Check>,
) -> Result<(), NoMemory>
    ensures { IfOk result (λ _. spec.Added out.old out.new way.now (checks.address_checks accessed path.now)) }
{
    let is_sure = path.steps.len() == 0;
    push_if(
        alloc,
        !(accessed || is_sure),
        Undefined::Pointing,
        path.line,
        way,
        out,
    )
}
