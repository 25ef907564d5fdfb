// The checks of what stands in a statement, as lists.
ghost use Rattle.std.specs.Prelude.{◌≡◌, IfOk};
ghost use Rattle.std.specs.Option.{option_map};
ghost use Rattle.check_lists.specs.View.{view_checks};
ghost use Rattle.c_runs.specs.Adding as adding;
ghost use Rattle.core_trees.specs.View.{view_variables};
ghost use Rattle.c_runs.specs.Checks as checks;
ghost use Rattle.typed_prog.specs.Tree.{values_of};
ghost use Rattle.typed_prog.specs.View.{view_value, view_values};

use crate::checks::Check;
use crate::objects::push_way;
use crate::walk::{push_all, push_checks};
use core_trees::FunctionVariable;
use std::alloc::Global;
use typed_prog::{Path, Value};
use wp_base::{List, NoMemory};

/// The checks of an expression of a core program, in a function with these variables.
#[tactic(auto, using(crate::proofs::Adding::list_laws))]
pub fn checks_of(
    alloc: Global,
    variables: &[FunctionVariable],
    value: &Value,
) -> Result<List<Check>, NoMemory>
    ensures { IfOk result (λ made. view_checks made ≡ checks.checks_of (view_variables variables.now) (view_value value.now)) }
{
    let mut made = List::new(alloc);
    push_checks(alloc, value, variables, &[], &mut made)?;
    Ok(made)
}

/// Those of operands.
#[tactic(auto, using(crate::proofs::Adding::list_laws))]
pub fn all_checks(
    alloc: Global,
    variables: &[FunctionVariable],
    values: &[Value],
) -> Result<List<Check>, NoMemory>
    ensures { IfOk result (λ made. view_checks made ≡ checks.all_checks (view_variables variables.now) (values_of (view_values values.now))) }
{
    let mut made = List::new(alloc);
    push_all(alloc, values, variables, &[], &mut made)?;
    Ok(made)
}

/// Those of an object that is written: of all operands, and then of the way to it.
#[tactic(auto, using(crate::proofs::Adding::list_laws))]
pub fn place_checks(
    alloc: Global,
    variables: &[FunctionVariable],
    path: &Path,
    values: &[Value],
) -> Result<List<Check>, NoMemory>
    ensures { IfOk result (λ made. view_checks made ≡ adding.place_checks (view_variables variables.now) path.now (values_of (view_values values.now))) }
{
    let mut made = List::new(alloc);
    push_all(alloc, values, variables, &[], &mut made)?;
    push_way(alloc, variables, path, &[], &mut made)?;
    Ok(made)
}

/// Those of what is returned.
pub fn given_checks(
    alloc: Global,
    variables: &[FunctionVariable],
    value: &Option<Value>,
) -> Result<List<Check>, NoMemory>
    ensures { IfOk result (λ made. view_checks made ≡ adding.given_checks (view_variables variables.now) (option_map view_value value.now)) }
{
    match value {
        None => Ok(List::new(alloc)),
        Some(value) => checks_of(alloc, variables, value),
    }
}
