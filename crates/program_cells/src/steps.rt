// What statements speak of.
ghost use Rattle.std.specs.Prelude.{◌≡◌, OnOk};
ghost use Rattle.std.specs.Option.{option_map};
ghost use Rattle.checked_trees.specs.View.{view_goal, view_step, view_steps};
ghost use Rattle.core_trees.specs.View.{view_variables};
ghost use Rattle.program_cells.specs.Programs as spec;
ghost use Rattle.program_cells.specs.View.{Adds, view_declared};
ghost use Rattle.program_trees.specs.View.{view_facts};
ghost use Rattle.typed_prog.specs.Tree.{values_of};
ghost use Rattle.typed_prog.specs.View.{view_value, view_values};

use crate::annotations::add_loop;
use crate::cells::Cells;
use crate::declared::Declared;
use crate::trees::add_tree;
use crate::values::{add_place, add_value, add_values, cell_of};
use checked_trees::{Goal, Step};
use core_trees::FunctionVariable;
use program_trees::Facts;
use typed_prog::{CoreType, Path, Value};
use wp_base::NoMemory;

#[tactic(auto, using(crate::proofs::Adding::nothing))]
fn add_given(
    value: &Option<Value>,
    facts: &Facts,
    own: &[FunctionVariable],
    cells: &mut Cells,
) -> Result<(), NoMemory>
    ensures { OnOk result (Adds cells.old cells.new (spec.value_parts_if (view_facts facts.now) (view_variables own.now) (option_map view_value value.now))) }
{
    match value {
        None => Ok(()),
        Some(value) => {
            add_value(value, facts, own, cells)?;
            Ok(())
        }
    }
}

// A cell that is written, and the operands of its way.
#[tactic(auto)]
fn add_written(
    facts: &Facts,
    own: &[FunctionVariable],
    ty: &CoreType,
    path: &Path,
    operands: &[Value],
    cells: &mut Cells,
) -> Result<(), NoMemory>
    ensures { OnOk result (Adds cells.old cells.new (spec.written_parts (view_facts facts.now) (view_variables own.now) ty.now path.now (values_of (view_values operands.now)))) }
{
    add_place(facts, own, path, cell_of(ty), cells)?;
    add_values(operands, facts, own, cells)?;
    Ok(())
}

// Where the result of a call goes.
#[tactic(auto, using(crate::proofs::Adding::nothing))]
fn add_goal(
    facts: &Facts,
    own: &[FunctionVariable],
    to: &Goal,
    cells: &mut Cells,
) -> Result<(), NoMemory>
    ensures { OnOk result (Adds cells.old cells.new (spec.goal_parts (view_facts facts.now) (view_variables own.now) (view_goal to.now))) }
{
    match to {
        Goal::Place(_, ty, _, path, operands) => {
            add_written(facts, own, ty, path, operands.as_slice(), cells)?;
            Ok(())
        }
        Goal::Nowhere => Ok(()),
        Goal::Temporary(_) => Ok(()),
        Goal::Variable(_) => Ok(()),
    }
}

#[tactic(auto, using(crate::proofs::Adding::then))]
fn add_call(
    facts: &Facts,
    own: &[FunctionVariable],
    to: &Goal,
    operands: &[Value],
    cells: &mut Cells,
) -> Result<(), NoMemory>
    ensures { OnOk result (Adds cells.old cells.new (spec.call_parts (view_facts facts.now) (view_variables own.now) (view_goal to.now) (values_of (view_values operands.now)))) }
{
    add_goal(facts, own, to, cells)?;
    add_values(operands, facts, own, cells)?;
    Ok(())
}

#[cycle(add_step)]
#[tactic(auto, using(checked_trees::proofs::Equations::step_laws, crate::proofs::Adding::nothing, crate::proofs::Adding::then))]
fn add_step<'a>(
    step: &Step,
    facts: &Facts,
    own: &[FunctionVariable],
    declared: Declared<'a>,
    cells: &mut Cells,
) -> Result<(), NoMemory>
    ensures { OnOk result (Adds cells.old cells.new (spec.step_parts (view_facts facts.now) (view_variables own.now) (view_declared declared.entry) (view_step step.now))) }
{
    match step {
        Step::Set(_, _, value) => add_value(value, facts, own, cells),
        Step::Store(_, ty, _, path, operands) => {
            add_written(facts, own, ty, path, operands.as_slice(), cells)
        }
        Step::Start(_, _, value) => add_value(value, facts, own, cells),
        Step::Call(_, to, _, _, operands) => {
            add_call(facts, own, to, operands.as_slice(), cells)
        }
        Step::Branch(_, test, first, second) => {
            add_value(test, facts, own, cells)?;
            add_steps(first.as_slice(), facts, own, declared, cells)?;
            add_steps(second.as_slice(), facts, own, declared, cells)?;
            Ok(())
        }
        Step::Repeat(l, body) => {
            add_loop(l, facts, own, declared, cells)?;
            add_steps(body.as_slice(), facts, own, declared, cells)?;
            Ok(())
        }
        Step::Around(body) => add_steps(body.as_slice(), facts, own, declared, cells),
        Step::Exit(_) => Ok(()),
        Step::Give(_, value) => add_given(value, facts, own, cells),
        Step::Claim(claim) => add_tree(&claim.what, facts, own, declared, cells),
        Step::Scope(_, body) => add_steps(body.as_slice(), facts, own, declared, cells),
    }
}

/// Statements, one after the other.
#[cycle(add_step)]
#[tactic(auto, using(crate::proofs::Statements::parts_of_steps, crate::proofs::Adding::onward_laws))]
pub(crate) fn add_steps<'a>(
    steps: &[Step],
    facts: &Facts,
    own: &[FunctionVariable],
    declared: Declared<'a>,
    cells: &mut Cells,
) -> Result<(), NoMemory>
    ensures { OnOk result (Adds cells.old cells.new (spec.steps_parts (view_facts facts.now) (view_variables own.now) (view_declared declared.entry) (view_steps steps.now))) }
{
    for at in 0..steps.len() {
        add_step(&steps[at], facts, own, declared, cells)?;
    }
    Ok(())
}
