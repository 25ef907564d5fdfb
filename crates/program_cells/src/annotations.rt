// What claims, sets and contracts speak of (ACSL 2.3, 2.4).
ghost use Rattle.std.specs.Prelude.{◌≡◌, map, OnOk};
ghost use Rattle.std.specs.Option.{option_map};
ghost use Rattle.acsl_trees.specs.Tree.{view_trees};
ghost use Rattle.core_trees.specs.View.{view_claim, view_loop, view_measure, view_variables};
ghost use Rattle.program_cells.specs.Programs as spec;
ghost use Rattle.program_cells.specs.View.{Adds, view_declared};
ghost use Rattle.program_trees.specs.View.{view_behavior, view_contract, view_facts};

use crate::cells::Cells;
use crate::declared::Declared;
use crate::trees::{add_tree, add_trees};
use acsl_trees::Tree;
use core_trees::{Claim, FunctionVariable, Loop, Measure};
use program_trees::{Behavior, Contract, Facts};
use wp_base::{List, NoMemory};

#[tactic(auto, using(crate::proofs::Clauses::parts_of_claims, crate::proofs::Adding::onward_laws))]
fn add_claims<'a>(
    claims: &[Claim],
    facts: &Facts,
    own: &[FunctionVariable],
    declared: Declared<'a>,
    cells: &mut Cells,
) -> Result<(), NoMemory>
    ensures { OnOk result (Adds cells.old cells.new (spec.claim_parts (view_facts facts.now) (view_variables own.now) (view_declared declared.entry) (map view_claim claims.now))) }
{
    for at in 0..claims.len() {
        add_tree(&claims[at].what, facts, own, declared, cells)?;
    }
    Ok(())
}

#[tactic(auto, using(crate::proofs::Adding::nothing))]
fn add_measure<'a>(
    measure: &Option<Measure>,
    facts: &Facts,
    own: &[FunctionVariable],
    declared: Declared<'a>,
    cells: &mut Cells,
) -> Result<(), NoMemory>
    ensures { OnOk result (Adds cells.old cells.new (spec.measure_parts (view_facts facts.now) (view_variables own.now) (view_declared declared.entry) (option_map view_measure measure.now))) }
{
    match measure {
        None => Ok(()),
        Some(measure) => {
            add_tree(&measure.what, facts, own, declared, cells)?;
            Ok(())
        }
    }
}

#[tactic(auto, using(crate::proofs::Adding::nothing))]
fn add_set<'a>(
    set: &Option<List<Tree>>,
    facts: &Facts,
    own: &[FunctionVariable],
    declared: Declared<'a>,
    cells: &mut Cells,
) -> Result<(), NoMemory>
    ensures { OnOk result (Adds cells.old cells.new (spec.set_parts (view_facts facts.now) (view_variables own.now) (view_declared declared.entry) (option_map view_trees set.now))) }
{
    match set {
        None => Ok(()),
        Some(trees) => {
            add_trees(trees.as_slice(), facts, own, declared, cells)?;
            Ok(())
        }
    }
}

/// What is claimed of a loop.
#[tactic(auto, using(crate::proofs::Adding::then))]
pub(crate) fn add_loop<'a>(
    l: &Loop,
    facts: &Facts,
    own: &[FunctionVariable],
    declared: Declared<'a>,
    cells: &mut Cells,
) -> Result<(), NoMemory>
    ensures { OnOk result (Adds cells.old cells.new (spec.loop_parts (view_facts facts.now) (view_variables own.now) (view_declared declared.entry) (view_loop l.now))) }
{
    add_claims(l.invariants.as_slice(), facts, own, declared, cells)?;
    add_set(&l.assigns, facts, own, declared, cells)?;
    add_measure(&l.variant, facts, own, declared, cells)?;
    Ok(())
}

#[tactic(auto, using(crate::proofs::Adding::then))]
fn add_behavior<'a>(
    behavior: &Behavior,
    facts: &Facts,
    own: &[FunctionVariable],
    declared: Declared<'a>,
    cells: &mut Cells,
) -> Result<(), NoMemory>
    ensures { OnOk result (Adds cells.old cells.new (spec.behavior_parts (view_facts facts.now) (view_variables own.now) (view_declared declared.entry) (view_behavior behavior.now))) }
{
    add_trees(behavior.assumes.as_slice(), facts, own, declared, cells)?;
    add_claims(behavior.requires_.as_slice(), facts, own, declared, cells)?;
    add_claims(behavior.ensures_.as_slice(), facts, own, declared, cells)?;
    add_set(&behavior.assigns, facts, own, declared, cells)?;
    Ok(())
}

#[tactic(auto, using(crate::proofs::Clauses::parts_of_behaviors, crate::proofs::Adding::onward_laws))]
fn add_behaviors<'a>(
    behaviors: &[Behavior],
    facts: &Facts,
    own: &[FunctionVariable],
    declared: Declared<'a>,
    cells: &mut Cells,
) -> Result<(), NoMemory>
    ensures { OnOk result (Adds cells.old cells.new (spec.behaviors_parts (view_facts facts.now) (view_variables own.now) (view_declared declared.entry) (map view_behavior behaviors.now))) }
{
    for at in 0..behaviors.len() {
        add_behavior(&behaviors[at], facts, own, declared, cells)?;
    }
    Ok(())
}

/// The contract of a function.
#[tactic(auto, using(crate::proofs::Adding::then))]
pub(crate) fn add_contract<'a>(
    contract: &Contract,
    facts: &Facts,
    own: &[FunctionVariable],
    declared: Declared<'a>,
    cells: &mut Cells,
) -> Result<(), NoMemory>
    ensures { OnOk result (Adds cells.old cells.new (spec.contract_parts (view_facts facts.now) (view_variables own.now) (view_declared declared.entry) (view_contract contract.now))) }
{
    add_behavior(&contract.plain, facts, own, declared, cells)?;
    add_measure(&contract.decreases, facts, own, declared, cells)?;
    add_behaviors(contract.behaviors.as_slice(), facts, own, declared, cells)?;
    Ok(())
}
