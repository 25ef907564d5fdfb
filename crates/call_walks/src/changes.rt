// What a call changes: variables of the file (ACSL 2.3.2), and the slot of its result.
ghost use Rattle.std.specs.Prelude.{◌≡◌, map, IfOk};
ghost use Rattle.c_kinds.specs.Models.{high, low};
ghost use Rattle.call_words.specs.Sets as spec;
ghost use Rattle.call_words.specs.Words as words;
ghost use Rattle.core_trees.specs.View.{view_variable};
ghost use Rattle.plain_states.specs.Scopes.{kind_of as kind_in};
ghost use Rattle.program_trees.specs.View.{view_contract, view_facts};
ghost use Rattle.walk_words.specs.Changes as changed;
ghost use Rattle.walk_words.specs.View.{view_change};

use crate::stays::may_differ;
use c_kinds::{Machdep, range};
use core_trees::FunctionVariable;
use program_trees::{Contract, Facts};
use std::alloc::Global;
use walk_words::Change;
use wp_base::{CellKind, Kind, NoMemory};

/// Any value of a kind.
pub(crate) fn any_of_kind(model: Machdep, kind: Kind) -> Change
    ensures { view_change result ≡ changed.ranged (low model kind) (high model kind) }
{
    let values = range(model, kind);
    Change::Ranged(values.low, values.high)
}

// The kind of a variable that holds an integer.
#[tactic(auto, using(crate::proofs::Found::kind_some, crate::proofs::Found::kind_pointer, crate::proofs::Found::kind_none))]
fn kind_of(variable: &FunctionVariable) -> Kind
    ensures { result ≡ kind_in (view_variable variable.now) }
{
    match variable.layout.cells.get(0) {
        Some(CellKind::Of(kind)) => *kind,
        Some(CellKind::Ptr) => Kind::Int,
        None => Kind::Int,
    }
}

// A variable of the file, by its number.
fn file_change(
    facts: &Facts,
    contract: &Contract,
    number: u32,
    variable: &FunctionVariable,
) -> Change
    ensures { view_change result ≡ spec.file_change (view_facts facts.now) (view_contract contract.now) number (view_variable variable.now) }
{
    if may_differ(contract, number) {
        any_of_kind(facts.model, kind_of(variable))
    } else {
        Change::Keeps
    }
}

/// Values of variables of the file change by the clause outside of behaviors, and flags stay.
pub(crate) fn file_changes(
    alloc: Global,
    facts: &Facts,
    contract: &Contract,
) -> Result<Vec<Change>, NoMemory>
    ensures { IfOk result (λ made. map view_change made.items ≡ spec.file_changes (view_facts facts.now) (view_contract contract.now) 0 (view_facts facts.now).globals) }
{
    let globals = facts.globals.as_slice();
    let Ok(count) = u32::try_from(globals.len()) else {
        return Err(NoMemory);
    };
    let mut made = Vec::new(alloc);
    for number in 0..count {
        made.push(file_change(facts, contract, number, &globals[number as usize]))?;
        made.push(Change::Keeps)?;
    }
    Ok(made)
}

/// A change of one slot alone.
pub(crate) fn change_at(alloc: Global, slot: usize, change: Change) -> Result<Vec<Change>, NoMemory>
    ensures { IfOk result (λ made. map view_change made.items ≡ words.change_at slot (view_change change)) }
{
    let mut made = Vec::new(alloc);
    for _slot in 0..slot {
        made.push(Change::Keeps)?;
    }
    made.push(change)?;
    Ok(made)
}
