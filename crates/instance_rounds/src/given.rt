// The formulas of a round that hang on which terms are same.
ghost use Rattle.std.specs.Prelude.{◌≡◌, List, All, map, OnOk, IfOk};
ghost use Rattle.qed_terms.specs.Tree.{Tree};
ghost use Rattle.qed_terms.specs.Store.{KeepsOlder};
ghost use Rattle.qed_terms.specs.View.{view_logic};
ghost use Rattle.tree_places.specs.View.{IsKept};
ghost use Rattle.instance_rows.specs.Accesses.{loads_in, accesses_in};
ghost use Rattle.instance_rows.specs.Candidates.{asked_terms};
ghost use Rattle.instance_rows.specs.Triggers.{calls_in};
ghost use Rattle.branch_accesses.specs.Ids.{access_of, load_of, AccessHeld, LoadHeld};
ghost use Rattle.trigger_instances.specs.Ids.{call_of, CallHeld};
ghost use Rattle.instance_rounds.specs.Given.{AreGiven, IsSeen, SeenHeld};

use branch_accesses::{IdAccess, IdLoad, accesses_in, loads_in};
use instance_candidates::offset_formulas;
use qed_terms::{LogicFn, TermStore};
use std::alloc::Global;
use tree_places::TreeTable;
use trigger_instances::{IdCall, asked_terms, calls_in, forall_formulas};
use wp_base::{List, NoMemory};

/// The loads, accesses and calls of a branch, and the terms that it is asked about.
#[derive(Drop)]
pub struct Seen<I> {
    pub loads: Vec<IdLoad<I>>,
    pub accesses: Vec<IdAccess<I>>,
    pub calls: Vec<IdCall<I>>,
    pub asked: Vec<I>,
}

fn look_over<S: TermStore>(
    alloc: Global,
    store: &S,
    functions: &List<LogicFn>,
    literals: &[S::Id],
    nodes: &[S::Id],
) -> Result<Seen<S::Id>, NoMemory>
    requires literals { All (S.held store.now) literals.now }
    requires nodes { All (S.held store.now) nodes.now }
    ensures seen { IfOk result (λ seen. IsSeen (map view_logic functions.now) (map (S.tree store.now) literals.now) (map (S.tree store.now) nodes.now) (S.tree store.now) seen) }
    ensures held { IfOk result (SeenHeld (S.held store.now)) }
{
    let loads = loads_in(alloc, store, nodes)?;
    let accesses = accesses_in(alloc, store, nodes)?;
    let calls = calls_in(alloc, store, functions, nodes)?;
    let asked = asked_terms(
        alloc,
        store,
        loads.as_slice(),
        accesses.as_slice(),
        literals,
    )?;
    Ok(Seen {
        loads,
        accesses,
        calls,
        asked,
    })
}

/// The formulas on offsets and those of `forall`s that are given in a branch.
#[derive(Drop)]
pub struct GivenFormulas<I> {
    pub offsets: Vec<I>,
    pub foralls: Vec<I>,
}

fn given_by<S: TermStore>(
    alloc: Global,
    store: &mut S,
    table: &mut TreeTable,
    functions: &List<LogicFn>,
    literals: &[S::Id],
    seen: &Seen<S::Id>,
) -> Result<GivenFormulas<S::Id>, NoMemory>
    requires literals { All (S.held store.old) literals.now }
    requires seen { SeenHeld (S.held store.old) seen.now }
    requires kept { IsKept table.old }
    ensures older { OnOk result (KeepsOlder (S.held store.old) (S.held store.new) (S.tree store.old) (S.tree store.new)) }
    ensures kept { OnOk result (IsKept table.new) }
    ensures offsets { IfOk result (λ given. All (S.held store.new) given.offsets.items) }
    ensures foralls { IfOk result (λ given. All (S.held store.new) given.foralls.items) }
    ensures given { IfOk result (λ given. (ts : List Tree) → IsSeen (map view_logic functions.now) (map (S.tree store.old) literals.now) ts (S.tree store.old) seen.now → AreGiven (map view_logic functions.now) (map (S.tree store.old) literals.now) ts (map (S.tree store.new) given.offsets.items) (map (S.tree store.new) given.foralls.items)) }
{
    let asked = seen.asked.as_slice();
    let offsets = offset_formulas(alloc, store, table, literals, asked, seen.loads.as_slice())?;
    let foralls = forall_formulas(
        alloc,
        store,
        table,
        literals,
        asked,
        functions,
        seen.accesses.as_slice(),
        seen.calls.as_slice(),
    )?;
    Ok(GivenFormulas { offsets, foralls })
}

/// The formulas on offsets and those of `forall`s that are given in a branch of these literals, in which these nodes occur.
pub fn given_formulas<S: TermStore>(
    alloc: Global,
    store: &mut S,
    table: &mut TreeTable,
    functions: &List<LogicFn>,
    literals: &[S::Id],
    nodes: &[S::Id],
) -> Result<GivenFormulas<S::Id>, NoMemory>
    requires literals { All (S.held store.old) literals.now }
    requires nodes { All (S.held store.old) nodes.now }
    requires kept { IsKept table.old }
    ensures older { OnOk result (KeepsOlder (S.held store.old) (S.held store.new) (S.tree store.old) (S.tree store.new)) }
    ensures kept { OnOk result (IsKept table.new) }
    ensures offsets { IfOk result (λ given. All (S.held store.new) given.offsets.items) }
    ensures foralls { IfOk result (λ given. All (S.held store.new) given.foralls.items) }
    ensures given { IfOk result (λ given. AreGiven (map view_logic functions.now) (map (S.tree store.old) literals.now) (map (S.tree store.old) nodes.now) (map (S.tree store.new) given.offsets.items) (map (S.tree store.new) given.foralls.items)) }
{
    let seen = look_over(alloc, &*store, functions, literals, nodes)?;
    let given = given_by(alloc, store, table, functions, literals, &seen)?;
    Ok(given)
}
