// A round of instances.
ghost use Rattle.std.specs.Prelude.{◌≡◌, ◌++◌, true, map, All, OnOk, IfOk};
ghost use Rattle.qed_terms.specs.Setting.{is_regular};
ghost use Rattle.qed_terms.specs.Store.{KeepsOlder};
ghost use Rattle.qed_terms.specs.View.{view_setting};
ghost use Rattle.tree_places.specs.View.{IsKept};
ghost use Rattle.branches.specs.Ids.{branch_of, BranchHeld};
ghost use Rattle.instance_rows.specs.Round.{IsRound};
ghost use Rattle.instance_rounds.specs.Formulas.{AreFormulas};

use crate::formulas::in_order;
use crate::given::given_formulas;
use added_instances::added;
use branch_changes::ChangeRules;
use branch_occurrences::occurrences;
use qed_terms::{IdBranch, Setting, TermStore};
use std::alloc::Global;
use tree_places::{TreeTable, empty};
use wp_base::{List, NoMemory};

// All formulas of a round over the literals of a branch and what occurs in it.
fn formulas_of<S: TermStore>(
    alloc: Global,
    store: &mut S,
    table: &mut TreeTable,
    literals: &[S::Id],
    nodes: &[S::Id],
    world: &Setting,
) -> Result<Vec<S::Id>, NoMemory>
    requires regular { is_regular (view_setting world.now) ≡ true }
    requires literals { All (S.held store.old) literals.now }
    requires nodes { All (S.held store.old) nodes.now }
    requires kept { IsKept table.old }
    ensures older { OnOk result (KeepsOlder (S.held store.old) (S.held store.new) (S.tree store.old) (S.tree store.new)) }
    ensures kept { OnOk result (IsKept table.new) }
    ensures held { IfOk result (λ made. All (S.held store.new) made.items) }
    ensures formulas { IfOk result (λ made. AreFormulas (view_setting world.now) (map (S.tree store.old) literals.now) (map (S.tree store.old) nodes.now) (map (S.tree store.new) made.items)) }
{
    let given = given_formulas(alloc, store, table, &world.logic, literals, nodes)?;
    let made = in_order(
        alloc,
        store,
        world,
        literals,
        nodes,
        given.offsets.as_slice(),
        given.foralls.as_slice(),
    )?;
    Ok(made)
}

// The literals, and then what waits.
fn all_of<I: Copy + Drop>(alloc: Global, branch: &IdBranch<I>) -> Result<Vec<I>, NoMemory>
    ensures { IfOk result (λ all. all.items ≡ branch.now.literals ++ branch.now.waiting) }
{
    let mut all = Vec::new(alloc);
    all.extend_from_slice(branch.literals.as_slice())?;
    all.extend_from_slice(branch.waiting.as_slice())?;
    Ok(all)
}

/// The formulas that a round adds to the branch, in a regular setting.
pub fn round_of<S: TermStore, R: ChangeRules<S>>(
    alloc: Global,
    store: &mut S,
    rules: &mut R,
    branch: &IdBranch<S::Id>,
    world: &Setting,
) -> Result<List<S::Id>, NoMemory>
    requires ready { R.ready rules.old store.old }
    requires regular { is_regular (view_setting world.now) ≡ true }
    requires held { BranchHeld (S.held store.old) branch.now }
    ensures ready { OnOk result (R.ready rules.new store.new) }
    ensures older { OnOk result (KeepsOlder (S.held store.old) (S.held store.new) (S.tree store.old) (S.tree store.new)) }
    ensures held { IfOk result (All (S.held store.new)) }
    ensures adds { IfOk result (λ added. IsRound (view_setting world.now) (branch_of (S.tree store.old) branch.now) (map (S.tree store.new) added)) }
{
    let mut table = empty(alloc);
    let nodes = occurrences(alloc, &*store, &mut table, branch)?;
    let there = all_of(alloc, branch)?;
    let literals = branch.literals.as_slice();
    let formulas = formulas_of(alloc, store, &mut table, literals, nodes.as_slice(), world)?;
    let made = added(
        alloc,
        store,
        rules,
        &mut table,
        there.as_slice(),
        formulas.as_slice(),
        world,
    )?;
    Ok(made)
}
