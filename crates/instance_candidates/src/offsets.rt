// The formulas of a round that hang on which offsets are same.
ghost use Rattle.std.specs.Prelude.{◌≡◌, ◌++◌, List, All, length, map, OnOk, IfOk};
ghost use Rattle.qed_terms.specs.Store.{KeepsOlder};
ghost use Rattle.qed_terms.specs.Tree.{Tree};
ghost use Rattle.tree_places.specs.Tables.{Grows};
ghost use Rattle.tree_places.specs.View.{nodes_of, IsKept};
ghost use Rattle.congruence.specs.Closed.{IsClosed};
ghost use Rattle.instance_rows.specs.Candidates.{marker, offset_candidates, Given};
ghost use Rattle.branch_accesses.specs.Ids.{load_of, LoadHeld};

use crate::classes::given_meetings;
use crate::formulas::orders;
use crate::meetings::offset_candidates;
use asked_classes::asked_classes;
use branch_accesses::IdLoad;
use congruence::TermClasses;
use qed_terms::TermStore;
use std::alloc::Global;
use tree_places::TreeTable;
use wp_base::NoMemory;

/// The formulas on the offsets of loads that are given by these classes.
pub fn given_orders<S: TermStore>(
    alloc: Global,
    store: &mut S,
    table: &mut TreeTable,
    closed: &TermClasses,
    loads: &[IdLoad<S::Id>],
) -> Result<Vec<S::Id>, NoMemory>
    requires loads { All (LoadHeld (S.held store.old)) loads.now }
    requires kept { IsKept table.old }
    requires all { length closed.now.marks.items ≡ length closed.now.classes.items }
    ensures older { OnOk result (KeepsOlder (S.held store.old) (S.held store.new) (S.tree store.old) (S.tree store.new)) }
    ensures held { IfOk result (λ made. All (S.held store.new) made.items) }
    ensures kept { OnOk result (IsKept table.new) }
    ensures grows { OnOk result (Grows (nodes_of table.old) (nodes_of table.new)) }
    ensures given { IfOk result (λ made. (ls : List Tree) → IsClosed ls (nodes_of table.old) closed.now.marks.items closed.now.classes.items → Given ls (offset_candidates (map (load_of (S.tree store.old)) loads.now)) (map (S.tree store.new) made.items)) }
{
    let meetings = offset_candidates(alloc, &*store, loads)?;
    let given = given_meetings(alloc, &*store, table, closed, meetings.as_slice())?;
    let made = orders(alloc, store, given.as_slice())?;
    Ok(made)
}

/// The formulas on the offsets of loads that are given in a branch of these literals, where it is asked about these terms too.
pub fn offset_formulas<S: TermStore>(
    alloc: Global,
    store: &mut S,
    table: &mut TreeTable,
    literals: &[S::Id],
    asked: &[S::Id],
    loads: &[IdLoad<S::Id>],
) -> Result<Vec<S::Id>, NoMemory>
    requires literals { All (S.held store.old) literals.now }
    requires asked { All (S.held store.old) asked.now }
    requires loads { All (LoadHeld (S.held store.old)) loads.now }
    requires kept { IsKept table.old }
    ensures older { OnOk result (KeepsOlder (S.held store.old) (S.held store.new) (S.tree store.old) (S.tree store.new)) }
    ensures held { IfOk result (λ made. All (S.held store.new) made.items) }
    ensures kept { OnOk result (IsKept table.new) }
    ensures grows { OnOk result (Grows (nodes_of table.old) (nodes_of table.new)) }
    ensures given { IfOk result (λ made. Given (map (S.tree store.old) literals.now ++ map marker (map (S.tree store.old) asked.now)) (offset_candidates (map (load_of (S.tree store.old)) loads.now)) (map (S.tree store.new) made.items)) }
{
    let closed = asked_classes(alloc, &*store, table, literals, asked)?;
    let made = given_orders(alloc, store, table, &closed, loads)?;
    Ok(made)
}
