// What occurs in a branch, each tree at its first place.
ghost use Rattle.std.specs.Prelude.{◌≡◌, ◌==◌, ◌||◌, ◌++◌, ◌∷◌, [], ℕ, true, false, map, All, slice_index_or, OnOk, IfOk};
ghost use Rattle.qed_rules.specs.Rules.{drop_repeats};
ghost use Rattle.tree_places.specs.Tables.{Grows};
ghost use Rattle.tree_places.specs.View.{nodes_of, IsKept};
ghost use Rattle.branches.specs.Ids.{branch_of, BranchHeld};
ghost use Rattle.instance_rows.specs.Occurrences.{occurrences};

use crate::marks::{is_marked, mark};
use crate::nodes::all_nodes;
use qed_terms::{IdBranch, TermStore};
use std::alloc::Global;
use tree_places::{TreeTable, place_of};
use wp_base::NoMemory;

// Keeps an id and marks its place, where it isn't marked yet.
fn keep_new<I: Copy + Drop>(
    marks: &mut Vec<bool>,
    left: &mut Vec<I>,
    place: usize,
    id: I,
) -> Result<(), NoMemory>
    ensures there { OnOk result (slice_index_or marks.old.items place false ≡ true → (marks.new.items ≡ marks.old.items) × (left.new.items ≡ left.old.items)) }
    ensures new_marks { OnOk result (slice_index_or marks.old.items place false ≡ false → (k : ℕ) → slice_index_or marks.new.items k false ≡ ((k == place) || slice_index_or marks.old.items k false)) }
    ensures new_left { OnOk result (slice_index_or marks.old.items place false ≡ false → left.new.items ≡ left.old.items ++ id ∷ []) }
{
    if is_marked(marks.as_slice(), place) {
        return Ok(());
    }
    mark(marks, place)?;
    left.push(id)?;
    Ok(())
}

/// Ids without those whose tree stands before.
pub fn without_repeats<S: TermStore>(
    alloc: Global,
    store: &S,
    table: &mut TreeTable,
    ids: &[S::Id],
) -> Result<Vec<S::Id>, NoMemory>
    requires held { All (S.held store.now) ids.now }
    requires kept { IsKept table.old }
    ensures kept { OnOk result (IsKept table.new) }
    ensures grows { OnOk result (Grows (nodes_of table.old) (nodes_of table.new)) }
    ensures held { IfOk result (λ left. All (S.held store.now) left.items) }
    ensures trees { IfOk result (λ left. map (S.tree store.now) left.items ≡ drop_repeats [] (map (S.tree store.now) ids.now)) }
{
    let mut marks = Vec::new(alloc);
    let mut left = Vec::new(alloc);
    for id in ids {
        let place = place_of(alloc, store, table, *id)?;
        keep_new(&mut marks, &mut left, place, *id)?;
    }
    Ok(left)
}

/// What occurs in the literals of a branch and in what waits.
pub fn occurrences<S: TermStore>(
    alloc: Global,
    store: &S,
    table: &mut TreeTable,
    branch: &IdBranch<S::Id>,
) -> Result<Vec<S::Id>, NoMemory>
    requires held { BranchHeld (S.held store.now) branch.now }
    requires kept { IsKept table.old }
    ensures kept { OnOk result (IsKept table.new) }
    ensures grows { OnOk result (Grows (nodes_of table.old) (nodes_of table.new)) }
    ensures held { IfOk result (λ found. All (S.held store.now) found.items) }
    ensures trees { IfOk result (λ found. map (S.tree store.now) found.items ≡ occurrences (branch_of (S.tree store.now) branch.now)) }
{
    let mut nodes = Vec::new(alloc);
    all_nodes(store, branch.literals.as_slice(), &mut nodes)?;
    all_nodes(store, branch.waiting.as_slice(), &mut nodes)?;
    let found = without_repeats(alloc, store, table, nodes.as_slice())?;
    Ok(found)
}
