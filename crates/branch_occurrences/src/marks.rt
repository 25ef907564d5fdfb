// Marks of places.
ghost use Rattle.std.specs.Prelude.{◌≡◌, ◌==◌, ◌||◌, false, ℕ, All, slice_index_or, OnOk, IfOk};
ghost use Rattle.tree_places.specs.Tables.{Grows};
ghost use Rattle.tree_places.specs.View.{nodes_of, IsKept};
ghost use Rattle.branch_occurrences.specs.Marked.{AreMarked};

use qed_terms::TermStore;
use std::alloc::Global;
use tree_places::{TreeTable, place_of};
use wp_base::NoMemory;

/// Whether a place is marked. A place behind the marks isn't.
pub fn is_marked(marks: &[bool], place: usize) -> bool
    ensures { result ≡ slice_index_or marks.now place false }
{
    place < marks.len() && marks[place]
}

/// A place marked too.
pub fn mark(marks: &mut Vec<bool>, place: usize) -> Result<(), NoMemory>
    ensures { OnOk result ((k : ℕ) → slice_index_or marks.new.items k false ≡ ((k == place) || slice_index_or marks.old.items k false)) }
{
    while marks.len() <= place {
        marks.push(false)?;
    }
    marks[place] = true;
    Ok(())
}

/// Marks of the places of the trees of these ids.
pub fn marks_of<S: TermStore>(
    alloc: Global,
    store: &S,
    table: &mut TreeTable,
    ids: &[S::Id],
) -> Result<Vec<bool>, NoMemory>
    requires held { All (S.held store.now) ids.now }
    requires kept { IsKept table.old }
    ensures kept { OnOk result (IsKept table.new) }
    ensures grows { OnOk result (Grows (nodes_of table.old) (nodes_of table.new)) }
    ensures marked { IfOk result (λ marks. AreMarked (S.tree store.now) (nodes_of table.new) ids.now marks.items) }
{
    let mut marks = Vec::new(alloc);
    for id in ids {
        let place = place_of(alloc, store, table, *id)?;
        mark(&mut marks, place)?;
    }
    Ok(marks)
}
