// The classes of the terms of a branch, with those that are asked about.
ghost use Rattle.std.specs.Prelude.{◌≡◌, ◌<◌, ◌++◌, List, All, map, OnOk, IfOk};
ghost use Rattle.tree_places.specs.Tables.{Grows};
ghost use Rattle.tree_places.specs.View.{nodes_of, IsKept};
ghost use Rattle.congruence.specs.Closed.{IsClosed};
ghost use Rattle.instance_rows.specs.Candidates.{marker};

use crate::markers::marker_places;
use branch_rows::literal_places;
use congruence::{TermClasses, term_classes};
use qed_terms::TermStore;
use std::alloc::Global;
use tree_places::TreeTable;
use wp_base::NoMemory;

/// The classes of the terms of a branch and of these terms, which may stand outside of it.
pub fn asked_classes<S: TermStore>(
    alloc: Global,
    store: &S,
    table: &mut TreeTable,
    literals: &[S::Id],
    asked: &[S::Id],
) -> Result<TermClasses, NoMemory>
    requires literals { All (S.held store.now) literals.now }
    requires asked { All (S.held store.now) asked.now }
    requires kept { IsKept table.old }
    ensures kept { OnOk result (IsKept table.new) }
    ensures grows { OnOk result (Grows (nodes_of table.old) (nodes_of table.new)) }
    ensures closed { IfOk result (λ closed. IsClosed (map (S.tree store.now) literals.now ++ map marker (map (S.tree store.now) asked.now)) (nodes_of table.new) closed.marks.items closed.classes.items) }
{
    let mut places = literal_places(alloc, store, table, literals)?;
    let markers = marker_places(alloc, store, table, asked)?;
    places.extend_from_slice(markers.as_slice())?;
    let closed = term_classes(alloc, table, places.as_slice())?;
    Ok(closed)
}
