// The trees of a store, by places.
ghost use Rattle.std.specs.Prelude.{◌≡◌, ◌<◌, length, OnOk, IfOk};
ghost use Rattle.tree_places.specs.Tables.{tree_at, Grows};
ghost use Rattle.tree_places.specs.View.{nodes_of, IsKept};

use crate::table::{TreeTable, put};
use qed_terms::TermStore;
use std::alloc::Global;
use wp_base::NoMemory;

/// The place of the tree of an id.
pub fn place_of<S: TermStore>(
    alloc: Global,
    store: &S,
    table: &mut TreeTable,
    id: S::Id,
) -> Result<usize, NoMemory>
    requires held { S.held store.now id }
    requires kept { IsKept table.old }
    ensures kept { OnOk result (IsKept table.new) }
    ensures grows { OnOk result (Grows (nodes_of table.old) (nodes_of table.new)) }
    ensures below { IfOk result (λ place. place < length (nodes_of table.new)) }
    ensures tree { IfOk result (λ place. tree_at (nodes_of table.new) place ≡ S.tree store.now id) }
{
    let mut kids = Vec::new(alloc);
    for kid in store.kids(id) {
        kids.push(place_of(alloc, store, table, *kid)?)?;
    }
    let place = put(alloc, table, store.head(id), kids)?;
    Ok(place)
}
