// The places of the literals of a branch.
ghost use Rattle.std.specs.Prelude.{◌≡◌, ◌<◌, All, map, OnOk, IfOk};
ghost use Rattle.tree_places.specs.Tables.{Grows};
ghost use Rattle.tree_places.specs.View.{nodes_of, IsKept};
ghost use Rattle.term_forms.specs.Forms.{tree_of, count_of};

use qed_terms::TermStore;
use std::alloc::Global;
use tree_places::{TreeTable, place_of};
use wp_base::NoMemory;

/// The places of the trees of some ids.
pub fn literal_places<S: TermStore>(
    alloc: Global,
    store: &S,
    table: &mut TreeTable,
    ids: &[S::Id],
) -> Result<Vec<usize>, NoMemory>
    requires held { All (S.held store.now) ids.now }
    requires kept { IsKept table.old }
    ensures kept { OnOk result (IsKept table.new) }
    ensures grows { OnOk result (Grows (nodes_of table.old) (nodes_of table.new)) }
    ensures below { IfOk result (λ places. All (λ k. k < count_of table.new) places.items) }
    ensures trees { IfOk result (λ places. map (tree_of table.new) places.items ≡ map (S.tree store.now) ids.now) }
{
    let mut places = Vec::new(alloc);
    for id in ids {
        places.push(place_of(alloc, store, table, *id)?)?;
    }
    Ok(places)
}
