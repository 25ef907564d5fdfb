// Markers: relations that bring terms into a branch and give no equality.
ghost use Rattle.std.specs.Prelude.{◌≡◌, ◌<◌, ◌∷◌, [], All, map, OnOk, IfOk};
ghost use Rattle.tree_places.specs.Tables.{Grows};
ghost use Rattle.tree_places.specs.View.{nodes_of, IsKept};
ghost use Rattle.term_forms.specs.Forms.{tree_of, count_of};
ghost use Rattle.instance_rows.specs.Candidates.{marker};

use qed_terms::{FormOp, Head, TermStore};
use std::alloc::Global;
use tree_places::{TreeTable, place_of, put};
use wp_base::NoMemory;

fn both(alloc: Global, first: usize, second: usize) -> Result<Vec<usize>, NoMemory>
    ensures { IfOk result (λ places. places.items ≡ first ∷ second ∷ []) }
{
    let mut places = Vec::with_capacity(alloc, 2)?;
    places.push(first)?;
    places.push(second)?;
    Ok(places)
}

/// The place of the marker of a term: the term is at most 0.
pub fn marker_place<S: TermStore>(
    alloc: Global,
    store: &S,
    table: &mut TreeTable,
    id: S::Id,
) -> Result<usize, NoMemory>
    requires held { S.held store.now id }
    requires kept { IsKept table.old }
    ensures kept { OnOk result (IsKept table.new) }
    ensures grows { OnOk result (Grows (nodes_of table.old) (nodes_of table.new)) }
    ensures below { IfOk result (λ place. place < count_of table.new) }
    ensures tree { IfOk result (λ place. tree_of table.new place ≡ marker (S.tree store.now id)) }
{
    let none = Vec::new(alloc);
    let zero = put(alloc, table, &Head::Num(0), none)?;
    let term = place_of(alloc, store, table, id)?;
    let kids = both(alloc, term, zero)?;
    let place = put(alloc, table, &Head::Form(FormOp::AtMost), kids)?;
    Ok(place)
}

/// The places of the markers of some terms.
pub fn marker_places<S: TermStore>(
    alloc: Global,
    store: &S,
    table: &mut TreeTable,
    ids: &[S::Id],
) -> Result<Vec<usize>, NoMemory>
    requires held { All (S.held store.now) ids.now }
    requires kept { IsKept table.old }
    ensures kept { OnOk result (IsKept table.new) }
    ensures grows { OnOk result (Grows (nodes_of table.old) (nodes_of table.new)) }
    ensures below { IfOk result (λ places. All (λ k. k < count_of table.new) places.items) }
    ensures trees { IfOk result (λ places. map (tree_of table.new) places.items ≡ map marker (map (S.tree store.now) ids.now)) }
{
    let mut places = Vec::new(alloc);
    for id in ids {
        places.push(marker_place(alloc, store, table, *id)?)?;
    }
    Ok(places)
}
