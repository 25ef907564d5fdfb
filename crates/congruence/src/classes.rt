// The classes of the terms of a branch, and whether two terms are same.
ghost use Rattle.std.specs.Prelude.{◌≡◌, ◌↔◌, ◌<◌, true, List, All, length, map, OnOk, IfOk};
ghost use Rattle.qed_terms.specs.Tree.{Tree};
ghost use Rattle.same_terms.specs.SameTerms.{SameTerm};
ghost use Rattle.tree_places.specs.Tables.{Grows};
ghost use Rattle.tree_places.specs.View.{nodes_of, IsKept};
ghost use Rattle.term_forms.specs.Forms.{tree_of, count_of};
ghost use Rattle.congruence.specs.Closed.{same_at, IsClosed};

use branch_rows::branch_rows;
use qed_terms::TermStore;
use same_places::close;
use std::alloc::Global;
use tree_places::{TreeTable, place_of};
use wp_base::NoMemory;

/// Which places have a term of the branch, and the class of each place.
#[derive(Drop)]
pub struct TermClasses {
    pub marks: Vec<bool>,
    pub classes: Vec<usize>,
}

/// The classes of the terms of the branch of the literals at these places.
pub fn term_classes(
    alloc: Global,
    table: &mut TreeTable,
    literals: &[usize],
) -> Result<TermClasses, NoMemory>
    requires kept { IsKept table.old }
    requires below { All (λ k. k < count_of table.old) literals.now }
    ensures kept { OnOk result (IsKept table.new) }
    ensures grows { OnOk result (Grows (nodes_of table.old) (nodes_of table.new)) }
    ensures closed { IfOk result (λ closed. IsClosed (map (tree_of table.old) literals.now) (nodes_of table.new) closed.marks.items closed.classes.items) }
{
    let branch = branch_rows(alloc, table, literals)?;
    let count = table.nodes.len();
    let classes = close(
        alloc,
        count,
        branch.rows.as_slice(),
        branch.pairs.as_slice(),
    )?;
    Ok(TermClasses {
        marks: branch.marks,
        classes,
    })
}

/// Whether two places are marked and of one class.
fn same_at(closed: &TermClasses, first: usize, second: usize) -> bool
    requires { length closed.now.marks.items ≡ length closed.now.classes.items }
    ensures { result ≡ same_at closed.now.marks.items closed.now.classes.items first second }
{
    first < closed.classes.len()
        && second < closed.classes.len()
        && closed.marks[first]
        && closed.classes[first] == closed.classes[second]
}

/// Whether the terms of two ids are same in the branch.
pub fn same<S: TermStore>(
    alloc: Global,
    store: &S,
    table: &mut TreeTable,
    closed: &TermClasses,
    first: S::Id,
    second: S::Id,
) -> Result<bool, NoMemory>
    requires first { S.held store.now first }
    requires second { S.held store.now second }
    requires kept { IsKept table.old }
    requires all { length closed.now.marks.items ≡ length closed.now.classes.items }
    ensures kept { OnOk result (IsKept table.new) }
    ensures grows { OnOk result (Grows (nodes_of table.old) (nodes_of table.new)) }
    ensures same { IfOk result (λ same. (ls : List Tree) → IsClosed ls (nodes_of table.old) closed.now.marks.items closed.now.classes.items → (same ≡ true) ↔ SameTerm ls (S.tree store.now first) (S.tree store.now second)) }
{
    let first = place_of(alloc, store, table, first)?;
    let second = place_of(alloc, store, table, second)?;
    Ok(same_at(closed, first, second))
}
