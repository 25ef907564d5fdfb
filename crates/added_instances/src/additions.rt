// Formulas in normal form, less those that are `true` or there.
ghost use Rattle.std.specs.Prelude.{◌≡◌, true, List, map, All, OnOk, IfOk};
ghost use Rattle.qed_terms.specs.Order.{same};
ghost use Rattle.qed_terms.specs.Setting.{is_regular};
ghost use Rattle.qed_terms.specs.Store.{KeepsOlder};
ghost use Rattle.qed_terms.specs.Tree.{true_tree};
ghost use Rattle.qed_terms.specs.View.{view_setting};
ghost use Rattle.qed_rules.specs.Rules.{step};
ghost use Rattle.qed_simplify.specs.Normal.{Normal};
ghost use Rattle.tree_places.specs.Tables.{Grows};
ghost use Rattle.tree_places.specs.View.{nodes_of, IsKept};
ghost use Rattle.branch_occurrences.specs.Marked.{AreMarked};
ghost use Rattle.instance_rows.specs.Round.{Adds};
ghost use Rattle.added_instances.specs.New.{IsKeptAt, IsNew};
ghost use Rattle.added_instances.specs.Truth.{is_truth};

use branch_changes::ChangeRules;
use branch_occurrences::{is_marked, mark, marks_of};
use qed_terms::{Head, Setting, TermStore};
use std::alloc::Global;
use tree_places::{TreeTable, place_of};
use wp_base::{List, NoMemory};

fn is_truth(head: &Head) -> bool
    ensures { result ≡ is_truth head.now }
{
    matches!(head, Head::True)
}

/// Whether a formula is `true`.
pub fn is_true<S: TermStore>(store: &S, id: S::Id) -> bool
    requires { S.held store.now id }
    ensures { result ≡ same true_tree (S.tree store.now id) }
{
    let bare = store.kids(id).len() == 0;
    is_truth(store.head(id)) && bare
}

/// The place of the tree of a formula that is neither `true` nor among the ids whose trees are marked; none for any other.
fn new_place<S: TermStore>(
    alloc: Global,
    store: &S,
    table: &mut TreeTable,
    marks: &[bool],
    id: S::Id,
) -> Result<Option<usize>, NoMemory>
    requires held { S.held store.now id }
    requires kept { IsKept table.old }
    ensures kept { OnOk result (IsKept table.new) }
    ensures grows { OnOk result (Grows (nodes_of table.old) (nodes_of table.new)) }
    ensures new { IfOk result (λ found. (ids : List S.Id) → AreMarked (S.tree store.now) (nodes_of table.old) ids marks.now → IsNew (nodes_of table.new) (map (S.tree store.now) ids) (S.tree store.now id) found) }
{
    let place = place_of(alloc, store, table, id)?;
    if is_true(store, id) {
        return Ok(None);
    }
    if is_marked(marks, place) {
        return Ok(None);
    }
    Ok(Some(place))
}

// Keeps an id, and marks its place, where there is one.
fn keep_at<I: Copy + Drop>(
    marks: &mut Vec<bool>,
    made: &mut List<I>,
    found: Option<usize>,
    id: I,
) -> Result<(), NoMemory>
    ensures { OnOk result (IsKeptAt marks.old.items marks.new.items made.old made.new id found) }
{
    match found {
        None => Ok(()),
        Some(place) => {
            mark(marks, place)?;
            made.push(id)?;
            Ok(())
        }
    }
}

/// Formulas in normal form, one after the other, less those that are `true`, among those that are there, or added before.
pub fn added<S: TermStore, R: ChangeRules<S>>(
    alloc: Global,
    store: &mut S,
    rules: &mut R,
    table: &mut TreeTable,
    there: &[S::Id],
    formulas: &[S::Id],
    world: &Setting,
) -> Result<List<S::Id>, NoMemory>
    requires ready { R.ready rules.old store.old }
    requires regular { is_regular (view_setting world.now) ≡ true }
    requires kept { IsKept table.old }
    requires there { All (S.held store.old) there.now }
    requires formulas { All (S.held store.old) formulas.now }
    ensures ready { OnOk result (R.ready rules.new store.new) }
    ensures older { OnOk result (KeepsOlder (S.held store.old) (S.held store.new) (S.tree store.old) (S.tree store.new)) }
    ensures kept { OnOk result (IsKept table.new) }
    ensures held { IfOk result (All (S.held store.new)) }
    ensures adds { IfOk result (λ made. Adds (Normal (step (view_setting world.now))) (map (S.tree store.old) there.now) (map (S.tree store.old) formulas.now) (map (S.tree store.new) made)) }
{
    let mut marks = marks_of(alloc, &*store, table, there)?;
    let mut made = List::new(alloc);
    for formula in formulas {
        let normal = rules.normal(alloc, store, *formula, world)?;
        let found = new_place(alloc, &*store, table, marks.as_slice(), normal)?;
        keep_at(&mut marks, &mut made, found, normal)?;
    }
    Ok(made)
}
