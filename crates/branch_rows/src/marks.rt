// Marks of what stands at some roots outside of quantifiers.
ghost use Rattle.std.specs.Prelude.{◌≡◌, ◌<◌, false, Bool, ℕ, Some, All, length, slice_get, IfOk};
ghost use Rattle.tree_places.specs.View.{nodes_of, node_of, IsKept};
ghost use Rattle.term_forms.specs.Forms.{count_of};
ghost use Rattle.branch_rows.specs.Marks.{mark_at, AlsoMarked, KidsMarked, AreMarks};

use std::alloc::Global;
use term_forms::is_binder;
use tree_places::{TreeNode, TreeTable};
use wp_base::NoMemory;

/// The node at a place.
pub fn node_there(table: &TreeTable, place: usize) -> &TreeNode
    requires { place < count_of table.now }
    ensures { slice_get (nodes_of table.now) place ≡ Some (node_of result.now) }
{
    &table.nodes[place]
}

/// So many places, none of them marked.
fn unmarked(alloc: Global, count: usize) -> Result<Vec<bool>, NoMemory>
    ensures all { IfOk result (λ marks. length marks.items ≡ count) }
    ensures none { IfOk result (λ marks. (k : ℕ) → mark_at marks.items k ≡ false) }
{
    let mut marks = Vec::new(alloc);
    for _i in 0..count {
        marks.push(false)?;
    }
    Ok(marks)
}

/// These places marked too.
fn mark_all(marks: &mut Vec<bool>, places: &[usize])
    requires { All (λ k. k < length marks.old.items) places.now }
    ensures { AlsoMarked places.now marks.old.items marks.new.items }
{
    for place in places {
        marks[*place] = true;
    }
}

/// The kids of a marked place marked too, but those of a quantifier.
fn mark_kids(table: &TreeTable, marks: &mut Vec<bool>, place: usize)
    requires kept { IsKept table.now }
    requires below { place < count_of table.now }
    requires all { length marks.old.items ≡ count_of table.now }
    ensures { KidsMarked (nodes_of table.now) place marks.old.items marks.new.items }
{
    if !marks[place] {
        return;
    }
    let node = node_there(table, place);
    if is_binder(&node.head) {
        return;
    }
    mark_all(marks, node.kids.as_slice());
}

/// Which places have trees that stand in those at the roots, outside of quantifiers.
pub fn marks_under(alloc: Global, table: &TreeTable, roots: &[usize]) -> Result<Vec<bool>, NoMemory>
    requires kept { IsKept table.now }
    requires below { All (λ k. k < count_of table.now) roots.now }
    ensures { IfOk result (λ marks. AreMarks (nodes_of table.now) roots.now marks.items) }
{
    let count = table.nodes.len();
    let mut marks = unmarked(alloc, count)?;
    mark_all(&mut marks, roots);
    for done in 0..count {
        mark_kids(table, &mut marks, count - 1 - done);
    }
    Ok(marks)
}
