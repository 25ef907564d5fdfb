// The first `or` that waits, with each of its disjuncts in its place.
ghost use Rattle.std.specs.Prelude.{◌≡◌, ◌+◌, ◌<◌, ◌++◌, take, drop, length, map, slice_index_or, OnOk};
ghost use Rattle.qed_terms.specs.Nodes.{kids_of};
ghost use Rattle.branches.specs.Expansion.{with_each};
ghost use Rattle.branches.specs.Ids.{tasks_of, BranchHeld, TasksHeld};

use crate::tasks::{IdTask, in_place};
use qed_terms::{IdBranch, TermStore};
use std::alloc::Global;
use wp_base::NoMemory;

/// Puts branches on the stack, each with one disjunct in the place of the `or`, the first disjunct last.
pub fn push_disjuncts<S: TermStore>(
    alloc: Global,
    store: &S,
    fuel: u32,
    branch: &IdBranch<S::Id>,
    at: usize,
    todo: &mut Vec<IdTask<S::Id>>,
) -> Result<(), NoMemory>
    requires within { at < length branch.now.waiting }
    requires held { BranchHeld (S.held store.now) branch.now }
    requires todo { TasksHeld (S.held store.now) todo.old.items }
    ensures pushed { OnOk result ((id : S.Id) → tasks_of (S.tree store.now) todo.new.items ≡ with_each fuel (map (S.tree store.now) branch.now.literals) (take at (map (S.tree store.now) branch.now.waiting)) (drop (at + 1) (map (S.tree store.now) branch.now.waiting)) (kids_of (S.tree store.now (slice_index_or branch.now.waiting at id))) ++ tasks_of (S.tree store.now) todo.old.items) }
    ensures held { OnOk result (TasksHeld (S.held store.now) todo.new.items) }
{
    let id = branch.waiting.as_slice()[at];
    let kids = store.kids(id);
    let count = kids.len();
    for i in 0..count {
        let made = in_place(alloc, branch, at, kids[count - 1 - i])?;
        todo.push(IdTask {
            fuel,
            asks: true,
            at: made,
        })?;
    }
    Ok(())
}
