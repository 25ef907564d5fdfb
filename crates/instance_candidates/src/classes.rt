// Which meetings are given: where the blocks are same, and the offsets aren't.
ghost use Rattle.std.specs.Prelude.{◌≡◌, ◌++◌, ◌∷◌, [], if◌then◌else◌, List, All, length, map, OnOk, IfOk};
ghost use Rattle.std.specs.Bool.{MatchBool};
ghost use Rattle.qed_terms.specs.Tree.{Tree};
ghost use Rattle.tree_places.specs.Tables.{Grows};
ghost use Rattle.tree_places.specs.View.{nodes_of, IsKept};
ghost use Rattle.congruence.specs.Closed.{IsClosed};
ghost use Rattle.instance_rows.specs.Candidates.{Given, IsGiven};
ghost use Rattle.instance_candidates.specs.Ids.{meeting_of, order_of, MeetingHeld};

use crate::meetings::Meeting;
use congruence::{TermClasses, same};
use qed_terms::TermStore;
use std::alloc::Global;
use tree_places::TreeTable;
use wp_base::NoMemory;

fn is_given<S: TermStore>(
    alloc: Global,
    store: &S,
    table: &mut TreeTable,
    closed: &TermClasses,
    meeting: Meeting<S::Id>,
) -> Result<bool, NoMemory>
    requires held { MeetingHeld (S.held store.now) meeting }
    requires kept { IsKept table.old }
    requires all { length closed.now.marks.items ≡ length closed.now.classes.items }
    ensures kept { OnOk result (IsKept table.new) }
    ensures grows { OnOk result (Grows (nodes_of table.old) (nodes_of table.new)) }
    ensures given { IfOk result (λ given. (ls : List Tree) → IsClosed ls (nodes_of table.old) closed.now.marks.items closed.now.classes.items → MatchBool given (IsGiven ls (meeting_of (S.tree store.now) meeting)) (IsGiven ls (meeting_of (S.tree store.now) meeting) → ⊥)) }
{
    let first = meeting.first;
    let second = meeting.second;
    if !same(alloc, store, table, closed, first.block, second.block)? {
        return Ok(false);
    }
    let offsets = same(alloc, store, table, closed, first.offset, second.offset)?;
    Ok(!offsets)
}

fn put_if<T: Copy + Drop>(out: &mut Vec<T>, item: T, put: bool) -> Result<(), NoMemory>
    ensures { OnOk result (out.new.items ≡ (if put then out.old.items ++ item ∷ [] else out.old.items)) }
{
    if put {
        out.push(item)?;
    }
    Ok(())
}

/// The meetings that are given among some.
pub fn given_meetings<S: TermStore>(
    alloc: Global,
    store: &S,
    table: &mut TreeTable,
    closed: &TermClasses,
    meetings: &[Meeting<S::Id>],
) -> Result<Vec<Meeting<S::Id>>, NoMemory>
    requires held { All (MeetingHeld (S.held store.now)) meetings.now }
    requires kept { IsKept table.old }
    requires all { length closed.now.marks.items ≡ length closed.now.classes.items }
    ensures kept { OnOk result (IsKept table.new) }
    ensures grows { OnOk result (Grows (nodes_of table.old) (nodes_of table.new)) }
    ensures held { IfOk result (λ given. All (MeetingHeld (S.held store.now)) given.items) }
    ensures given { IfOk result (λ given. (ls : List Tree) → IsClosed ls (nodes_of table.old) closed.now.marks.items closed.now.classes.items → Given ls (map (meeting_of (S.tree store.now)) meetings.now) (map (order_of (S.tree store.now)) given.items)) }
{
    let mut given = Vec::new(alloc);
    for meeting in meetings {
        let put = is_given(alloc, store, table, closed, *meeting)?;
        put_if(&mut given, *meeting, put)?;
    }
    Ok(given)
}
