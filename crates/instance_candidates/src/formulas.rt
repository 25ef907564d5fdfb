// The formulas of meetings, put into a store: one offset is the smaller, or they are equal.
ghost use Rattle.std.specs.Prelude.{◌≡◌, ℕ, All, map, OnOk, IfOk};
ghost use Rattle.qed_terms.specs.Store.{KeepsOlder};
ghost use Rattle.qed_terms.specs.Tree.{Tree};
ghost use Rattle.term_sketches.specs.Sketches.{sketch_tree, Draws};
ghost use Rattle.instance_rows.specs.PairRows.{order_of_offsets};
ghost use Rattle.instance_candidates.specs.Ids.{order_of, MeetingHeld};

use crate::meetings::Meeting;
use drawn_instances::two_ids;
use qed_terms::TermStore;
use std::alloc::Global;
use term_sketches::{Draft, Sketch, equal, less, make_sketch, or_of, slot};
use wp_base::NoMemory;

/// Over two offsets.
fn order_of_offsets(alloc: Global) -> Draft
    ensures { (f : ℕ → Tree) → Draws f result (order_of_offsets (f 0) (f 1)) }
{
    or_of(
        alloc,
        [
            less(alloc, slot(0), slot(1)),
            less(alloc, slot(1), slot(0)),
            equal(alloc, slot(0), slot(1)),
        ],
    )
}

/// The formula of a meeting, of which `order` is the sketch.
fn order_of<S: TermStore>(
    alloc: Global,
    store: &mut S,
    order: &Sketch,
    meeting: Meeting<S::Id>,
) -> Result<S::Id, NoMemory>
    requires held { MeetingHeld (S.held store.old) meeting }
    requires order { (f : ℕ → Tree) → sketch_tree f order.now ≡ order_of_offsets (f 0) (f 1) }
    ensures older { OnOk result (KeepsOlder (S.held store.old) (S.held store.new) (S.tree store.old) (S.tree store.new)) }
    ensures held { IfOk result (λ id. S.held store.new id) }
    ensures stands { IfOk result (λ id. S.tree store.new id ≡ order_of (S.tree store.old) meeting) }
{
    let first = meeting.first;
    let second = meeting.second;
    let ids = two_ids(alloc, first.offset, second.offset)?;
    let id = make_sketch(alloc, store, ids.as_slice(), order)?;
    Ok(id)
}

/// The formulas of some meetings, of which `order` is the sketch.
fn orders_by<S: TermStore>(
    alloc: Global,
    store: &mut S,
    order: &Sketch,
    meetings: &[Meeting<S::Id>],
) -> Result<Vec<S::Id>, NoMemory>
    requires held { All (MeetingHeld (S.held store.old)) meetings.now }
    requires order { (f : ℕ → Tree) → sketch_tree f order.now ≡ order_of_offsets (f 0) (f 1) }
    ensures older { OnOk result (KeepsOlder (S.held store.old) (S.held store.new) (S.tree store.old) (S.tree store.new)) }
    ensures held { IfOk result (λ made. All (S.held store.new) made.items) }
    ensures stand { IfOk result (λ made. map (S.tree store.new) made.items ≡ map (order_of (S.tree store.old)) meetings.now) }
{
    let mut made = Vec::new(alloc);
    for meeting in meetings {
        made.push(order_of(alloc, store, order, *meeting)?)?;
    }
    Ok(made)
}

/// The formulas of some meetings.
pub fn orders<S: TermStore>(
    alloc: Global,
    store: &mut S,
    meetings: &[Meeting<S::Id>],
) -> Result<Vec<S::Id>, NoMemory>
    requires { All (MeetingHeld (S.held store.old)) meetings.now }
    ensures older { OnOk result (KeepsOlder (S.held store.old) (S.held store.new) (S.tree store.old) (S.tree store.new)) }
    ensures held { IfOk result (λ made. All (S.held store.new) made.items) }
    ensures stand { IfOk result (λ made. map (S.tree store.new) made.items ≡ map (order_of (S.tree store.old)) meetings.now) }
{
    let order = order_of_offsets(alloc)?;
    let made = orders_by(alloc, store, &order, meetings)?;
    Ok(made)
}
