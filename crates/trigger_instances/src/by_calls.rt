// A `forall` by a call in its body, and those of the branch.
ghost use Rattle.std.specs.Prelude.{◌≡◌, All, map, OnOk};
ghost use Rattle.instance_rows.specs.Candidates.{by_call};
ghost use Rattle.forall_instances.specs.Foralls.{forall_of, ForallHeld};
ghost use Rattle.trigger_instances.specs.Ids.{by_one_call, call_of, CallHeld};
ghost use Rattle.trigger_instances.specs.Puts.{PutsAll};

use crate::calls::IdCall;
use branch_accesses::put_some;
use forall_instances::{IdForall, instance_by_call};
use qed_terms::TermStore;
use std::alloc::Global;
use wp_base::NoMemory;

fn put_call<S: TermStore>(
    alloc: Global,
    store: &mut S,
    quantified: &IdForall<S::Id>,
    trigger: &IdCall<S::Id>,
    there: &IdCall<S::Id>,
    out: &mut Vec<S::Id>,
) -> Result<(), NoMemory>
    requires quantified { ForallHeld (S.held store.old) quantified.now }
    requires trigger { CallHeld (S.held store.old) trigger.now }
    requires there { CallHeld (S.held store.old) there.now }
    requires out { All (S.held store.old) out.old.items }
    ensures { OnOk result (PutsAll (S.held store.old) (S.held store.new) (S.tree store.old) (S.tree store.new) out.old.items out.new.items (by_one_call (forall_of (S.tree store.old) quantified.now) (call_of (S.tree store.old) trigger.now) (call_of (S.tree store.old) there.now))) }
{
    let made = instance_by_call(
        alloc,
        store,
        quantified,
        trigger.name.bytes(),
        trigger.number,
        there.name.bytes(),
        there.number,
    )?;
    put_some(out, made)?;
    Ok(())
}

/// Puts the instances by a call in the body and each of these behind others.
pub fn put_calls<S: TermStore>(
    alloc: Global,
    store: &mut S,
    quantified: &IdForall<S::Id>,
    trigger: &IdCall<S::Id>,
    calls: &[IdCall<S::Id>],
    out: &mut Vec<S::Id>,
) -> Result<(), NoMemory>
    requires quantified { ForallHeld (S.held store.old) quantified.now }
    requires trigger { CallHeld (S.held store.old) trigger.now }
    requires calls { All (CallHeld (S.held store.old)) calls.now }
    requires out { All (S.held store.old) out.old.items }
    ensures { OnOk result (PutsAll (S.held store.old) (S.held store.new) (S.tree store.old) (S.tree store.new) out.old.items out.new.items (by_call (forall_of (S.tree store.old) quantified.now) (call_of (S.tree store.old) trigger.now) (map (call_of (S.tree store.old)) calls.now))) }
{
    for there in calls {
        put_call(alloc, store, quantified, trigger, there, out)?;
    }
    Ok(())
}
