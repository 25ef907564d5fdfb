// A `forall` by the nodes of its body.
ghost use Rattle.std.specs.Prelude.{◌≡◌, All, length, map, OnOk};
ghost use Rattle.qed_terms.specs.View.{view_logic};
ghost use Rattle.tree_places.specs.View.{IsKept};
ghost use Rattle.instance_rows.specs.Accesses.{access_at};
ghost use Rattle.instance_rows.specs.Candidates.{by_nodes, if_access, if_call};
ghost use Rattle.instance_rows.specs.Triggers.{call_at};
ghost use Rattle.branch_accesses.specs.Ids.{access_of, AccessHeld};
ghost use Rattle.forall_instances.specs.Foralls.{forall_of, ForallHeld};
ghost use Rattle.trigger_instances.specs.Ids.{by_one_node, call_of, CallHeld};
ghost use Rattle.trigger_instances.specs.Puts.{Puts, PutsAll};

use crate::accesses::put_accesses;
use crate::by_calls::put_calls;
use crate::calls::{IdCall, call_at};
use branch_accesses::{IdAccess, access_at};
use congruence::TermClasses;
use forall_instances::IdForall;
use qed_terms::{LogicFn, TermStore};
use std::alloc::Global;
use tree_places::TreeTable;
use wp_base::{List, NoMemory};

// Where the node is an access.
fn put_by_access<S: TermStore>(
    alloc: Global,
    store: &mut S,
    table: &mut TreeTable,
    closed: &TermClasses,
    accesses: &[IdAccess<S::Id>],
    quantified: &IdForall<S::Id>,
    node: S::Id,
    out: &mut Vec<S::Id>,
) -> Result<(), NoMemory>
    requires accesses { All (AccessHeld (S.held store.old)) accesses.now }
    requires quantified { ForallHeld (S.held store.old) quantified.now }
    requires node { S.held store.old node }
    requires out { All (S.held store.old) out.old.items }
    requires kept { IsKept table.old }
    requires all { length closed.now.marks.items ≡ length closed.now.classes.items }
    ensures { OnOk result (Puts closed.now (S.held store.old) (S.held store.new) (S.tree store.old) (S.tree store.new) table.old table.new out.old.items out.new.items (if_access (forall_of (S.tree store.old) quantified.now) (access_at (S.tree store.old node)) (map (access_of (S.tree store.old)) accesses.now))) }
{
    match access_at(&*store, node) {
        Some(trigger) => {
            put_accesses(
                alloc, store, table, closed, quantified, trigger, accesses, out,
            )?;
            Ok(())
        }
        None => Ok(()),
    }
}

// Where the node is a call.
fn put_by_call<S: TermStore>(
    alloc: Global,
    store: &mut S,
    functions: &List<LogicFn>,
    calls: &[IdCall<S::Id>],
    quantified: &IdForall<S::Id>,
    node: S::Id,
    out: &mut Vec<S::Id>,
) -> Result<(), NoMemory>
    requires calls { All (CallHeld (S.held store.old)) calls.now }
    requires quantified { ForallHeld (S.held store.old) quantified.now }
    requires node { S.held store.old node }
    requires out { All (S.held store.old) out.old.items }
    ensures { OnOk result (PutsAll (S.held store.old) (S.held store.new) (S.tree store.old) (S.tree store.new) out.old.items out.new.items (if_call (forall_of (S.tree store.old) quantified.now) (call_at (map view_logic functions.now) (S.tree store.old node)) (map (call_of (S.tree store.old)) calls.now))) }
{
    let found = call_at(alloc, &*store, functions, node)?;
    match found {
        Some(trigger) => {
            put_calls(alloc, store, quantified, &trigger, calls, out)?;
            Ok(())
        }
        None => Ok(()),
    }
}

fn put_node<S: TermStore>(
    alloc: Global,
    store: &mut S,
    table: &mut TreeTable,
    closed: &TermClasses,
    functions: &List<LogicFn>,
    accesses: &[IdAccess<S::Id>],
    calls: &[IdCall<S::Id>],
    quantified: &IdForall<S::Id>,
    node: S::Id,
    out: &mut Vec<S::Id>,
) -> Result<(), NoMemory>
    requires accesses { All (AccessHeld (S.held store.old)) accesses.now }
    requires calls { All (CallHeld (S.held store.old)) calls.now }
    requires quantified { ForallHeld (S.held store.old) quantified.now }
    requires node { S.held store.old node }
    requires out { All (S.held store.old) out.old.items }
    requires kept { IsKept table.old }
    requires all { length closed.now.marks.items ≡ length closed.now.classes.items }
    ensures { OnOk result (Puts closed.now (S.held store.old) (S.held store.new) (S.tree store.old) (S.tree store.new) table.old table.new out.old.items out.new.items (by_one_node (map view_logic functions.now) (map (access_of (S.tree store.old)) accesses.now) (map (call_of (S.tree store.old)) calls.now) (forall_of (S.tree store.old) quantified.now) (S.tree store.old node))) }
{
    put_by_access(alloc, store, table, closed, accesses, quantified, node, out)?;
    put_by_call(alloc, store, functions, calls, quantified, node, out)?;
    Ok(())
}

/// Puts the instances by these nodes of the body behind others.
pub fn put_nodes<S: TermStore>(
    alloc: Global,
    store: &mut S,
    table: &mut TreeTable,
    closed: &TermClasses,
    functions: &List<LogicFn>,
    accesses: &[IdAccess<S::Id>],
    calls: &[IdCall<S::Id>],
    quantified: &IdForall<S::Id>,
    nodes: &[S::Id],
    out: &mut Vec<S::Id>,
) -> Result<(), NoMemory>
    requires accesses { All (AccessHeld (S.held store.old)) accesses.now }
    requires calls { All (CallHeld (S.held store.old)) calls.now }
    requires quantified { ForallHeld (S.held store.old) quantified.now }
    requires nodes { All (S.held store.old) nodes.now }
    requires out { All (S.held store.old) out.old.items }
    requires kept { IsKept table.old }
    requires all { length closed.now.marks.items ≡ length closed.now.classes.items }
    ensures { OnOk result (Puts closed.now (S.held store.old) (S.held store.new) (S.tree store.old) (S.tree store.new) table.old table.new out.old.items out.new.items (by_nodes (map view_logic functions.now) (map (access_of (S.tree store.old)) accesses.now) (map (call_of (S.tree store.old)) calls.now) (forall_of (S.tree store.old) quantified.now) (map (S.tree store.old) nodes.now))) }
{
    for node in nodes {
        put_node(
            alloc, store, table, closed, functions, accesses, calls, quantified, *node, out,
        )?;
    }
    Ok(())
}
