// The instances of the `forall`s among literals.
ghost use Rattle.std.specs.Prelude.{◌≡◌, List, ◌++◌, All, length, map, OnOk, IfOk};
ghost use Rattle.qed_terms.specs.Store.{KeepsOlder};
ghost use Rattle.qed_terms.specs.Tree.{Tree};
ghost use Rattle.qed_terms.specs.View.{view_logic};
ghost use Rattle.tree_places.specs.Tables.{Grows};
ghost use Rattle.tree_places.specs.View.{nodes_of, IsKept};
ghost use Rattle.congruence.specs.Closed.{IsClosed};
ghost use Rattle.instance_rows.specs.Candidates.{by_literal, by_nodes, forall_candidates, marker, Given};
ghost use Rattle.instance_rows.specs.Triggers.{nodes_with, quantified_at};
ghost use Rattle.branch_accesses.specs.Ids.{access_of, AccessHeld};
ghost use Rattle.forall_instances.specs.Foralls.{forall_of, ForallHeld};
ghost use Rattle.trigger_instances.specs.Ids.{call_of, CallHeld};
ghost use Rattle.trigger_instances.specs.Puts.{Puts};

use crate::calls::IdCall;
use crate::nodes::put_nodes;
use asked_classes::asked_classes;
use branch_accesses::IdAccess;
use congruence::TermClasses;
use forall_instances::{IdForall, push_nodes_with, quantified_at};
use qed_terms::{LogicFn, TermStore};
use std::alloc::Global;
use tree_places::TreeTable;
use wp_base::{List, NoMemory};

fn put_forall<S: TermStore>(
    alloc: Global,
    store: &mut S,
    table: &mut TreeTable,
    closed: &TermClasses,
    functions: &List<LogicFn>,
    accesses: &[IdAccess<S::Id>],
    calls: &[IdCall<S::Id>],
    quantified: &IdForall<S::Id>,
    out: &mut Vec<S::Id>,
) -> Result<(), NoMemory>
    requires accesses { All (AccessHeld (S.held store.old)) accesses.now }
    requires calls { All (CallHeld (S.held store.old)) calls.now }
    requires quantified { ForallHeld (S.held store.old) quantified.now }
    requires out { All (S.held store.old) out.old.items }
    requires kept { IsKept table.old }
    requires all { length closed.now.marks.items ≡ length closed.now.classes.items }
    ensures { OnOk result (Puts closed.now (S.held store.old) (S.held store.new) (S.tree store.old) (S.tree store.new) table.old table.new out.old.items out.new.items (by_nodes (map view_logic functions.now) (map (access_of (S.tree store.old)) accesses.now) (map (call_of (S.tree store.old)) calls.now) (forall_of (S.tree store.old) quantified.now) (nodes_with quantified.now.name (S.tree store.old quantified.now.body)))) }
{
    let mut nodes = Vec::new(alloc);
    push_nodes_with(
        &*store,
        quantified.name.bytes(),
        quantified.body,
        &mut nodes,
    )?;
    put_nodes(
        alloc,
        store,
        table,
        closed,
        functions,
        accesses,
        calls,
        quantified,
        nodes.as_slice(),
        out,
    )?;
    Ok(())
}

// Of a literal: none where it is no `forall`.
fn put_literal<S: TermStore>(
    alloc: Global,
    store: &mut S,
    table: &mut TreeTable,
    closed: &TermClasses,
    functions: &List<LogicFn>,
    accesses: &[IdAccess<S::Id>],
    calls: &[IdCall<S::Id>],
    literal: S::Id,
    out: &mut Vec<S::Id>,
) -> Result<(), NoMemory>
    requires accesses { All (AccessHeld (S.held store.old)) accesses.now }
    requires calls { All (CallHeld (S.held store.old)) calls.now }
    requires literal { S.held store.old literal }
    requires out { All (S.held store.old) out.old.items }
    requires kept { IsKept table.old }
    requires all { length closed.now.marks.items ≡ length closed.now.classes.items }
    ensures { OnOk result (Puts closed.now (S.held store.old) (S.held store.new) (S.tree store.old) (S.tree store.new) table.old table.new out.old.items out.new.items (by_literal (map view_logic functions.now) (map (access_of (S.tree store.old)) accesses.now) (map (call_of (S.tree store.old)) calls.now) (quantified_at (S.tree store.old literal)))) }
{
    let found = quantified_at(alloc, &*store, literal)?;
    match found {
        Some(quantified) => {
            put_forall(
                alloc,
                store,
                table,
                closed,
                functions,
                accesses,
                calls,
                &quantified,
                out,
            )?;
            Ok(())
        }
        None => Ok(()),
    }
}

fn put_literals<S: TermStore>(
    alloc: Global,
    store: &mut S,
    table: &mut TreeTable,
    closed: &TermClasses,
    functions: &List<LogicFn>,
    accesses: &[IdAccess<S::Id>],
    calls: &[IdCall<S::Id>],
    literals: &[S::Id],
    out: &mut Vec<S::Id>,
) -> Result<(), NoMemory>
    requires accesses { All (AccessHeld (S.held store.old)) accesses.now }
    requires calls { All (CallHeld (S.held store.old)) calls.now }
    requires literals { All (S.held store.old) literals.now }
    requires out { All (S.held store.old) out.old.items }
    requires kept { IsKept table.old }
    requires all { length closed.now.marks.items ≡ length closed.now.classes.items }
    ensures { OnOk result (Puts closed.now (S.held store.old) (S.held store.new) (S.tree store.old) (S.tree store.new) table.old table.new out.old.items out.new.items (forall_candidates (map view_logic functions.now) (map (access_of (S.tree store.old)) accesses.now) (map (call_of (S.tree store.old)) calls.now) (map (S.tree store.old) literals.now))) }
{
    for literal in literals {
        put_literal(
            alloc, store, table, closed, functions, accesses, calls, *literal, out,
        )?;
    }
    Ok(())
}

/// The instances of the `forall`s among literals that are given by these classes, by these accesses and calls of the branch.
pub fn given_instances<S: TermStore>(
    alloc: Global,
    store: &mut S,
    table: &mut TreeTable,
    closed: &TermClasses,
    functions: &List<LogicFn>,
    accesses: &[IdAccess<S::Id>],
    calls: &[IdCall<S::Id>],
    literals: &[S::Id],
) -> Result<Vec<S::Id>, NoMemory>
    requires accesses { All (AccessHeld (S.held store.old)) accesses.now }
    requires calls { All (CallHeld (S.held store.old)) calls.now }
    requires literals { All (S.held store.old) literals.now }
    requires kept { IsKept table.old }
    requires all { length closed.now.marks.items ≡ length closed.now.classes.items }
    ensures older { OnOk result (KeepsOlder (S.held store.old) (S.held store.new) (S.tree store.old) (S.tree store.new)) }
    ensures held { IfOk result (λ made. All (S.held store.new) made.items) }
    ensures kept { OnOk result (IsKept table.new) }
    ensures grows { OnOk result (Grows (nodes_of table.old) (nodes_of table.new)) }
    ensures given { IfOk result (λ made. (ls : List Tree) → IsClosed ls (nodes_of table.old) closed.now.marks.items closed.now.classes.items → Given ls (forall_candidates (map view_logic functions.now) (map (access_of (S.tree store.old)) accesses.now) (map (call_of (S.tree store.old)) calls.now) (map (S.tree store.old) literals.now)) (map (S.tree store.new) made.items)) }
{
    let mut made = Vec::new(alloc);
    put_literals(
        alloc, store, table, closed, functions, accesses, calls, literals, &mut made,
    )?;
    Ok(made)
}

/// The instances of the `forall`s that are given in a branch of these literals, where it is asked about these terms too, by these accesses and calls of it.
pub fn forall_formulas<S: TermStore>(
    alloc: Global,
    store: &mut S,
    table: &mut TreeTable,
    literals: &[S::Id],
    asked: &[S::Id],
    functions: &List<LogicFn>,
    accesses: &[IdAccess<S::Id>],
    calls: &[IdCall<S::Id>],
) -> Result<Vec<S::Id>, NoMemory>
    requires literals { All (S.held store.old) literals.now }
    requires asked { All (S.held store.old) asked.now }
    requires accesses { All (AccessHeld (S.held store.old)) accesses.now }
    requires calls { All (CallHeld (S.held store.old)) calls.now }
    requires kept { IsKept table.old }
    ensures older { OnOk result (KeepsOlder (S.held store.old) (S.held store.new) (S.tree store.old) (S.tree store.new)) }
    ensures held { IfOk result (λ made. All (S.held store.new) made.items) }
    ensures kept { OnOk result (IsKept table.new) }
    ensures grows { OnOk result (Grows (nodes_of table.old) (nodes_of table.new)) }
    ensures given { IfOk result (λ made. Given (map (S.tree store.old) literals.now ++ map marker (map (S.tree store.old) asked.now)) (forall_candidates (map view_logic functions.now) (map (access_of (S.tree store.old)) accesses.now) (map (call_of (S.tree store.old)) calls.now) (map (S.tree store.old) literals.now)) (map (S.tree store.new) made.items)) }
{
    let closed = asked_classes(alloc, &*store, table, literals, asked)?;
    let made = given_instances(
        alloc, store, table, &closed, functions, accesses, calls, literals,
    )?;
    Ok(made)
}
