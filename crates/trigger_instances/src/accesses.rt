// A `forall` by an access in its body, and those of the branch.
ghost use Rattle.std.specs.Prelude.{◌≡◌, List, [], ◌∷◌, All, length, map, OnOk, IfOk};
ghost use Rattle.std.specs.Bool.{MatchBool};
ghost use Rattle.wp_base.specs.Blocks.{same_cell};
ghost use Rattle.qed_terms.specs.Tree.{Tree};
ghost use Rattle.same_terms.specs.SameTerms.{SameTerm};
ghost use Rattle.tree_places.specs.Tables.{Grows};
ghost use Rattle.tree_places.specs.View.{nodes_of, IsKept};
ghost use Rattle.congruence.specs.Closed.{IsClosed};
ghost use Rattle.instance_rows.specs.Candidates.{by_access};
ghost use Rattle.instance_rows.specs.Triggers.{Quantified};
ghost use Rattle.branch_accesses.specs.Ids.{access_of, AccessHeld};
ghost use Rattle.forall_instances.specs.Foralls.{forall_of, ForallHeld};
ghost use Rattle.trigger_instances.specs.Ids.{by_one_access};
ghost use Rattle.trigger_instances.specs.Puts.{GivenBehind, Puts};

use branch_accesses::{IdAccess, put_some};
use congruence::{TermClasses, same};
use forall_instances::{IdForall, instance_by_access};
use qed_terms::TermStore;
use std::alloc::Global;
use tree_places::TreeTable;
use wp_base::{CellKind, NoMemory};

#[tactic(auto, using(qed_memories::proofs::Cells::is_same_cell, qed_memories::proofs::Cells::other_cell))]
fn is_same_kind(kind: CellKind, other: CellKind) -> bool
    ensures { result ≡ same_cell kind other }
{
    kind == other
}

// Whether two accesses are to cells of one kind, and their blocks are same: else they give nothing.
fn may_be_one<S: TermStore>(
    alloc: Global,
    store: &S,
    table: &mut TreeTable,
    closed: &TermClasses,
    trigger: IdAccess<S::Id>,
    there: IdAccess<S::Id>,
) -> Result<bool, NoMemory>
    requires trigger { AccessHeld (S.held store.now) trigger }
    requires there { AccessHeld (S.held store.now) there }
    requires kept { IsKept table.old }
    requires all { length closed.now.marks.items ≡ length closed.now.classes.items }
    ensures kept { OnOk result (IsKept table.new) }
    ensures grows { OnOk result (Grows (nodes_of table.old) (nodes_of table.new)) }
    ensures told { IfOk result (λ may. (ls : List Tree) → IsClosed ls (nodes_of table.old) closed.now.marks.items closed.now.classes.items → MatchBool may (SameTerm ls (S.tree store.now trigger.block) (S.tree store.now there.block)) ((q : Quantified) → (before : List Tree) → GivenBehind ls (by_one_access q (access_of (S.tree store.now) trigger) (access_of (S.tree store.now) there)) before before)) }
{
    if !is_same_kind(trigger.kind, there.kind) {
        return Ok(false);
    }
    let may = same(alloc, store, table, closed, trigger.block, there.block)?;
    Ok(may)
}

fn put_access<S: TermStore>(
    alloc: Global,
    store: &mut S,
    table: &mut TreeTable,
    closed: &TermClasses,
    quantified: &IdForall<S::Id>,
    trigger: IdAccess<S::Id>,
    there: IdAccess<S::Id>,
    out: &mut Vec<S::Id>,
) -> Result<(), NoMemory>
    requires quantified { ForallHeld (S.held store.old) quantified.now }
    requires trigger { AccessHeld (S.held store.old) trigger }
    requires there { AccessHeld (S.held store.old) there }
    requires out { All (S.held store.old) out.old.items }
    requires kept { IsKept table.old }
    requires all { length closed.now.marks.items ≡ length closed.now.classes.items }
    ensures { OnOk result (Puts closed.now (S.held store.old) (S.held store.new) (S.tree store.old) (S.tree store.new) table.old table.new out.old.items out.new.items (by_one_access (forall_of (S.tree store.old) quantified.now) (access_of (S.tree store.old) trigger) (access_of (S.tree store.old) there))) }
{
    if !may_be_one(alloc, &*store, table, closed, trigger, there)? {
        return Ok(());
    }
    let made = instance_by_access(
        alloc,
        store,
        quantified,
        trigger.kind,
        trigger.offset,
        there.kind,
        there.offset,
    )?;
    put_some(out, made)?;
    Ok(())
}

/// Puts the instances by an access in the body and each of these behind others.
pub fn put_accesses<S: TermStore>(
    alloc: Global,
    store: &mut S,
    table: &mut TreeTable,
    closed: &TermClasses,
    quantified: &IdForall<S::Id>,
    trigger: IdAccess<S::Id>,
    accesses: &[IdAccess<S::Id>],
    out: &mut Vec<S::Id>,
) -> Result<(), NoMemory>
    requires quantified { ForallHeld (S.held store.old) quantified.now }
    requires trigger { AccessHeld (S.held store.old) trigger }
    requires accesses { All (AccessHeld (S.held store.old)) accesses.now }
    requires out { All (S.held store.old) out.old.items }
    requires kept { IsKept table.old }
    requires all { length closed.now.marks.items ≡ length closed.now.classes.items }
    ensures { OnOk result (Puts closed.now (S.held store.old) (S.held store.new) (S.tree store.old) (S.tree store.new) table.old table.new out.old.items out.new.items (by_access (forall_of (S.tree store.old) quantified.now) (access_of (S.tree store.old) trigger) (map (access_of (S.tree store.old)) accesses.now))) }
{
    for there in accesses {
        put_access(
            alloc, store, table, closed, quantified, trigger, *there, out,
        )?;
    }
    Ok(())
}
