// Terms of which a round asks whether they are same.
ghost use Rattle.std.specs.Prelude.{◌≡◌, ◌++◌, All, map, OnOk, IfOk};
ghost use Rattle.instance_rows.specs.Candidates.{asked_terms, blocks_of, trigger_blocks, trigger_blocks_in};
ghost use Rattle.instance_rows.specs.Accesses.{accesses_in};
ghost use Rattle.instance_rows.specs.Triggers.{nodes_with, quantified_at};
ghost use Rattle.branch_accesses.specs.Ids.{access_of, load_of, AccessHeld, LoadHeld};
ghost use Rattle.forall_instances.specs.Foralls.{ForallHeld};

use branch_accesses::{IdAccess, IdLoad, accesses_in, put_blocks, put_sides};
use forall_instances::{IdForall, push_nodes_with, quantified_at};
use qed_terms::TermStore;
use std::alloc::Global;
use wp_base::NoMemory;

// The blocks of the accesses in the body of a `forall`.
fn put_body_blocks<S: TermStore>(
    alloc: Global,
    store: &S,
    quantified: &IdForall<S::Id>,
    out: &mut Vec<S::Id>,
) -> Result<(), NoMemory>
    requires quantified { ForallHeld (S.held store.now) quantified.now }
    requires out { All (S.held store.now) out.old.items }
    ensures blocks { OnOk result (map (S.tree store.now) out.new.items ≡ map (S.tree store.now) out.old.items ++ blocks_of (accesses_in (nodes_with quantified.now.name (S.tree store.now quantified.now.body)))) }
    ensures held { OnOk result (All (S.held store.now) out.new.items) }
{
    let mut nodes = Vec::new(alloc);
    push_nodes_with(store, quantified.name.bytes(), quantified.body, &mut nodes)?;
    let accesses = accesses_in(alloc, store, nodes.as_slice())?;
    put_blocks(accesses.as_slice(), out)?;
    Ok(())
}

fn put_literal_blocks<S: TermStore>(
    alloc: Global,
    store: &S,
    literal: S::Id,
    out: &mut Vec<S::Id>,
) -> Result<(), NoMemory>
    requires literal { S.held store.now literal }
    requires out { All (S.held store.now) out.old.items }
    ensures blocks { OnOk result (map (S.tree store.now) out.new.items ≡ map (S.tree store.now) out.old.items ++ trigger_blocks_in (quantified_at (S.tree store.now literal))) }
    ensures held { OnOk result (All (S.held store.now) out.new.items) }
{
    let found = quantified_at(alloc, store, literal)?;
    match found {
        Some(quantified) => {
            put_body_blocks(alloc, store, &quantified, out)?;
            Ok(())
        }
        None => Ok(()),
    }
}

/// Puts the blocks of the accesses in the bodies of the `forall`s among literals behind others.
pub fn put_trigger_blocks<S: TermStore>(
    alloc: Global,
    store: &S,
    literals: &[S::Id],
    out: &mut Vec<S::Id>,
) -> Result<(), NoMemory>
    requires literals { All (S.held store.now) literals.now }
    requires out { All (S.held store.now) out.old.items }
    ensures blocks { OnOk result (map (S.tree store.now) out.new.items ≡ map (S.tree store.now) out.old.items ++ trigger_blocks (map (S.tree store.now) literals.now)) }
    ensures held { OnOk result (All (S.held store.now) out.new.items) }
{
    for literal in literals {
        put_literal_blocks(alloc, store, *literal, out)?;
    }
    Ok(())
}

/// The terms of which a round asks whether they are same: the blocks and offsets of loads, the blocks of accesses, and those of the triggers of `forall`s.
pub fn asked_terms<S: TermStore>(
    alloc: Global,
    store: &S,
    loads: &[IdLoad<S::Id>],
    accesses: &[IdAccess<S::Id>],
    literals: &[S::Id],
) -> Result<Vec<S::Id>, NoMemory>
    requires loads { All (LoadHeld (S.held store.now)) loads.now }
    requires accesses { All (AccessHeld (S.held store.now)) accesses.now }
    requires literals { All (S.held store.now) literals.now }
    ensures terms { IfOk result (λ asked. map (S.tree store.now) asked.items ≡ asked_terms (map (load_of (S.tree store.now)) loads.now) (map (access_of (S.tree store.now)) accesses.now) (map (S.tree store.now) literals.now)) }
    ensures held { IfOk result (λ asked. All (S.held store.now) asked.items) }
{
    let mut asked = Vec::new(alloc);
    put_sides(loads, &mut asked)?;
    put_blocks(accesses, &mut asked)?;
    put_trigger_blocks(alloc, store, literals, &mut asked)?;
    Ok(asked)
}
