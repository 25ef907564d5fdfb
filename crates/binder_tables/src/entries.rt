// Annotations with their binders, side by side as they are spelled and as they run.
ghost use Rattle.std.specs.Prelude.{◌≡◌, ◌++◌, ◌∷◌, [], OnOk, map};
ghost use Rattle.acsl_trees.specs.Tree.{view_tree, view_trees};
ghost use Rattle.binder_names.specs.Notes.{preds_of};
ghost use Rattle.binder_names.specs.Tables as spec;
ghost use Rattle.binder_tables.specs.View.{all_claimed, all_notes, view_all_known, view_claimed, view_entries, view_note};
ghost use Rattle.c_syntax.specs.View as syntax;
ghost use Rattle.core_trees.specs.View.{view_claim};
ghost use Rattle.program_trees.specs.View.{view_behavior, view_contract};

use crate::binders::{Known, put_binders};
use crate::notes::{Claimed, Note};
use acsl_trees::Tree;
use c_syntax::{Clause, Pred};
use core_trees::Claim;
use program_trees::{Behavior, Contract};
use std::alloc::Global;
use wp_base::{List, NoMemory, Str};

/// An annotation with the names of its binders.
#[derive(Drop)]
pub(crate) struct Entry<'a> {
    pub tree: &'a Tree,
    pub binders: List<Str>,
}

// ---- predicates

fn put_named<'a>(
    alloc: Global,
    known: &[Known],
    pred: &Pred,
    tree: &'a Tree,
    out: &mut Vec<Entry<'a>>,
) -> Result<(), NoMemory>
    ensures { OnOk result (view_entries out.new.items ≡ view_entries out.old.items ++ spec.named_as (view_all_known known.now) (syntax.view_pred pred.now) (view_tree tree.now) ∷ []) }
{
    let mut binders = List::new(alloc);
    put_binders(pred, alloc, known, &mut binders)?;
    out.push(Entry { tree, binders })?;
    Ok(())
}

fn put_claim<'a>(
    alloc: Global,
    known: &[Known],
    clause: &Clause,
    claim: &'a Claim,
    out: &mut Vec<Entry<'a>>,
) -> Result<(), NoMemory>
    ensures { OnOk result (view_entries out.new.items ≡ view_entries out.old.items ++ spec.named_as (view_all_known known.now) (syntax.view_clause clause.now).pred (view_claim claim.now).what ∷ []) }
{
    put_named(alloc, known, &clause.pred, &claim.what, out)
}

fn put_assumed<'a>(
    alloc: Global,
    known: &[Known],
    clause: &Clause,
    tree: &'a Tree,
    out: &mut Vec<Entry<'a>>,
) -> Result<(), NoMemory>
    ensures { OnOk result (view_entries out.new.items ≡ view_entries out.old.items ++ spec.named_as (view_all_known known.now) (syntax.view_clause clause.now).pred (view_tree tree.now) ∷ []) }
{
    put_named(alloc, known, &clause.pred, tree, out)
}

fn put_claims<'a>(
    alloc: Global,
    known: &[Known],
    clauses: &[Clause],
    claims: &'a [Claim],
    out: &mut Vec<Entry<'a>>,
) -> Result<(), NoMemory>
    ensures { OnOk result (view_entries out.new.items ≡ view_entries out.old.items ++ spec.claims_named (view_all_known known.now) (preds_of (map syntax.view_clause clauses.now)) (map view_claim claims.now)) }
{
    for at in 0..clauses.len().min(claims.len()) {
        put_claim(alloc, known, &clauses[at], &claims[at], out)?;
    }
    Ok(())
}

fn put_all_assumed<'a>(
    alloc: Global,
    known: &[Known],
    clauses: &[Clause],
    trees: &'a [Tree],
    out: &mut Vec<Entry<'a>>,
) -> Result<(), NoMemory>
    ensures { OnOk result (view_entries out.new.items ≡ view_entries out.old.items ++ spec.trees_named (view_all_known known.now) (preds_of (map syntax.view_clause clauses.now)) (view_trees trees.now)) }
{
    for at in 0..clauses.len().min(trees.len()) {
        put_assumed(alloc, known, &clauses[at], &trees[at], out)?;
    }
    Ok(())
}

// ---- contracts

#[tactic(auto, using(crate::proofs::Gathering::entry_laws))]
fn put_behavior<'a>(
    alloc: Global,
    known: &[Known],
    spelled: &c_syntax::Behavior,
    run: &'a Behavior,
    out: &mut Vec<Entry<'a>>,
) -> Result<(), NoMemory>
    ensures { OnOk result (view_entries out.new.items ≡ view_entries out.old.items ++ spec.behavior_named (view_all_known known.now) (syntax.view_behavior spelled.now) (view_behavior run.now)) }
{
    put_all_assumed(
        alloc,
        known,
        spelled.assumes.as_slice(),
        run.assumes.as_slice(),
        out,
    )?;
    put_claims(
        alloc,
        known,
        spelled.requires_.as_slice(),
        run.requires_.as_slice(),
        out,
    )?;
    put_claims(
        alloc,
        known,
        spelled.ensures_.as_slice(),
        run.ensures_.as_slice(),
        out,
    )
}

fn put_behaviors<'a>(
    alloc: Global,
    known: &[Known],
    spelled: &[c_syntax::Behavior],
    run: &'a [Behavior],
    out: &mut Vec<Entry<'a>>,
) -> Result<(), NoMemory>
    ensures { OnOk result (view_entries out.new.items ≡ view_entries out.old.items ++ spec.behaviors_named (view_all_known known.now) (map syntax.view_behavior spelled.now) (map view_behavior run.now)) }
{
    for at in 0..spelled.len().min(run.len()) {
        put_behavior(alloc, known, &spelled[at], &run[at], out)?;
    }
    Ok(())
}

/// Puts the predicates of a contract behind these.
#[tactic(auto, using(crate::proofs::Gathering::entry_laws))]
pub(crate) fn put_contract<'a>(
    alloc: Global,
    known: &[Known],
    spelled: &c_syntax::Contract,
    run: &'a Contract,
    out: &mut Vec<Entry<'a>>,
) -> Result<(), NoMemory>
    ensures { OnOk result (view_entries out.new.items ≡ view_entries out.old.items ++ spec.contract_named (view_all_known known.now) (syntax.view_contract spelled.now) (view_contract run.now)) }
{
    put_claims(
        alloc,
        known,
        spelled.requires_.as_slice(),
        run.plain.requires_.as_slice(),
        out,
    )?;
    put_claims(
        alloc,
        known,
        spelled.ensures_.as_slice(),
        run.plain.ensures_.as_slice(),
        out,
    )?;
    put_behaviors(
        alloc,
        known,
        spelled.behaviors.as_slice(),
        run.behaviors.as_slice(),
        out,
    )
}

// ---- bodies

#[tactic(auto, using(crate::proofs::Gathering::entry_laws))]
fn put_noted<'a>(
    alloc: Global,
    known: &[Known],
    note: Note<'_>,
    claimed: Claimed<'a>,
    out: &mut Vec<Entry<'a>>,
) -> Result<(), NoMemory>
    ensures { OnOk result (view_entries out.new.items ≡ view_entries out.old.items ++ spec.note_named (view_all_known known.now) (view_note note.entry) (view_claimed claimed.entry)) }
{
    match note {
        Note::Loop(annot) => match claimed {
            Claimed::Loop(claims) => put_claims(
                alloc,
                known,
                annot.invariants.as_slice(),
                claims.invariants.as_slice(),
                out,
            ),
            Claimed::Assertion(_) => Ok(()),
        },
        Note::Assertion(pred) => match claimed {
            Claimed::Loop(_) => Ok(()),
            Claimed::Assertion(claim) => put_named(alloc, known, pred, &claim.what, out),
        },
    }
}

/// Puts the annotations of a body behind these.
pub(crate) fn put_all_noted<'a>(
    alloc: Global,
    known: &[Known],
    notes: &[Note<'_>],
    claimed: &[Claimed<'a>],
    out: &mut Vec<Entry<'a>>,
) -> Result<(), NoMemory>
    ensures { OnOk result (view_entries out.new.items ≡ view_entries out.old.items ++ spec.notes_named (view_all_known known.now) (all_notes notes.now) (all_claimed claimed.now)) }
{
    for at in 0..notes.len().min(claimed.len()) {
        put_noted(alloc, known, notes[at], claimed[at], out)?;
    }
    Ok(())
}
