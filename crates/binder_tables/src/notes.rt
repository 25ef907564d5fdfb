// The annotations of a body in the order of the text, as they are spelled and as it runs (ACSL 2.4).
ghost use Rattle.std.specs.Prelude.{◌≡◌, ◌++◌, ◌∷◌, [], OnOk};
ghost use Rattle.binder_names.specs.Notes as spec;
ghost use Rattle.binder_tables.specs.View.{all_claimed, all_notes, view_claimed, view_note};
ghost use Rattle.program_trees.specs.View as program;
ghost use Rattle.typed_unit.specs.View as typed;

use c_syntax::{LoopAnnot, Pred};
use core_trees::{Claim, Loop};
use program_trees::Stmt;
use typed_unit::StmtNode;
use wp_base::NoMemory;

/// As they are spelled.
#[derive(Clone, Copy)]
pub(crate) enum Note<'a> {
    Loop(&'a LoopAnnot),
    Assertion(&'a Pred),
}

/// As they run.
#[derive(Clone, Copy)]
pub(crate) enum Claimed<'a> {
    Loop(&'a Loop),
    Assertion(&'a Claim),
}

// ---- as they are spelled

fn put_note<'a>(note: Note<'a>, out: &mut Vec<Note<'a>>) -> Result<(), NoMemory>
    ensures { OnOk result (all_notes out.new.items ≡ all_notes out.old.items ++ view_note note.entry ∷ []) }
{
    out.push(note)?;
    Ok(())
}

/// Puts those of a statement behind these.
#[cycle(put_notes)]
#[tactic(auto, using(typed_unit::proofs::Equations::stmt_laws, crate::proofs::Gathering::note_laws))]
pub(crate) fn put_notes<'a>(
    stmt: &typed_unit::Stmt<'a>,
    out: &mut Vec<Note<'a>>,
) -> Result<(), NoMemory>
    ensures { OnOk result (all_notes out.new.items ≡ all_notes out.old.items ++ spec.notes_of (typed.view_stmt stmt.now)) }
{
    match &stmt.node {
        StmtNode::Empty => Ok(()),
        StmtNode::Expr(_) => Ok(()),
        StmtNode::Block(body) => put_all_notes(body.as_slice(), out),
        StmtNode::Locals(_) => Ok(()),
        StmtNode::If(_, first, second) => {
            put_notes(first.get(), out)?;
            put_notes(second.get(), out)
        }
        StmtNode::Loop(annot, _, body) => {
            put_note(Note::Loop(annot), out)?;
            put_notes(body.get(), out)
        }
        StmtNode::Switch(_, body) => put_all_notes(body.as_slice(), out),
        StmtNode::Case(_) => Ok(()),
        StmtNode::Default => Ok(()),
        StmtNode::Break => Ok(()),
        StmtNode::Continue => Ok(()),
        StmtNode::Return(_) => Ok(()),
        StmtNode::Assert(pred) => put_note(Note::Assertion(pred), out),
    }
}

#[cycle(put_notes)]
fn put_all_notes<'a>(
    stmts: &[typed_unit::Stmt<'a>],
    out: &mut Vec<Note<'a>>,
) -> Result<(), NoMemory>
    ensures { OnOk result (all_notes out.new.items ≡ all_notes out.old.items ++ spec.all_notes (typed.view_stmts stmts.now)) }
{
    for at in 0..stmts.len() {
        put_notes(&stmts[at], out)?;
    }
    Ok(())
}

// ---- as they run

fn put_one<'a>(claimed: Claimed<'a>, out: &mut Vec<Claimed<'a>>) -> Result<(), NoMemory>
    ensures { OnOk result (all_claimed out.new.items ≡ all_claimed out.old.items ++ view_claimed claimed.entry ∷ []) }
{
    out.push(claimed)?;
    Ok(())
}

#[cycle(put_claimed)]
#[tactic(auto, using(program_trees::proofs::Equations::stmt_laws, crate::proofs::Gathering::claimed_laws))]
fn put_claimed<'a, 'b>(stmt: &'a Stmt<'b>, out: &mut Vec<Claimed<'a>>) -> Result<(), NoMemory>
    ensures { OnOk result (all_claimed out.new.items ≡ all_claimed out.old.items ++ spec.claimed_in (program.view_stmt stmt.now)) }
{
    match stmt {
        Stmt::Evaluate(_) => Ok(()),
        Stmt::Block(_, body) => put_all_claimed(body.as_slice(), out),
        Stmt::Initial(_, _, _) => Ok(()),
        Stmt::Choose(_, first, second) => {
            put_claimed(first.get(), out)?;
            put_claimed(second.get(), out)
        }
        Stmt::Loop(claims, _, body) => {
            put_one(Claimed::Loop(claims), out)?;
            put_claimed(body.get(), out)
        }
        Stmt::Switch(_, body) => put_all_claimed(body.as_slice(), out),
        Stmt::Case(_) => Ok(()),
        Stmt::Default => Ok(()),
        Stmt::Break => Ok(()),
        Stmt::Continue => Ok(()),
        Stmt::Return(_) => Ok(()),
        Stmt::Assert(claim) => put_one(Claimed::Assertion(claim), out),
    }
}

/// Puts those of statements behind these.
#[cycle(put_claimed)]
pub(crate) fn put_all_claimed<'a, 'b>(
    stmts: &'a [Stmt<'b>],
    out: &mut Vec<Claimed<'a>>,
) -> Result<(), NoMemory>
    ensures { OnOk result (all_claimed out.new.items ≡ all_claimed out.old.items ++ spec.all_claimed (program.view_stmts stmts.now)) }
{
    for at in 0..stmts.len() {
        put_claimed(&stmts[at], out)?;
    }
    Ok(())
}
