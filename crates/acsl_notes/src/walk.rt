// The annotations of a body, in the order of the text (ACSL 2.4).
ghost use Rattle.std.specs.Prelude.{◌≡◌, map, Some};
ghost use Rattle.acsl_clauses.specs.Clauses.{assertion_typed, loop_typed};
ghost use Rattle.acsl_clauses.specs.Typed.{view_clause};
ghost use Rattle.acsl_names.specs.Names.{view_around};
ghost use Rattle.acsl_notes.specs.Notes as spec;
ghost use Rattle.acsl_trees.specs.Tree.{view_tree};
ghost use Rattle.c_answers.specs.Answers.{Gives};
ghost use Rattle.c_syntax.specs.View.{view_loop, view_pred};
ghost use Rattle.typed_unit.specs.Stmt as s;
ghost use Rattle.typed_unit.specs.View.{view_stmt, view_stmts, view_turns};

use crate::locals::put_locals;
use crate::notes::{Enclosing, Note, Noted};
use acsl_clauses::{TypedClause, typed_assertion, typed_loop};
use acsl_names::{Around, Site};
use acsl_trees::Tree;
use c_syntax::{LoopAnnot, Pred};
use name_table::Scopes;
use std::alloc::Global;
use typed_unit::{Stmt, StmtNode};
use wp_base::{List, NoMemory, Stop};

fn around_in<'a>(
    enclosing: Enclosing<'a>,
    blocks: &'a Scopes<u32>,
    entry: Option<u32>,
) -> Around<'a>
    ensures { view_around result ≡ spec.around_at (spec.view_enclosing enclosing.entry) blocks.now entry }
{
    enclosing.before.around(
        enclosing.definitions,
        blocks,
        enclosing.within,
        Site::Code(entry),
        None,
    )
}

fn loop_clauses(
    alloc: Global,
    enclosing: Enclosing<'_>,
    so_far: &Noted,
    annot: &LoopAnnot,
) -> Result<List<TypedClause>, Stop>
    ensures { Gives (map view_clause) result (loop_typed (spec.around_at (spec.view_enclosing enclosing.entry) so_far.now.blocks (Some so_far.now.declared)) (view_loop annot.now)) }
{
    let around = around_in(enclosing, &so_far.blocks, Some(so_far.declared));
    typed_loop(alloc, &around, annot)
}

fn claimed(
    alloc: Global,
    enclosing: Enclosing<'_>,
    entry: Option<u32>,
    so_far: &Noted,
    pred: &Pred,
) -> Result<Tree, Stop>
    ensures { Gives view_tree result (assertion_typed (spec.around_at (spec.view_enclosing enclosing.entry) so_far.now.blocks entry) (view_pred pred.now)) }
{
    let around = around_in(enclosing, &so_far.blocks, entry);
    typed_assertion(alloc, &around, pred)
}

#[tactic(auto, using(c_answers::proofs::After::after_laws))]
fn put_loop(
    alloc: Global,
    enclosing: Enclosing<'_>,
    so_far: &mut Noted,
    annot: &LoopAnnot,
) -> Result<(), Stop>
    ensures { Gives (λ _. spec.view_noted so_far.new) result (spec.with_loop (spec.view_enclosing enclosing.entry) (spec.view_noted so_far.old) (view_loop annot.now)) }
{
    let clauses = loop_clauses(alloc, enclosing, so_far, annot)?;
    so_far.notes.push(Note::Loop(clauses))?;
    Ok(())
}

#[tactic(auto, using(c_answers::proofs::After::after_laws))]
fn put_assertion(
    alloc: Global,
    enclosing: Enclosing<'_>,
    entry: Option<u32>,
    so_far: &mut Noted,
    pred: &Pred,
) -> Result<(), Stop>
    ensures { Gives (λ _. spec.view_noted so_far.new) result (spec.with_assertion (spec.view_enclosing enclosing.entry) entry (spec.view_noted so_far.old) (view_pred pred.now)) }
{
    let tree = claimed(alloc, enclosing, entry, so_far, pred)?;
    so_far.notes.push(Note::Assertion(tree))?;
    Ok(())
}

#[cycle(notes)]
#[tactic(auto, using(c_answers::proofs::After::after_laws, typed_unit::proofs::Equations::stmt_laws))]
fn noted(
    alloc: Global,
    enclosing: Enclosing<'_>,
    entry: Option<u32>,
    so_far: &mut Noted,
    stmt: &Stmt<'_>,
) -> Result<(), Stop>
    ensures { Gives (λ _. spec.view_noted so_far.new) result (spec.noted (spec.view_enclosing enclosing.entry) entry (spec.view_noted so_far.old) (view_stmt stmt.now)) }
{
    match &stmt.node {
        StmtNode::Block(body) => block_noted(alloc, enclosing, entry, so_far, body.as_slice()),
        StmtNode::Switch(_, body) => block_noted(alloc, enclosing, entry, so_far, body.as_slice()),
        StmtNode::Locals(locals) => {
            put_locals(alloc, enclosing.within.objects, so_far, locals.as_slice())?;
            Ok(())
        }
        StmtNode::If(_, first, other) => {
            noted(alloc, enclosing, entry, so_far, first.get())?;
            noted(alloc, enclosing, entry, so_far, other.get())
        }
        StmtNode::Loop(annot, _, body) => {
            let declared = so_far.declared;
            put_loop(alloc, enclosing, so_far, annot)?;
            noted(alloc, enclosing, Some(declared), so_far, body.get())
        }
        StmtNode::Assert(pred) => put_assertion(alloc, enclosing, entry, so_far, pred),
        StmtNode::Empty => Ok(()),
        StmtNode::Expr(_) => Ok(()),
        StmtNode::Case(_) => Ok(()),
        StmtNode::Default => Ok(()),
        StmtNode::Break => Ok(()),
        StmtNode::Continue => Ok(()),
        StmtNode::Return(_) => Ok(()),
    }
}

// What stands in a block of its own.
#[cycle(notes)]
#[tactic(auto, using(c_answers::proofs::After::after_laws))]
fn block_noted(
    alloc: Global,
    enclosing: Enclosing<'_>,
    entry: Option<u32>,
    so_far: &mut Noted,
    body: &[Stmt<'_>],
) -> Result<(), Stop>
    ensures { Gives (λ _. spec.view_noted so_far.new) result (spec.block_noted (spec.view_enclosing enclosing.entry) entry (spec.view_noted so_far.old) (view_stmts body.now)) }
{
    so_far.blocks.enter(alloc)?;
    all_noted(alloc, enclosing, entry, so_far, body)?;
    so_far.blocks.leave();
    Ok(())
}

#[cycle(notes)]
#[tactic(auto, using(crate::proofs::Walking::stmt_laws))]
fn all_noted(
    alloc: Global,
    enclosing: Enclosing<'_>,
    entry: Option<u32>,
    so_far: &mut Noted,
    body: &[Stmt<'_>],
) -> Result<(), Stop>
    ensures { Gives (λ _. spec.view_noted so_far.new) result (spec.all_noted (spec.view_enclosing enclosing.entry) entry (spec.view_noted so_far.old) (view_stmts body.now)) }
{
    for i in 0..body.len() {
        noted(alloc, enclosing, entry, so_far, &body[i])?;
    }
    Ok(())
}

/// The annotations of a body, whose parameters are in scope as `blocks` has them, or the first fault in them.
#[tactic(auto, using(c_answers::proofs::After::after_laws), unfolding(crate::specs::Notes::body_noted))]
pub fn body_noted(
    alloc: Global,
    enclosing: Enclosing<'_>,
    blocks: Scopes<u32>,
    stmt: &Stmt<'_>,
) -> Result<List<Note>, Stop>
    ensures { Gives (map spec.view_note) result (spec.body_noted (spec.view_enclosing enclosing.entry) blocks (view_stmt stmt.now)) }
{
    let params = enclosing.within.params;
    if params > u32::MAX as usize {
        return Err(Stop::NoMemory);
    }
    let mut so_far = Noted {
        notes: List::new(alloc),
        blocks,
        declared: params as u32,
    };
    noted(alloc, enclosing, None, &mut so_far, stmt)?;
    Ok(so_far.notes)
}
