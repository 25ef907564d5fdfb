// Statements (C11 6.8), gone through from the front.
ghost use Rattle.std.specs.Prelude.{◌≡◌, OnOk, map, option_map};
ghost use Rattle.c_syntax.specs.Stmt as s;
ghost use Rattle.c_syntax.specs.View.{view_stmt};
ghost use Rattle.from_lines.specs.Froms as spec;

use crate::contracts::put_loop;
use c_syntax::{Stmt, StmtNode};
use wp_base::{Boxed, Line, List, NoMemory};

/// Those of a statement behind the others.
#[cycle(walk)]
#[tactic(auto, using(c_syntax::proofs::Equations::stmt_laws))]
pub(crate) fn put_stmt(stmt: &Stmt, lines: &mut Vec<Line>) -> Result<(), NoMemory>
    ensures { OnOk result (lines.new.items ≡ spec.in_stmt (view_stmt stmt.now) lines.old.items) }
{
    match &stmt.node {
        StmtNode::Block(body) => put_stmts(body, lines),
        StmtNode::If(_, body, other) => {
            put_stmt(body.get(), lines)?;
            put_else(other, lines)
        }
        StmtNode::While(annot, _, body) => {
            put_loop(annot, lines)?;
            put_stmt(body.get(), lines)
        }
        StmtNode::Do(annot, body, _) => {
            put_loop(annot, lines)?;
            put_stmt(body.get(), lines)
        }
        StmtNode::For(annot, _, _, _, body) => {
            put_loop(annot, lines)?;
            put_stmt(body.get(), lines)
        }
        StmtNode::Switch(_, body) => put_stmts(body, lines),
        StmtNode::Empty
        | StmtNode::Expr(_)
        | StmtNode::Locals(_)
        | StmtNode::Case(_)
        | StmtNode::Default
        | StmtNode::Break
        | StmtNode::Continue
        | StmtNode::Return(_)
        | StmtNode::Assert(_) => Ok(()),
    }
}

#[cycle(walk)]
fn put_else(other: &Option<Boxed<Stmt>>, lines: &mut Vec<Line>) -> Result<(), NoMemory>
    ensures { OnOk result (lines.new.items ≡ spec.in_body (option_map view_stmt other.now) lines.old.items) }
{
    match other {
        None => Ok(()),
        Some(other) => put_stmt(other.get(), lines),
    }
}

#[cycle(walk)]
#[tactic(auto, using(crate::proofs::Turns::stmt_next, crate::proofs::Turns::stmts_end))]
fn put_stmts(body: &List<Stmt>, lines: &mut Vec<Line>) -> Result<(), NoMemory>
    ensures { OnOk result (lines.new.items ≡ spec.in_stmts (s.stmts_of (map view_stmt body.now)) lines.old.items) }
{
    for stmt in body.as_slice() {
        put_stmt(stmt, lines)?;
    }
    Ok(())
}
