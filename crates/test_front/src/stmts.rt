// Statements, printed.

use crate::annots::write_loop;
use crate::exprs::{write_expr, write_some, write_vars};
use crate::preds::write_pred;
use c_syntax::{Stmt, StmtNode};
use test_lines::Page;

fn stmt_head(node: &StmtNode) -> &'static str {
    match node {
        StmtNode::Empty => "empty",
        StmtNode::Expr(_) => "expr",
        StmtNode::Block(_) => "block",
        StmtNode::Locals(_) => "locals",
        StmtNode::If(_, _, _) => "if",
        StmtNode::While(_, _, _) => "while",
        StmtNode::Do(_, _, _) => "do",
        StmtNode::For(_, _, _, _, _) => "for",
        StmtNode::Switch(_, _) => "switch",
        StmtNode::Case(_) => "case",
        StmtNode::Default => "default",
        StmtNode::Break => "break",
        StmtNode::Continue => "continue",
        StmtNode::Return(_) => "return",
        StmtNode::Assert(_) => "assert",
    }
}

// What stands in a statement before its first statement.
fn write_before(page: &mut Page, node: &StmtNode) {
    match node {
        StmtNode::Expr(value) | StmtNode::Case(value) => write_expr(page, value),
        StmtNode::If(value, _, _) => write_expr(page, value),
        StmtNode::Switch(value, _) => write_expr(page, value),
        StmtNode::Locals(vars) => write_vars(page, vars.as_slice()),
        StmtNode::While(annot, test, _) => {
            write_loop(page, annot);
            write_expr(page, test);
        }
        StmtNode::Do(annot, _, _) => write_loop(page, annot),
        StmtNode::For(annot, _, _, _, _) => write_loop(page, annot),
        StmtNode::Return(value) => write_some(page, value),
        StmtNode::Assert(pred) => write_pred(page, pred),
        _ => {}
    }
}

#[cycle(stmts)]
pub fn write_stmts(page: &mut Page, stmts: &[Stmt]) {
    for stmt in stmts {
        write_stmt(page, stmt);
    }
}

#[cycle(stmts)]
fn write_parts(page: &mut Page, node: &StmtNode) {
    match node {
        StmtNode::Block(body) | StmtNode::Switch(_, body) => write_stmts(page, body.as_slice()),
        StmtNode::If(_, body, other) => {
            write_stmt(page, body.get());
            if let Some(other) = other {
                write_stmt(page, other.get());
            }
        }
        StmtNode::While(_, _, body) => write_stmt(page, body.get()),
        StmtNode::Do(_, body, test) => {
            write_stmt(page, body.get());
            write_expr(page, test);
        }
        StmtNode::For(_, first, test, next, body) => {
            write_stmt(page, first.get());
            write_some(page, test);
            write_some(page, next);
            write_stmt(page, body.get());
        }
        _ => {}
    }
}

#[cycle(stmts)]
pub fn write_stmt(page: &mut Page, stmt: &Stmt) {
    page.open(stmt_head(&stmt.node), stmt.line);
    write_before(page, &stmt.node);
    write_parts(page, &stmt.node);
    page.close();
}
