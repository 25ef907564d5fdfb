// The labels of a `switch` (C11 6.8.4.2).
ghost use Rattle.std.specs.Prelude.{◌≡◌, map};
ghost use Rattle.c_grammar.specs.Stmts.{begins_labelled, defaults, is_label as is_label_of};
ghost use Rattle.c_syntax.specs.Stmt as tree;
ghost use Rattle.c_syntax.specs.View.{view_stmt};
ghost use Rattle.parse_leaf_stmts.specs.Read as spec;

use c_syntax::{Stmt, StmtNode};

#[tactic(auto, using(c_syntax::proofs::Equations::stmt_laws))]
fn is_default(stmt: &Stmt) -> bool
    ensures { result ≡ spec.is_default (view_stmt stmt.now) }
{
    match &stmt.node {
        StmtNode::Default => true,
        StmtNode::Empty
        | StmtNode::Expr(_)
        | StmtNode::Block(_)
        | StmtNode::Locals(_)
        | StmtNode::If(_, _, Some(_))
        | StmtNode::If(_, _, None)
        | StmtNode::While(_, _, _)
        | StmtNode::Do(_, _, _)
        | StmtNode::For(_, _, _, _, _)
        | StmtNode::Switch(_, _)
        | StmtNode::Case(_)
        | StmtNode::Break
        | StmtNode::Continue
        | StmtNode::Return(_)
        | StmtNode::Assert(_) => false,
    }
}

#[tactic(auto, using(c_syntax::proofs::Equations::stmt_laws))]
fn is_label(stmt: &Stmt) -> bool
    ensures { result ≡ is_label_of (view_stmt stmt.now) }
{
    match &stmt.node {
        StmtNode::Default | StmtNode::Case(_) => true,
        StmtNode::Empty
        | StmtNode::Expr(_)
        | StmtNode::Block(_)
        | StmtNode::Locals(_)
        | StmtNode::If(_, _, Some(_))
        | StmtNode::If(_, _, None)
        | StmtNode::While(_, _, _)
        | StmtNode::Do(_, _, _)
        | StmtNode::For(_, _, _, _, _)
        | StmtNode::Switch(_, _)
        | StmtNode::Break
        | StmtNode::Continue
        | StmtNode::Return(_)
        | StmtNode::Assert(_) => false,
    }
}

fn begins_with_label(stmts: &[Stmt]) -> bool
    ensures { result ≡ begins_labelled (tree.stmts_of (map view_stmt stmts.now)) }
{
    match stmts.split_first() {
        Some((first, _)) => is_label(first),
        None => true,
    }
}

// How many are `default`.
fn count_defaults(stmts: &[Stmt]) -> usize
    ensures { result ≡ defaults (tree.stmts_of (map view_stmt stmts.now)) }
{
    let mut rest = stmts;
    let mut count = 0;
    for turn in 0..stmts.len() {
        let Some((first, others)) = rest.split_first() else {
            return count;
        };
        if is_default(first) {
            count += 1;
        }
        rest = others;
    }
    count
}

/// Whether these may stand in the braces of a `switch`: nothing before the first label, and at most
/// one `default`.
pub fn is_switch(stmts: &[Stmt]) -> bool
    ensures { result ≡ spec.is_switch (tree.stmts_of (map view_stmt stmts.now)) }
{
    begins_with_label(stmts) && count_defaults(stmts) <= 1
}
