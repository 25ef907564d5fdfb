// Which statements are over integers alone (C11 6.8).
ghost use Rattle.std.specs.Prelude.{◌≡◌, map};
ghost use Rattle.std.specs.List.{list_all};
ghost use Rattle.plain_test.specs.Plain as spec;
ghost use Rattle.typed_unit.specs.View.{view_declared, view_stmt, view_stmts, view_turns};

use crate::values::{if_plain, is_number_of, is_plain_value};
use c_kinds::Machdep;
use typed_unit::{Declared, Stmt, StmtNode, Turns};
use wp_base::Kind;

#[tactic(auto, using(crate::proofs::Lists::locals_laws))]
fn are_plain_locals(model: Machdep, locals: &[Declared]) -> bool
    ensures { result ≡ list_all (spec.is_plain_declared model) (map view_declared locals.now) }
{
    for i in 0..locals.len() {
        let fits = if_plain(model, &locals[i].init);
        if !fits {
            return false;
        }
    }
    true
}

fn are_plain_turns(model: Machdep, turns: &Turns) -> bool
    ensures { result ≡ spec.are_plain_turns model (view_turns turns.now) }
{
    if_plain(model, &turns.before)
        && (if_plain(model, &turns.step) && if_plain(model, &turns.after))
}

#[tactic(auto, using(typed_unit::proofs::Equations::stmt_laws))]
fn label_fits(model: Machdep, kind: Option<Kind>, stmt: &Stmt<'_>) -> bool
    ensures { result ≡ spec.label_fits model kind (view_stmt stmt.now) }
{
    match &stmt.node {
        StmtNode::Case(number) => is_number_of(model, kind, number),
        StmtNode::Empty => true,
        StmtNode::Expr(_) => true,
        StmtNode::Block(_) => true,
        StmtNode::Locals(_) => true,
        StmtNode::If(_, _, _) => true,
        StmtNode::Loop(_, _, _) => true,
        StmtNode::Switch(_, _) => true,
        StmtNode::Default => true,
        StmtNode::Break => true,
        StmtNode::Continue => true,
        StmtNode::Return(_) => true,
        StmtNode::Assert(_) => true,
    }
}

#[tactic(auto, using(crate::proofs::Lists::labels_laws))]
fn labels_fit(model: Machdep, kind: Option<Kind>, stmts: &[Stmt<'_>]) -> bool
    ensures { result ≡ spec.labels_fit model kind (view_stmts stmts.now) }
{
    for i in 0..stmts.len() {
        let fits = label_fits(model, kind, &stmts[i]);
        if !fits {
            return false;
        }
    }
    true
}

#[cycle(plain_stmts)]
#[tactic(auto, using(typed_unit::proofs::Equations::stmt_laws))]
pub(crate) fn is_plain_stmt(model: Machdep, stmt: &Stmt<'_>) -> bool
    ensures { result ≡ spec.is_plain_stmt model (view_stmt stmt.now) }
{
    match &stmt.node {
        StmtNode::Empty => true,
        StmtNode::Expr(value) => is_plain_value(model, value),
        StmtNode::Block(body) => are_plain_stmts(model, body.as_slice()),
        StmtNode::Locals(locals) => are_plain_locals(model, locals.as_slice()),
        StmtNode::If(test, first, second) => {
            is_plain_value(model, test)
                && (is_plain_stmt(model, first.get()) && is_plain_stmt(model, second.get()))
        }
        StmtNode::Loop(_, turns, body) => {
            are_plain_turns(model, turns) && is_plain_stmt(model, body.get())
        }
        StmtNode::Switch(value, body) => {
            is_plain_value(model, value)
                && (labels_fit(model, value.ty.kind(), body.as_slice())
                    && are_plain_stmts(model, body.as_slice()))
        }
        StmtNode::Case(_) => true,
        StmtNode::Default => true,
        StmtNode::Break => true,
        StmtNode::Continue => true,
        StmtNode::Return(value) => if_plain(model, value),
        StmtNode::Assert(_) => true,
    }
}

#[cycle(plain_stmts)]
#[tactic(auto, using(crate::proofs::Lists::stmts_laws))]
fn are_plain_stmts(model: Machdep, stmts: &[Stmt<'_>]) -> bool
    ensures { result ≡ spec.are_plain_stmts model (view_stmts stmts.now) }
{
    for i in 0..stmts.len() {
        let fits = is_plain_stmt(model, &stmts[i]);
        if !fits {
            return false;
        }
    }
    true
}
