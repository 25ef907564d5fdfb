// Typed statements from their parts (C11 6.8).
ghost use Rattle.std.specs.Prelude.{◌≡◌, IfOk, map};
ghost use Rattle.std.specs.Option.{option_map};
ghost use Rattle.c_syntax.specs.View.{view_loop, view_pred};
ghost use Rattle.typed_prog.specs.View.{view_value};
ghost use Rattle.typed_unit.specs.Stmt as s;
ghost use Rattle.typed_unit.specs.View.{view_declared, view_stmt, view_stmts, view_turns};

use c_syntax::{LoopAnnot, Pred};
use std::alloc::Global;
use typed_prog::Value;
use typed_unit::{Declared, Stmt, StmtNode, Turns};
use wp_base::{Boxed, Line, List, NoMemory};

#[tactic(auto, using(typed_unit::proofs::Equations::stmt_laws))]
pub(crate) fn empty<'a>(line: Line) -> Stmt<'a>
    ensures { view_stmt result ≡ s.empty line }
{
    Stmt {
        node: StmtNode::Empty,
        line,
    }
}

#[tactic(auto, using(typed_unit::proofs::Equations::stmt_laws))]
pub(crate) fn of_value<'a>(line: Line, value: Value) -> Stmt<'a>
    ensures { view_stmt result ≡ s.expr line (view_value value) }
{
    Stmt {
        node: StmtNode::Expr(value),
        line,
    }
}

#[tactic(auto, using(typed_unit::proofs::Equations::stmt_laws))]
pub(crate) fn block<'a>(line: Line, body: List<Stmt<'a>>) -> Stmt<'a>
    ensures { view_stmt result ≡ s.block line (view_stmts body.entry) }
{
    Stmt {
        node: StmtNode::Block(body),
        line,
    }
}

#[tactic(auto, using(typed_unit::proofs::Equations::stmt_laws))]
pub(crate) fn of_locals<'a>(line: Line, vars: List<Declared>) -> Stmt<'a>
    ensures { view_stmt result ≡ s.locals line (map view_declared vars) }
{
    Stmt {
        node: StmtNode::Locals(vars),
        line,
    }
}

#[tactic(auto, using(typed_unit::proofs::Equations::stmt_laws))]
pub(crate) fn choice<'a>(
    alloc: Global,
    line: Line,
    test: Value,
    first: Stmt<'a>,
    other: Stmt<'a>,
) -> Result<Stmt<'a>, NoMemory>
    ensures { IfOk result (λ x. view_stmt x ≡ s.if_else line (view_value test) (view_stmt first.entry) (view_stmt other.entry)) }
{
    let first = Boxed::new(alloc, first)?;
    let other = Boxed::new(alloc, other)?;
    Ok(Stmt {
        node: StmtNode::If(test, first, other),
        line,
    })
}

#[tactic(auto, using(typed_unit::proofs::Equations::stmt_laws))]
pub(crate) fn loop_over<'a>(
    alloc: Global,
    line: Line,
    annot: &'a LoopAnnot,
    turns: Turns,
    body: Stmt<'a>,
) -> Result<Stmt<'a>, NoMemory>
    ensures { IfOk result (λ x. view_stmt x ≡ s.loop_of line (view_loop annot.now) (view_turns turns) (view_stmt body.entry)) }
{
    let body = Boxed::new(alloc, body)?;
    Ok(Stmt {
        node: StmtNode::Loop(annot, turns, body),
        line,
    })
}

/// Two statements in a block.
pub(crate) fn pair<'a>(
    alloc: Global,
    line: Line,
    first: Stmt<'a>,
    second: Stmt<'a>,
) -> Result<Stmt<'a>, NoMemory>
    ensures { IfOk result (λ x. view_stmt x ≡ s.block line (s.more (view_stmt first.entry) (s.more (view_stmt second.entry) s.stop))) }
{
    let mut both = List::new(alloc);
    both.push(first)?;
    both.push(second)?;
    Ok(block(line, both))
}

#[tactic(auto, using(typed_unit::proofs::Equations::stmt_laws))]
pub(crate) fn switch_over<'a>(line: Line, value: Value, body: List<Stmt<'a>>) -> Stmt<'a>
    ensures { view_stmt result ≡ s.switch line (view_value value) (view_stmts body.entry) }
{
    Stmt {
        node: StmtNode::Switch(value, body),
        line,
    }
}

#[tactic(auto, using(typed_unit::proofs::Equations::stmt_laws))]
pub(crate) fn case<'a>(line: Line, number: i128) -> Stmt<'a>
    ensures { view_stmt result ≡ s.case_of line number }
{
    Stmt {
        node: StmtNode::Case(number),
        line,
    }
}

#[tactic(auto, using(typed_unit::proofs::Equations::stmt_laws))]
pub(crate) fn default_label<'a>(line: Line) -> Stmt<'a>
    ensures { view_stmt result ≡ s.default line }
{
    Stmt {
        node: StmtNode::Default,
        line,
    }
}

#[tactic(auto, using(typed_unit::proofs::Equations::stmt_laws))]
pub(crate) fn leave<'a>(line: Line) -> Stmt<'a>
    ensures { view_stmt result ≡ s.break line }
{
    Stmt {
        node: StmtNode::Break,
        line,
    }
}

#[tactic(auto, using(typed_unit::proofs::Equations::stmt_laws))]
pub(crate) fn go_on<'a>(line: Line) -> Stmt<'a>
    ensures { view_stmt result ≡ s.continue line }
{
    Stmt {
        node: StmtNode::Continue,
        line,
    }
}

#[tactic(auto, using(typed_unit::proofs::Equations::stmt_laws))]
pub(crate) fn give_back<'a>(line: Line, value: Option<Value>) -> Stmt<'a>
    ensures { view_stmt result ≡ s.return_of line (option_map view_value value) }
{
    Stmt {
        node: StmtNode::Return(value),
        line,
    }
}

#[tactic(auto, using(typed_unit::proofs::Equations::stmt_laws))]
pub(crate) fn assertion<'a>(line: Line, pred: &'a Pred) -> Stmt<'a>
    ensures { view_stmt result ≡ s.assert line (view_pred pred.now) }
{
    Stmt {
        node: StmtNode::Assert(pred),
        line,
    }
}
