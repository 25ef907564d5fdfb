// A choice from its parts (C11 6.8.4.1).
#![tactic(auto, using(c_syntax::proofs::Equations::stmt_laws))]

ghost use Rattle.std.specs.Prelude.{◌≡◌, IfOk};
ghost use Rattle.std.specs.Option.{option_map};
ghost use Rattle.c_syntax.specs.Stmt as tree;
ghost use Rattle.c_syntax.specs.View.{view_expr, view_stmt};

use c_syntax::{Expr, Stmt, StmtNode};
use std::alloc::Global;
use wp_base::{Boxed, Line, NoMemory};

/// An `if`, with what comes behind its own `else`: an `else` of its first arm stays with that arm.
pub fn if_of(
    alloc: Global,
    line: Line,
    test: Expr,
    first: Stmt,
    second: Option<Boxed<Stmt>>,
) -> Result<Stmt, NoMemory>
    ensures { IfOk result (λ made. view_stmt made ≡ tree.if_of line (view_expr test) (view_stmt first) (option_map view_stmt second)) }
{
    let first = Boxed::new(alloc, first)?;
    let node = StmtNode::If(test, first, second);
    Ok(Stmt { node, line })
}
