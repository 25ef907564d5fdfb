// Statements from their parts.
#![tactic(auto, using(c_syntax::proofs::Equations::stmt_laws))]

ghost use Rattle.std.specs.Prelude.{◌≡◌, [], map, IfOk};
ghost use Rattle.c_grammar.specs.Annots.{loop_of};
ghost use Rattle.c_syntax.specs.Stmt as tree;
ghost use Rattle.c_syntax.specs.View.{view_expr, view_loop, view_stmt};
ghost use Rattle.parse_leaf_stmts.specs.Views.{view_head};

use crate::parts::Head;
use c_syntax::{AssignsClause, Expr, LoopAnnot, Stmt, StmtNode};
use std::alloc::Global;
use wp_base::{Boxed, Line, List, NoMemory, box_both};

/// The annotation of a loop that has none.
pub fn no_annot(alloc: Global) -> LoopAnnot
    ensures { view_loop result ≡ loop_of [] }
{
    let assigns = AssignsClause {
        set: None,
        from: List::new(alloc),
        line: 0,
        place: 0,
    };
    LoopAnnot {
        invariants: List::new(alloc),
        assigns,
        variant: None,
    }
}

/// A block.
pub fn block_of(line: Line, body: List<Stmt>) -> Stmt
    ensures { view_stmt result ≡ tree.block line (tree.stmts_of (map view_stmt body)) }
{
    let node = StmtNode::Block(body);
    Stmt { node, line }
}

/// A `switch`.
pub fn switch_of(line: Line, value: Expr, body: List<Stmt>) -> Stmt
    ensures { view_stmt result ≡ tree.switch line (view_expr value) (tree.stmts_of (map view_stmt body)) }
{
    let node = StmtNode::Switch(value, body);
    Stmt { node, line }
}

/// A `while`.
pub fn while_of(
    alloc: Global,
    line: Line,
    annot: LoopAnnot,
    test: Expr,
    body: Stmt,
) -> Result<Stmt, NoMemory>
    ensures { IfOk result (λ made. view_stmt made ≡ tree.while_of line (view_loop annot) (view_expr test) (view_stmt body)) }
{
    let body = Boxed::new(alloc, body)?;
    let node = StmtNode::While(annot, test, body);
    Ok(Stmt { node, line })
}

/// A `do`.
pub fn do_of(
    alloc: Global,
    line: Line,
    annot: LoopAnnot,
    body: Stmt,
    test: Expr,
) -> Result<Stmt, NoMemory>
    ensures { IfOk result (λ made. view_stmt made ≡ tree.do_of line (view_loop annot) (view_stmt body) (view_expr test)) }
{
    let body = Boxed::new(alloc, body)?;
    let node = StmtNode::Do(annot, body, test);
    Ok(Stmt { node, line })
}

/// A `for`.
pub fn for_of(
    alloc: Global,
    line: Line,
    annot: LoopAnnot,
    head: Head,
    body: Stmt,
) -> Result<Stmt, NoMemory>
    ensures { IfOk result (λ made. view_stmt made ≡ tree.for_of line (view_loop annot) (view_head head).0 (view_head head).1 (view_head head).2 (view_stmt body)) }
{
    let (first, body) = box_both(alloc, head.first, body)?;
    let node = StmtNode::For(annot, first, head.test, head.next, body);
    Ok(Stmt { node, line })
}
