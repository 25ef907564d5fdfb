// Bodies with the annotations that stand in them (C11 6.8, ACSL 2.4).
ghost use Rattle.std.specs.Prelude.{◌≡◌, [], IfOk};
ghost use Rattle.c_programs.specs.Bodies as spec;
ghost use Rattle.placed_bodies.specs.Into.{block_of, choice_of, loop_of, MadeWhole, notes_left, PutInto, switch_of, view_notes};
ghost use Rattle.program_trees.specs.View.{view_stmts};
ghost use Rattle.typed_prog.specs.View.{view_value};
ghost use Rattle.typed_unit.specs.View.{view_stmt as view_typed, view_stmts as view_all_typed, view_turns};

use crate::left::Left;
use crate::notes::behind;
use crate::put::{push, push_assertion, push_block, push_loop, put_locals, whole_of};
use acsl_notes::Note;
use program_trees::Stmt;
use std::alloc::Global;
use typed_prog::Value;
use typed_unit::{Stmt as TypedStmt, StmtNode, Turns as TypedTurns};
use wp_base::{Boxed, List, NoMemory};

// What a statement becomes, behind what is there; the answer is what is left behind it.
#[cycle(placing)]
#[tactic(auto, using(typed_unit::proofs::Equations::stmt_laws, program_trees::proofs::Equations::stmt_laws, crate::proofs::Placing::placing_laws))]
fn stmt_into<'a, 'b, 'n>(
    alloc: Global,
    stmt: &'a TypedStmt<'b>,
    left: Left<'n>,
    out: &mut List<Stmt<'a>>,
) -> Result<Left<'n>, NoMemory>
    ensures { IfOk result (λ l. PutInto out.old out.new (spec.placed (view_typed stmt.now) (notes_left left.entry) left.entry.declared) l) }
{
    match &stmt.node {
        StmtNode::Empty => Ok(left),
        StmtNode::Expr(value) => push(out, Stmt::Evaluate(value), left),
        StmtNode::Block(body) => block_into(alloc, body.as_slice(), left, out),
        StmtNode::Locals(locals) => put_locals(out, locals.as_slice(), left),
        StmtNode::If(test, first, second) => choice_into(
            alloc,
            first.get(),
            second.get(),
            test,
            left,
            out,
        ),
        StmtNode::Loop(_, turns, body) => loop_into(alloc, body.get(), turns, left, out),
        StmtNode::Switch(value, body) => switch_into(alloc, body.as_slice(), value, left, out),
        StmtNode::Case(number) => push(out, Stmt::Case(*number), left),
        StmtNode::Default => push(out, Stmt::Default, left),
        StmtNode::Break => push(out, Stmt::Break, left),
        StmtNode::Continue => push(out, Stmt::Continue, left),
        StmtNode::Return(value) => push(out, Stmt::Return(value.as_ref()), left),
        StmtNode::Assert(_) => push_assertion(alloc, out, stmt.line, left),
    }
}

// Statements one after the other.
#[cycle(placing)]
#[tactic(auto, using(crate::proofs::Placing::following_laws))]
fn stmts_into<'a, 'b, 'n>(
    alloc: Global,
    stmts: &'a [TypedStmt<'b>],
    left: Left<'n>,
    out: &mut List<Stmt<'a>>,
) -> Result<Left<'n>, NoMemory>
    ensures { IfOk result (λ l. PutInto out.old out.new (spec.all_placed (view_all_typed stmts.now) (notes_left left.entry) left.entry.declared) l) }
{
    let mut now = left;
    for i in 0..stmts.len() {
        now = stmt_into(alloc, &stmts[i], now, out)?;
    }
    Ok(now)
}

#[cycle(placing)]
fn stmts_made<'a, 'b, 'n>(
    alloc: Global,
    stmts: &'a [TypedStmt<'b>],
    left: Left<'n>,
) -> Result<(List<Stmt<'a>>, Left<'n>), NoMemory>
    ensures { IfOk result (λ r. PutInto [] r.0 (spec.all_placed (view_all_typed stmts.now) (notes_left left.entry) left.entry.declared) r.1) }
{
    let mut made = List::new(alloc);
    let left = stmts_into(alloc, stmts, left, &mut made)?;
    Ok((made, left))
}

// An arm of a choice, or the body of a loop.
#[cycle(placing)]
#[tactic(auto, using(crate::proofs::Placing::whole_made))]
fn whole_made<'a, 'b, 'n>(
    alloc: Global,
    stmt: &'a TypedStmt<'b>,
    left: Left<'n>,
) -> Result<(Boxed<Stmt<'a>>, Left<'n>), NoMemory>
    ensures { IfOk result (λ r. MadeWhole r.0 (spec.placed (view_typed stmt.now) (notes_left left.entry) left.entry.declared) r.1) }
{
    let mut made = List::new(alloc);
    let left = stmt_into(alloc, stmt, left, &mut made)?;
    let whole = whole_of(alloc, made)?;
    Ok((whole, left))
}

#[cycle(placing)]
#[tactic(auto, using(crate::proofs::Placing::block_placed))]
fn block_into<'a, 'b, 'n>(
    alloc: Global,
    body: &'a [TypedStmt<'b>],
    left: Left<'n>,
    out: &mut List<Stmt<'a>>,
) -> Result<Left<'n>, NoMemory>
    ensures { IfOk result (λ l. PutInto out.old out.new (block_of (view_all_typed body.now) (notes_left left.entry) left.entry.declared) l) }
{
    let (made, left) = stmts_made(alloc, body, left)?;
    push_block(alloc, out, body, made)?;
    Ok(left)
}

#[cycle(placing)]
#[tactic(auto, using(crate::proofs::Placing::switch_placed, program_trees::proofs::Equations::stmt_laws))]
fn switch_into<'a, 'b, 'n>(
    alloc: Global,
    body: &'a [TypedStmt<'b>],
    value: &'a Value,
    left: Left<'n>,
    out: &mut List<Stmt<'a>>,
) -> Result<Left<'n>, NoMemory>
    ensures { IfOk result (λ l. PutInto out.old out.new (switch_of (view_value value.now) (view_all_typed body.now) (notes_left left.entry) left.entry.declared) l) }
{
    let (made, left) = stmts_made(alloc, body, left)?;
    out.push(Stmt::Switch(value, made))?;
    Ok(left)
}

#[cycle(placing)]
#[tactic(auto, using(crate::proofs::Placing::choice_placed, program_trees::proofs::Equations::stmt_laws))]
fn choice_into<'a, 'b, 'n>(
    alloc: Global,
    first: &'a TypedStmt<'b>,
    second: &'a TypedStmt<'b>,
    test: &'a Value,
    left: Left<'n>,
    out: &mut List<Stmt<'a>>,
) -> Result<Left<'n>, NoMemory>
    ensures { IfOk result (λ l. PutInto out.old out.new (choice_of (view_value test.now) (view_typed first.now) (view_typed second.now) (notes_left left.entry) left.entry.declared) l) }
{
    let (one, left) = whole_made(alloc, first, left)?;
    let (other, left) = whole_made(alloc, second, left)?;
    out.push(Stmt::Choose(test, one, other))?;
    Ok(left)
}

#[cycle(placing)]
#[tactic(auto, using(crate::proofs::Placing::loop_placed))]
fn loop_into<'a, 'b, 'n>(
    alloc: Global,
    body: &'a TypedStmt<'b>,
    turns: &'a TypedTurns,
    left: Left<'n>,
    out: &mut List<Stmt<'a>>,
) -> Result<Left<'n>, NoMemory>
    ensures { IfOk result (λ l. PutInto out.old out.new (loop_of (view_turns turns.now) (view_typed body.now) (notes_left left.entry) left.entry.declared) l) }
{
    let (made, behind_it) = whole_made(alloc, body, behind(left))?;
    push_loop(alloc, out, turns, left, made)?;
    Ok(behind_it)
}

/// The body of a function that has so many parameters, with the annotations in it, which are all taken where these were typed in it.
pub fn body_placed<'a, 'b>(
    alloc: Global,
    stmt: &'a TypedStmt<'b>,
    notes: &[Note],
    params: u32,
) -> Result<List<Stmt<'a>>, NoMemory>
    ensures { IfOk result (λ body. view_stmts body ≡ (spec.placed (view_typed stmt.now) (view_notes notes.now) params).stmts) }
{
    let mut made = List::new(alloc);
    let left = Left {
        notes,
        declared: params,
    };
    let _left = stmt_into(alloc, stmt, left, &mut made)?;
    Ok(made)
}
