// Statements, put behind those that are there.
ghost use Rattle.std.specs.Prelude.{◌≡◌, ◌++◌, [], ◌∷◌, IfOk, OnOk, map};
ghost use Rattle.std.specs.Option.{option_map};
ghost use Rattle.c_runs.specs.Program as run;
ghost use Rattle.c_programs.specs.Bodies as spec;
ghost use Rattle.c_programs.specs.Clauses.{claim_of, loop_with as claims_with};
ghost use Rattle.placed_bodies.specs.Into.{notes_left, PutInto};
ghost use Rattle.program_trees.specs.View.{view_option, view_stmt, view_stmts};
ghost use Rattle.typed_prog.specs.View.{view_value};
ghost use Rattle.typed_unit.specs.View.{view_declared, view_stmt as view_typed_stmt, view_stmts as view_typed, view_turns};

use crate::clauses::loop_with;
use crate::left::Left;
use crate::notes::{assertion_at, behind, clauses_at};
use core_trees::Claim;
use program_trees::{Stmt, Turns};
use std::alloc::Global;
use typed_prog::Value;
use typed_unit::{Declared, Stmt as TypedStmt, StmtNode, Turns as TypedTurns};
use wp_base::{Boxed, Line, List, NoMemory};

// One statement more, which takes no annotation.
#[tactic(auto, using(crate::proofs::Putting::put_laws))]
pub(crate) fn push<'a, 'n>(
    out: &mut List<Stmt<'a>>,
    stmt: Stmt<'a>,
    left: Left<'n>,
) -> Result<Left<'n>, NoMemory>
    ensures { IfOk result (λ l. PutInto out.old out.new (spec.as_it_is (spec.one (view_stmt stmt.entry)) (notes_left left.entry) left.entry.declared) l) }
{
    out.push(stmt)?;
    Ok(left)
}

fn lent(value: &Option<Value>) -> Option<&Value>
    ensures { view_option result ≡ option_map view_value value.now }
{
    match value {
        Some(value) => Some(value),
        None => None,
    }
}

fn turns_of(turns: &TypedTurns) -> Turns<'_>
    ensures before { view_option result.before ≡ (view_turns turns.now).before }
    ensures step { view_option result.step ≡ (view_turns turns.now).step }
    ensures behind { view_option result.behind ≡ (view_turns turns.now).behind }
{
    Turns {
        before: lent(&turns.before),
        step: lent(&turns.step),
        behind: lent(&turns.after),
    }
}

// ---- declarations

#[tactic(auto, using(crate::proofs::Putting::put_laws, program_trees::proofs::Equations::stmt_laws))]
fn put_initial<'a>(out: &mut List<Stmt<'a>>, local: &'a Declared) -> Result<(), NoMemory>
    ensures { OnOk result (view_stmts out.new ≡ spec.then_ (view_stmts out.old) (spec.initial_of local.now.local local.now.line (option_map view_value local.now.init))) }
{
    match &local.init {
        Some(value) => out.push(Stmt::Initial(local.local, local.line, value)),
        None => Ok(()),
    }
}

// Numbers of variables end where no number is behind: there are fewer, since each has a token of the text.
#[tactic(auto, using(crate::proofs::Putting::locals_laws))]
pub(crate) fn put_locals<'a, 'n>(
    out: &mut List<Stmt<'a>>,
    locals: &'a [Declared],
    left: Left<'n>,
) -> Result<Left<'n>, NoMemory>
    ensures { IfOk result (λ l. PutInto out.old out.new (spec.as_it_is (spec.initials (map view_declared locals.now)) (notes_left left.entry) (spec.declared_behind left.entry.declared (map view_declared locals.now))) l) }
{
    let mut declared = left.declared;
    for i in 0..locals.len() {
        put_initial(out, &locals[i])?;
        declared = locals[i].local.checked_add(1).ok_or(NoMemory)?;
    }
    Ok(Left {
        notes: left.notes,
        declared,
    })
}

#[tactic(auto, using(crate::proofs::Putting::number_laws))]
fn put_numbers(numbers: &mut List<u32>, locals: &[Declared]) -> Result<(), NoMemory>
    ensures { OnOk result (numbers.new ≡ numbers.old ++ map spec.number_of (map view_declared locals.now)) }
{
    for i in 0..locals.len() {
        numbers.push(locals[i].local)?;
    }
    Ok(())
}

#[tactic(auto, using(typed_unit::proofs::Equations::stmt_laws, crate::proofs::Putting::nothing_more))]
fn put_declared(numbers: &mut List<u32>, stmt: &TypedStmt<'_>) -> Result<(), NoMemory>
    ensures { OnOk result (numbers.new ≡ numbers.old ++ spec.declared_by (view_typed_stmt stmt.now)) }
{
    match &stmt.node {
        StmtNode::Locals(locals) => put_numbers(numbers, locals.as_slice()),
        StmtNode::Empty => Ok(()),
        StmtNode::Expr(_) => Ok(()),
        StmtNode::Block(_) => Ok(()),
        StmtNode::If(_, _, _) => Ok(()),
        StmtNode::Loop(_, _, _) => Ok(()),
        StmtNode::Switch(_, _) => Ok(()),
        StmtNode::Case(_) => Ok(()),
        StmtNode::Default => Ok(()),
        StmtNode::Break => Ok(()),
        StmtNode::Continue => Ok(()),
        StmtNode::Return(_) => Ok(()),
        StmtNode::Assert(_) => Ok(()),
    }
}

#[tactic(auto, using(crate::proofs::Putting::variable_laws))]
fn variables_in(alloc: Global, body: &[TypedStmt<'_>]) -> Result<List<u32>, NoMemory>
    ensures { IfOk result (λ numbers. numbers ≡ spec.variables_in (view_typed body.now)) }
{
    let mut numbers = List::new(alloc);
    for i in 0..body.len() {
        put_declared(&mut numbers, &body[i])?;
    }
    Ok(numbers)
}

// ---- blocks, choices and loops, of which the parts are made

#[tactic(auto, using(crate::proofs::Putting::put_laws, program_trees::proofs::Equations::stmt_laws))]
pub(crate) fn push_block<'a>(
    alloc: Global,
    out: &mut List<Stmt<'a>>,
    body: &[TypedStmt<'_>],
    made: List<Stmt<'a>>,
) -> Result<(), NoMemory>
    ensures { OnOk result (view_stmts out.new ≡ spec.then_ (view_stmts out.old) (spec.one (run.block (spec.variables_in (view_typed body.now)) (view_stmts made.entry)))) }
{
    let variables = variables_in(alloc, body)?;
    out.push(Stmt::Block(variables, made))
}

#[tactic(auto, using(crate::proofs::Putting::put_laws, program_trees::proofs::Equations::stmt_laws))]
pub(crate) fn push_loop<'a>(
    alloc: Global,
    out: &mut List<Stmt<'a>>,
    turns: &'a TypedTurns,
    left: Left<'_>,
    made: Boxed<Stmt<'a>>,
) -> Result<(), NoMemory>
    ensures { OnOk result (view_stmts out.new ≡ spec.then_ (view_stmts out.old) (spec.one (run.loop (claims_with left.entry.declared (spec.clauses_at (notes_left left.entry)))
        (view_turns turns.now).before (view_stmt made.entry) (view_turns turns.now).step (view_turns turns.now).behind))) }
{
    let claims = loop_with(alloc, left.declared, clauses_at(left.notes))?;
    out.push(Stmt::Loop(claims, turns_of(turns), made))
}

#[tactic(auto, using(crate::proofs::Putting::put_laws, program_trees::proofs::Equations::stmt_laws))]
pub(crate) fn push_assertion<'a, 'n>(
    alloc: Global,
    out: &mut List<Stmt<'a>>,
    line: Line,
    left: Left<'n>,
) -> Result<Left<'n>, NoMemory>
    ensures { IfOk result (λ l. PutInto out.old out.new (spec.as_it_is (spec.one (run.assert (claim_of line (spec.assertion_at (notes_left left.entry))))) (spec.behind (notes_left left.entry)) left.entry.declared) l) }
{
    let what = assertion_at(alloc, left.notes)?;
    out.push(Stmt::Assert(Claim { what, line }))?;
    Ok(behind(left))
}

/// An arm of a choice, or the body of a loop, as one statement.
#[tactic(auto, using(crate::proofs::Putting::whole_laws, program_trees::proofs::Equations::stmt_laws))]
pub(crate) fn whole_of<'a>(alloc: Global, made: List<Stmt<'a>>) -> Result<Boxed<Stmt<'a>>, NoMemory>
    ensures { IfOk result (λ one. view_stmt one ≡ spec.whole (view_stmts made.entry)) }
{
    let mut stmts = made.into_vec();
    match stmts.pop() {
        None => Boxed::new(alloc, Stmt::Block(List::new(alloc), List::new(alloc))),
        Some(last) => {
            if stmts.is_empty() {
                return Boxed::new(alloc, last);
            }
            stmts.push(last)?;
            Boxed::new(alloc, Stmt::Block(List::new(alloc), List::from_vec(stmts)))
        }
    }
}
