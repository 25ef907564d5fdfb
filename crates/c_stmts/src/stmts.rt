// Statements (C11 6.8).
ghost use Rattle.std.specs.Prelude.{◌≡◌, []};
ghost use Rattle.std.specs.Option.{option_map};
ghost use Rattle.c_answers.specs.Answers.{Answer, Gives, after};
ghost use Rattle.c_stmts.specs.Bodies.{spelled_stmts, see_item, see_stmt, see_stmts};
ghost use Rattle.c_stmts.specs.Statements as spec;
ghost use Rattle.c_syntax.specs.Stmt as p;
ghost use Rattle.c_syntax.specs.View.{view_expr, view_loop, view_stmt as spelled};
ghost use Rattle.typed_unit.specs.Stmt as s;
ghost use Rattle.typed_unit.specs.View.{view_turns};

use crate::cases::add_case;
use crate::joined::{block_of, for_of, if_else_of, if_of, loop_behind, loop_of, switch_of};
use crate::locals::locals;
use crate::makers::{
    assertion, block, case, default_label, empty, give_back, go_on, leave, of_locals, of_value,
};
use crate::values::{
    number_for, return_value, switched_value, test_of, turns_before, turns_behind, turns_of,
    value_of,
};
use c_answers::refused;
use c_operands::kind_of_value;
use c_syntax::{Expr, LoopAnnot, Stmt as Spelled, StmtNode};
use c_variables::Context;
use indexmap::IndexSet;
use std::alloc::Global;
use typed_unit::{Stmt, Turns};
use wp_base::{Kind, Line, List, Rule, Stop};

#[cycle(stmts)]
#[tactic(auto, using(c_answers::proofs::After::after_laws, c_syntax::proofs::Equations::stmt_laws))]
fn typed_stmt<'a>(alloc: Global, context: &mut Context, stmt: &'a Spelled) -> Result<Stmt<'a>, Stop>
    ensures { Gives (see_stmt context.new) result (spec.stmt context.old (spelled stmt.now)) }
{
    let line = stmt.line;
    match &stmt.node {
        StmtNode::Empty => Ok(empty(line)),
        StmtNode::Expr(expr) => Ok(of_value(line, value_of(alloc, context, expr)?)),
        StmtNode::Block(body) => typed_block(alloc, context, line, body),
        StmtNode::Locals(vars) => Ok(of_locals(line, locals(alloc, context, vars.as_slice())?)),
        StmtNode::If(test, first, other) => match other {
            None => typed_if(alloc, context, line, first.get(), test),
            Some(other) => typed_if_else(alloc, context, line, first.get(), other.get(), test),
        },
        StmtNode::While(annot, test, body) => {
            let turns = turns_before(alloc, context, test);
            typed_loop(alloc, context, line, annot, body.get(), turns)
        }
        StmtNode::Do(annot, body, test) => typed_do(alloc, context, line, annot, body.get(), test),
        StmtNode::For(annot, first, test, next, body) => {
            typed_for(
                alloc,
                context,
                line,
                annot,
                first.get(),
                body.get(),
                test,
                next,
            )
        }
        StmtNode::Switch(expr, body) => typed_switch(alloc, context, line, body, expr),
        StmtNode::Case(_) => Err(refused(Rule::Typing, line)),
        StmtNode::Default => Err(refused(Rule::Typing, line)),
        StmtNode::Break => Ok(leave(line)),
        StmtNode::Continue => Ok(go_on(line)),
        StmtNode::Return(expr) => Ok(give_back(line, return_value(alloc, context, line, expr)?)),
        StmtNode::Assert(pred) => Ok(assertion(line, pred)),
    }
}

#[cycle(stmts)]
#[tactic(auto, using(c_answers::proofs::After::after_laws))]
fn typed_block<'a>(
    alloc: Global,
    context: &mut Context,
    line: Line,
    body: &'a List<Spelled>,
) -> Result<Stmt<'a>, Stop>
    ensures { Gives (see_stmt context.new) result (spec.stmt context.old (p.block line (spelled_stmts body.now))) }
{
    context.scope.local.enter(alloc)?;
    let body = typed_stmts(alloc, context, body.as_slice());
    context.scope.local.leave();
    block_of(line, body)
}

#[cycle(stmts)]
#[tactic(auto, using(c_answers::proofs::After::after_laws))]
fn typed_if<'a>(
    alloc: Global,
    context: &mut Context,
    line: Line,
    first: &'a Spelled,
    test: &Expr,
) -> Result<Stmt<'a>, Stop>
    ensures { Gives (see_stmt context.new) result (spec.stmt context.old (p.if_only line (view_expr test.now) (spelled first.now))) }
{
    let test = test_of(alloc, context, test)?;
    let first = typed_stmt(alloc, context, first);
    if_of(alloc, line, test, first)
}

#[cycle(stmts)]
#[tactic(auto, using(c_answers::proofs::After::after_laws))]
fn typed_if_else<'a>(
    alloc: Global,
    context: &mut Context,
    line: Line,
    first: &'a Spelled,
    other: &'a Spelled,
    test: &Expr,
) -> Result<Stmt<'a>, Stop>
    ensures { Gives (see_stmt context.new) result (spec.stmt context.old (p.if_else line (view_expr test.now) (spelled first.now) (spelled other.now))) }
{
    let test = test_of(alloc, context, test)?;
    let first = typed_stmt(alloc, context, first)?;
    let other = typed_stmt(alloc, context, other);
    if_else_of(alloc, line, test, first, other)
}

// A loop with what is evaluated beside its body.
#[cycle(stmts)]
#[tactic(auto, using(c_answers::proofs::After::after_laws))]
fn typed_loop<'a>(
    alloc: Global,
    context: &mut Context,
    line: Line,
    annot: &'a LoopAnnot,
    body: &'a Spelled,
    turns: Result<Turns, Stop>,
) -> Result<Stmt<'a>, Stop>
    ensures { (given : Answer s.Turns) → Gives view_turns turns given
        → Gives (see_stmt context.new) result (after given (λ t. spec.loop_by line (view_loop annot.now) t (spec.stmt context.old (spelled body.now)))) }
{
    let turns = turns?;
    let body = typed_stmt(alloc, context, body);
    loop_of(alloc, line, annot, turns, body)
}

#[cycle(stmts)]
#[tactic(auto, using(c_answers::proofs::After::after_laws))]
fn typed_do<'a>(
    alloc: Global,
    context: &mut Context,
    line: Line,
    annot: &'a LoopAnnot,
    body: &'a Spelled,
    test: &Expr,
) -> Result<Stmt<'a>, Stop>
    ensures { Gives (see_stmt context.new) result (spec.stmt context.old (p.do_of line (view_loop annot.now) (spelled body.now) (view_expr test.now))) }
{
    let body = typed_stmt(alloc, context, body)?;
    let turns = turns_behind(alloc, context, test);
    loop_behind(alloc, line, annot, turns, body)
}

#[cycle(stmts)]
#[tactic(auto, using(c_answers::proofs::After::after_laws))]
fn typed_for<'a>(
    alloc: Global,
    context: &mut Context,
    line: Line,
    annot: &'a LoopAnnot,
    first: &'a Spelled,
    body: &'a Spelled,
    test: &Option<Expr>,
    next: &Option<Expr>,
) -> Result<Stmt<'a>, Stop>
    ensures { Gives (see_stmt context.new) result (spec.stmt context.old (p.for_of line (view_loop annot.now) (spelled first.now) (option_map view_expr test.now) (option_map view_expr next.now) (spelled body.now))) }
{
    context.scope.local.enter(alloc)?;
    let first = typed_stmt(alloc, context, first)?;
    let turns = turns_of(alloc, context, test, next);
    let again = typed_loop(alloc, context, line, annot, body, turns);
    context.scope.local.leave();
    for_of(alloc, line, first, again)
}

#[cycle(stmts)]
#[tactic(auto, using(c_answers::proofs::After::after_laws))]
fn typed_switch<'a>(
    alloc: Global,
    context: &mut Context,
    line: Line,
    body: &'a List<Spelled>,
    expr: &Expr,
) -> Result<Stmt<'a>, Stop>
    ensures { Gives (see_stmt context.new) result (spec.stmt context.old (p.switch line (view_expr expr.now) (spelled_stmts body.now))) }
{
    let value = switched_value(alloc, context, expr)?;
    context.scope.local.enter(alloc)?;
    let body = labelled(alloc, context, kind_of_value(&value), body.as_slice());
    context.scope.local.leave();
    switch_of(line, value, body)
}

// The statements of a block, in order.
#[cycle(stmts)]
#[tactic(auto, using(crate::proofs::Lists::stmts_laws))]
fn typed_stmts<'a>(
    alloc: Global,
    context: &mut Context,
    stmts: &'a [Spelled],
) -> Result<List<Stmt<'a>>, Stop>
    ensures { Gives (see_stmts context.new) result (spec.stmts context.old (spelled_stmts stmts.now)) }
{
    let mut done = List::new(alloc);
    for i in 0..stmts.len() {
        let stmt = typed_stmt(alloc, context, &stmts[i])?;
        done.push(stmt)?;
    }
    Ok(done)
}

// The body of a `switch` over this kind.
#[cycle(stmts)]
#[tactic(auto, using(crate::proofs::Lists::labelled_laws))]
fn labelled<'a>(
    alloc: Global,
    context: &mut Context,
    kind: Option<Kind>,
    stmts: &'a [Spelled],
) -> Result<List<Stmt<'a>>, Stop>
    ensures { Gives (see_stmts context.new) result (spec.labelled kind [] context.old (spelled_stmts stmts.now)) }
{
    let mut numbers = IndexSet::new(alloc);
    let mut done = List::new(alloc);
    for i in 0..stmts.len() {
        let stmt = item(alloc, context, kind, &mut numbers, &stmts[i])?;
        done.push(stmt)?;
    }
    Ok(done)
}

#[cycle(stmts)]
#[tactic(auto, using(c_answers::proofs::After::after_laws, c_syntax::proofs::Equations::stmt_laws))]
fn item<'a>(
    alloc: Global,
    context: &mut Context,
    kind: Option<Kind>,
    numbers: &mut IndexSet<i128>,
    stmt: &'a Spelled,
) -> Result<Stmt<'a>, Stop>
    ensures { Gives (see_item numbers.new.keys context.new) result (spec.item kind numbers.old.keys context.old (spelled stmt.now) (spec.stmt context.old (spelled stmt.now))) }
{
    match &stmt.node {
        StmtNode::Case(expr) => label(alloc, context, kind, numbers, stmt.line, expr),
        StmtNode::Default => Ok(default_label(stmt.line)),
        StmtNode::Empty
        | StmtNode::Expr(_)
        | StmtNode::Block(_)
        | StmtNode::Locals(_)
        | StmtNode::If(_, _, _)
        | StmtNode::While(_, _, _)
        | StmtNode::Do(_, _, _)
        | StmtNode::For(_, _, _, _, _)
        | StmtNode::Switch(_, _)
        | StmtNode::Break
        | StmtNode::Continue
        | StmtNode::Return(_)
        | StmtNode::Assert(_) => typed_stmt(alloc, context, stmt),
    }
}

// A label on this line in the body of a `switch`.
#[tactic(auto, using(c_answers::proofs::After::after_laws), unfolding(crate::specs::Statements::label))]
fn label<'a>(
    alloc: Global,
    context: &Context,
    kind: Option<Kind>,
    numbers: &mut IndexSet<i128>,
    line: Line,
    expr: &Expr,
) -> Result<Stmt<'a>, Stop>
    ensures { Gives (see_item numbers.new.keys context.now) result (spec.label kind numbers.old.keys context.now line (view_expr expr.now)) }
{
    let number = number_for(alloc, context, kind, line, expr)?;
    add_case(line, numbers, number)?;
    Ok(case(line, number))
}

/// The statements of a function's body, whose outermost block is that of its parameters.
#[tactic(auto, using(c_answers::proofs::After::after_laws, c_syntax::proofs::Equations::stmt_laws))]
pub fn body<'a>(alloc: Global, context: &mut Context, stmt: &'a Spelled) -> Result<Stmt<'a>, Stop>
    ensures { Gives (see_stmt context.new) result (spec.body context.old (spelled stmt.now)) }
{
    match &stmt.node {
        StmtNode::Block(stmts) => {
            let body = typed_stmts(alloc, context, stmts.as_slice())?;
            Ok(block(stmt.line, body))
        }
        StmtNode::Empty
        | StmtNode::Expr(_)
        | StmtNode::Locals(_)
        | StmtNode::If(_, _, _)
        | StmtNode::While(_, _, _)
        | StmtNode::Do(_, _, _)
        | StmtNode::For(_, _, _, _, _)
        | StmtNode::Switch(_, _)
        | StmtNode::Case(_)
        | StmtNode::Default
        | StmtNode::Break
        | StmtNode::Continue
        | StmtNode::Return(_)
        | StmtNode::Assert(_) => typed_stmt(alloc, context, stmt),
    }
}
