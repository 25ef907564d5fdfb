// Statements of parts that were typed, where none of these has a fault. What a part gave is handed over as it was given, so that the recursion over statements
// holds little while it goes on.
ghost use Rattle.std.specs.Prelude.{Ok};
ghost use Rattle.c_answers.specs.Answers.{Answer, Gives, after};
ghost use Rattle.c_stmts.specs.Bodies.{see_stmt, see_stmts};
ghost use Rattle.c_stmts.specs.Statements.{for_by, left, loop_by};
ghost use Rattle.c_syntax.specs.View.{view_loop};
ghost use Rattle.c_variables.specs.declared.context.Context.{Context};
ghost use Rattle.typed_prog.specs.View.{view_value};
ghost use Rattle.typed_unit.specs.Stmt as s;
ghost use Rattle.typed_unit.specs.View.{view_stmt, view_turns};

use crate::makers::{block, choice, empty, loop_over, pair, switch_over};
use c_syntax::LoopAnnot;
use std::alloc::Global;
use typed_prog::Value;
use typed_unit::{Stmt, Turns};
use wp_base::{Line, List, Stop};

/// A block that was left behind these statements.
#[tactic(auto, using(c_answers::proofs::After::after_laws))]
pub(crate) fn block_of<'a>(line: Line, body: Result<List<Stmt<'a>>, Stop>) -> Result<Stmt<'a>, Stop>
    ensures { (c : Context) (given : Answer (s.Stmts × Context)) → Gives (see_stmts c) body.entry given
        → Gives (see_stmt (left c)) result (after given (λ r. Ok (s.block line r.0, left r.1))) }
{
    Ok(block(line, body?))
}

/// An `if` without `else`.
#[tactic(auto, using(c_answers::proofs::After::after_laws))]
pub(crate) fn if_of<'a>(
    alloc: Global,
    line: Line,
    test: Value,
    first: Result<Stmt<'a>, Stop>,
) -> Result<Stmt<'a>, Stop>
    ensures { (c : Context) (given : Answer (s.Stmt × Context)) → Gives (see_stmt c) first.entry given
        → Gives (see_stmt c) result (after given (λ r. Ok (s.if_else line (view_value test) r.0 (s.empty line), r.1))) }
{
    Ok(choice(alloc, line, test, first?, empty(line))?)
}

/// An `if` with both arms.
#[tactic(auto, using(c_answers::proofs::After::after_laws))]
pub(crate) fn if_else_of<'a>(
    alloc: Global,
    line: Line,
    test: Value,
    first: Stmt<'a>,
    other: Result<Stmt<'a>, Stop>,
) -> Result<Stmt<'a>, Stop>
    ensures { (c : Context) (given : Answer (s.Stmt × Context)) → Gives (see_stmt c) other.entry given
        → Gives (see_stmt c) result (after given (λ r. Ok (s.if_else line (view_value test) (view_stmt first.entry) r.0, r.1))) }
{
    Ok(choice(alloc, line, test, first, other?)?)
}

/// A loop over this body.
#[tactic(auto, using(c_answers::proofs::After::after_laws))]
pub(crate) fn loop_of<'a>(
    alloc: Global,
    line: Line,
    annot: &'a LoopAnnot,
    turns: Turns,
    body: Result<Stmt<'a>, Stop>,
) -> Result<Stmt<'a>, Stop>
    ensures { (c : Context) (given : Answer (s.Stmt × Context)) → Gives (see_stmt c) body.entry given
        → Gives (see_stmt c) result (loop_by line (view_loop annot.now) (view_turns turns) given) }
{
    Ok(loop_over(alloc, line, annot, turns, body?)?)
}

/// A loop whose condition stands behind its body.
#[tactic(auto, using(c_answers::proofs::After::after_laws))]
pub(crate) fn loop_behind<'a>(
    alloc: Global,
    line: Line,
    annot: &'a LoopAnnot,
    turns: Result<Turns, Stop>,
    body: Stmt<'a>,
) -> Result<Stmt<'a>, Stop>
    ensures { (c : Context) (given : Answer s.Turns) → Gives view_turns turns given
        → Gives (see_stmt c) result (after given (λ t. Ok (s.loop_of line (view_loop annot.now) t (view_stmt body.entry), c))) }
{
    Ok(loop_over(alloc, line, annot, turns?, body)?)
}

/// What comes first in a `for`, in a block with the loop, that was left behind it.
#[tactic(auto, using(c_answers::proofs::After::after_laws))]
pub(crate) fn for_of<'a>(
    alloc: Global,
    line: Line,
    first: Stmt<'a>,
    again: Result<Stmt<'a>, Stop>,
) -> Result<Stmt<'a>, Stop>
    ensures { (c : Context) (given : Answer (s.Stmt × Context)) → Gives (see_stmt c) again.entry given
        → Gives (see_stmt (left c)) result (for_by line (view_stmt first.entry) given) }
{
    Ok(pair(alloc, line, first, again?)?)
}

/// A `switch` over these statements, whose block was left behind them.
#[tactic(auto, using(c_answers::proofs::After::after_laws))]
pub(crate) fn switch_of<'a>(
    line: Line,
    value: Value,
    body: Result<List<Stmt<'a>>, Stop>,
) -> Result<Stmt<'a>, Stop>
    ensures { (c : Context) (given : Answer (s.Stmts × Context)) → Gives (see_stmts c) body.entry given
        → Gives (see_stmt (left c)) result (after given (λ r. Ok (s.switch line (view_value value) r.0, left r.1))) }
{
    Ok(switch_over(line, value, body?))
}
