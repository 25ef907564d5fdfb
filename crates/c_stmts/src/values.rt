// The expressions of statements (C11 6.8).
ghost use Rattle.std.specs.Prelude.{◌≡◌};
ghost use Rattle.std.specs.Option.{option_map};
ghost use Rattle.c_answers.specs.Answers.{Gives};
ghost use Rattle.c_stmts.specs.Statements as spec;
ghost use Rattle.c_syntax.specs.View.{view_expr};
ghost use Rattle.typed_prog.specs.View.{view_value};
ghost use Rattle.typed_unit.specs.View.{view_turns};

use c_answers::refused;
use c_contexts::{case_number, condition, returned, statement, switched};
use c_syntax::Expr;
use c_variables::Context;
use std::alloc::Global;
use typed_prog::Value;
use typed_unit::Turns;
use wp_base::{Kind, Line, Rule, Stop};

/// A condition.
#[tactic(auto, unfolding(crate::specs::Statements::test_of))]
pub(crate) fn test_of(alloc: Global, context: &Context, expr: &Expr) -> Result<Value, Stop>
    ensures { Gives view_value result (spec.test_of context.now (view_expr expr.now)) }
{
    condition(
        alloc,
        context.model,
        context.sizes.as_slice(),
        &context.scope,
        context.globals.as_slice(),
        context.locals.as_slice(),
        expr,
    )
}

/// An expression as a statement.
#[tactic(auto, unfolding(crate::specs::Statements::value_of))]
pub(crate) fn value_of(alloc: Global, context: &Context, expr: &Expr) -> Result<Value, Stop>
    ensures { Gives view_value result (spec.value_of context.now (view_expr expr.now)) }
{
    statement(
        alloc,
        context.model,
        context.sizes.as_slice(),
        &context.scope,
        context.globals.as_slice(),
        context.locals.as_slice(),
        expr,
    )
}

/// The operand of a `switch`.
#[tactic(auto, unfolding(crate::specs::Statements::switched_value))]
pub(crate) fn switched_value(alloc: Global, context: &Context, expr: &Expr) -> Result<Value, Stop>
    ensures { Gives view_value result (spec.switched_value context.now (view_expr expr.now)) }
{
    switched(
        alloc,
        context.model,
        context.sizes.as_slice(),
        &context.scope,
        context.globals.as_slice(),
        context.locals.as_slice(),
        expr,
    )
}

// The condition of a `for`, which may have none.
#[tactic(auto, using(c_answers::proofs::After::after_laws))]
fn test_if(alloc: Global, context: &Context, expr: &Option<Expr>) -> Result<Option<Value>, Stop>
    ensures { Gives (option_map view_value) result (spec.test_if context.now (option_map view_expr expr.now)) }
{
    match expr {
        None => Ok(None),
        Some(expr) => Ok(Some(test_of(alloc, context, expr)?)),
    }
}

// The step of a `for`, which may have none.
#[tactic(auto, using(c_answers::proofs::After::after_laws))]
fn step_if(alloc: Global, context: &Context, expr: &Option<Expr>) -> Result<Option<Value>, Stop>
    ensures { Gives (option_map view_value) result (spec.step_if context.now (option_map view_expr expr.now)) }
{
    match expr {
        None => Ok(None),
        Some(expr) => Ok(Some(value_of(alloc, context, expr)?)),
    }
}

/// What a `while` evaluates beside its body.
#[tactic(auto, using(c_answers::proofs::After::after_laws))]
pub(crate) fn turns_before(alloc: Global, context: &Context, test: &Expr) -> Result<Turns, Stop>
    ensures { Gives view_turns result (spec.turns_before context.now (view_expr test.now)) }
{
    Ok(Turns {
        before: Some(test_of(alloc, context, test)?),
        after: None,
        step: None,
    })
}

/// What a `do` evaluates beside its body.
#[tactic(auto, using(c_answers::proofs::After::after_laws))]
pub(crate) fn turns_behind(alloc: Global, context: &Context, test: &Expr) -> Result<Turns, Stop>
    ensures { Gives view_turns result (spec.turns_behind context.now (view_expr test.now)) }
{
    Ok(Turns {
        before: None,
        after: Some(test_of(alloc, context, test)?),
        step: None,
    })
}

/// What a `for` evaluates beside its body.
#[tactic(auto, using(c_answers::proofs::After::after_laws))]
pub(crate) fn turns_of(
    alloc: Global,
    context: &Context,
    test: &Option<Expr>,
    next: &Option<Expr>,
) -> Result<Turns, Stop>
    ensures { Gives view_turns result (spec.turns_of context.now (option_map view_expr test.now) (option_map view_expr next.now)) }
{
    let before = test_if(alloc, context, test)?;
    let step = step_if(alloc, context, next)?;
    Ok(Turns {
        before,
        after: None,
        step,
    })
}

/// What a `return` on this line gives back: a value exactly where the function has results.
#[tactic(auto, using(c_answers::proofs::After::after_laws), unfolding(crate::specs::Statements::return_value))]
pub(crate) fn return_value(
    alloc: Global,
    context: &Context,
    line: Line,
    expr: &Option<Expr>,
) -> Result<Option<Value>, Stop>
    ensures { Gives (option_map view_value) result (spec.return_value context.now line (option_map view_expr expr.now)) }
{
    let is_void = context.result.is_void();
    match expr {
        None => {
            if is_void {
                Ok(None)
            } else {
                Err(refused(Rule::Typing, line))
            }
        }
        Some(expr) => {
            if is_void {
                return Err(refused(Rule::Typing, line));
            }
            let value = returned(
                alloc,
                context.model,
                context.sizes.as_slice(),
                &context.scope,
                context.globals.as_slice(),
                context.locals.as_slice(),
                line,
                &context.result,
                expr,
            )?;
            Ok(Some(value))
        }
    }
}

/// The number of a label on this line, in a `switch` over this kind.
pub(crate) fn number_for(
    alloc: Global,
    context: &Context,
    kind: Option<Kind>,
    line: Line,
    expr: &Expr,
) -> Result<i128, Stop>
    ensures { Gives (λ z. z) result (spec.number_for context.now kind line (view_expr expr.now)) }
{
    match kind {
        None => Err(refused(Rule::Typing, line)),
        Some(kind) => {
            let sizes = context.sizes.as_slice();
            case_number(alloc, context.model, sizes, &context.scope, kind, expr)
        }
    }
}
