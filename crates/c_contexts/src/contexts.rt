// Full expressions in statements and declarations (C11 6.7.9, 6.8).
ghost use Rattle.std.specs.Prelude.{◌≡◌};
ghost use Rattle.c_answers.specs.Answers.{Gives};
ghost use Rattle.c_contexts.specs.Contexts as spec;
ghost use Rattle.c_exprs.specs.Typing.{around};
ghost use Rattle.c_operands.specs.Operands.{view_rvalue};
ghost use Rattle.c_sequence.specs.Sequence.{plain_of};
ghost use Rattle.c_syntax.specs.View.{view_expr};
ghost use Rattle.typed_prog.specs.View.{view_value};

use c_answers::refused;
use c_exprs::typed_expr;
use c_kinds::{Machdep, promote};
use c_operands::{Rvalue, assignable, converted, valued};
use c_rules::scalar;
use c_scopes::Scope;
use c_sequence::is_sequenced;
use c_syntax::Expr;
use std::alloc::Global;
use typed_prog::{CoreType, Value};
use wp_base::{Line, Rule, Stop};

#[tactic(auto, unfolding(crate::specs::Contexts::in_sequence))]
fn in_sequence(globals: &[bool], locals: &[bool], line: Line, value: Value) -> Result<Value, Stop>
    ensures { Gives view_value result (spec.in_sequence (plain_of globals.now locals.now) line (view_value value)) }
{
    if is_sequenced(globals, locals, &value) {
        Ok(value)
    } else {
        Err(refused(Rule::Unsequenced, line))
    }
}

// The value of an expression, for a context on this line.
#[tactic(auto, using(c_answers::proofs::After::after_laws))]
fn value_for(
    alloc: Global,
    model: Machdep,
    sizes: &[u32],
    scope: &Scope,
    line: Line,
    expr: &Expr,
) -> Result<Rvalue, Stop>
    ensures { Gives view_rvalue result (spec.value_for (around model sizes.now scope.now) line (view_expr expr.now)) }
{
    let operand = typed_expr(alloc, model, sizes, scope, expr)?;
    valued(alloc, line, operand)
}

#[tactic(auto, using(c_answers::proofs::After::after_laws))]
fn condition_of(globals: &[bool], locals: &[bool], line: Line, of: Rvalue) -> Result<Value, Stop>
    ensures { Gives view_value result (spec.condition_of (plain_of globals.now locals.now) line (view_rvalue of)) }
{
    let of = scalar(line, of)?;
    in_sequence(globals, locals, line, of.value)
}

/// A condition of `if`, `while`, `do` or `for`, which is a scalar. `globals` and `locals` tell which variables are plain.
#[tactic(auto, using(c_answers::proofs::After::after_laws, c_syntax::proofs::Lines::line_is), unfolding(crate::specs::Contexts::condition))]
pub fn condition(
    alloc: Global,
    model: Machdep,
    sizes: &[u32],
    scope: &Scope,
    globals: &[bool],
    locals: &[bool],
    expr: &Expr,
) -> Result<Value, Stop>
    ensures { Gives view_value result (spec.condition (around model sizes.now scope.now) (plain_of globals.now locals.now) (view_expr expr.now)) }
{
    let of = value_for(alloc, model, sizes, scope, expr.line, expr)?;
    condition_of(globals, locals, expr.line, of)
}

/// An expression as a statement, or as the step of a `for`.
#[tactic(auto, using(c_answers::proofs::After::after_laws, c_syntax::proofs::Lines::line_is), unfolding(crate::specs::Contexts::statement))]
pub fn statement(
    alloc: Global,
    model: Machdep,
    sizes: &[u32],
    scope: &Scope,
    globals: &[bool],
    locals: &[bool],
    expr: &Expr,
) -> Result<Value, Stop>
    ensures { Gives view_value result (spec.statement (around model sizes.now scope.now) (plain_of globals.now locals.now) (view_expr expr.now)) }
{
    let of = value_for(alloc, model, sizes, scope, expr.line, expr)?;
    in_sequence(globals, locals, expr.line, of.value)
}

#[tactic(auto, using(c_answers::proofs::After::after_laws))]
fn assigned_of(
    alloc: Global,
    model: Machdep,
    globals: &[bool],
    locals: &[bool],
    line: Line,
    at: Line,
    ty: &CoreType,
    of: Rvalue,
) -> Result<Value, Stop>
    ensures { Gives view_value result (spec.assigned_of model (plain_of globals.now locals.now) line at ty.now (view_rvalue of)) }
{
    let value = assignable(alloc, model, at, ty, of.value)?;
    in_sequence(globals, locals, line, value)
}

/// An initialiser of an object of this type.
#[tactic(auto, using(c_answers::proofs::After::after_laws, c_syntax::proofs::Lines::line_is), unfolding(crate::specs::Contexts::initialiser))]
pub fn initialiser(
    alloc: Global,
    model: Machdep,
    sizes: &[u32],
    scope: &Scope,
    globals: &[bool],
    locals: &[bool],
    ty: &CoreType,
    expr: &Expr,
) -> Result<Value, Stop>
    ensures { Gives view_value result (spec.initialiser (around model sizes.now scope.now) (plain_of globals.now locals.now) ty.now (view_expr expr.now)) }
{
    let of = value_for(alloc, model, sizes, scope, expr.line, expr)?;
    assigned_of(alloc, model, globals, locals, expr.line, expr.line, ty, of)
}

/// A returned value, for a result of this type; the `return` stands on the line `at`.
#[tactic(auto, using(c_answers::proofs::After::after_laws, c_syntax::proofs::Lines::line_is), unfolding(crate::specs::Contexts::returned))]
pub fn returned(
    alloc: Global,
    model: Machdep,
    sizes: &[u32],
    scope: &Scope,
    globals: &[bool],
    locals: &[bool],
    at: Line,
    ty: &CoreType,
    expr: &Expr,
) -> Result<Value, Stop>
    ensures { Gives view_value result (spec.returned (around model sizes.now scope.now) (plain_of globals.now locals.now) at ty.now (view_expr expr.now)) }
{
    let of = value_for(alloc, model, sizes, scope, at, expr)?;
    assigned_of(alloc, model, globals, locals, expr.line, at, ty, of)
}

fn switched_of(
    alloc: Global,
    model: Machdep,
    globals: &[bool],
    locals: &[bool],
    line: Line,
    of: Rvalue,
) -> Result<Value, Stop>
    ensures { Gives view_value result (spec.switched_of model (plain_of globals.now locals.now) line (view_rvalue of)) }
{
    let Some(kind) = of.value.ty.kind() else {
        return Err(refused(Rule::Typing, line));
    };
    let value = converted(alloc, model, promote(kind), of.value)?;
    in_sequence(globals, locals, line, value)
}

/// The operand of a `switch`: an integer, promoted.
#[tactic(auto, using(c_answers::proofs::After::after_laws, c_syntax::proofs::Lines::line_is), unfolding(crate::specs::Contexts::switched))]
pub fn switched(
    alloc: Global,
    model: Machdep,
    sizes: &[u32],
    scope: &Scope,
    globals: &[bool],
    locals: &[bool],
    expr: &Expr,
) -> Result<Value, Stop>
    ensures { Gives view_value result (spec.switched (around model sizes.now scope.now) (plain_of globals.now locals.now) (view_expr expr.now)) }
{
    let of = value_for(alloc, model, sizes, scope, expr.line, expr)?;
    switched_of(alloc, model, globals, locals, expr.line, of)
}
