// Integer constant expressions with a value (C11 6.6p3, p6).
ghost use Rattle.std.specs.Prelude.{◌≡◌};
ghost use Rattle.c_answers.specs.Answers.{Gives};
ghost use Rattle.c_contexts.specs.Contexts as spec;
ghost use Rattle.c_exprs.specs.Typing.{around};
ghost use Rattle.c_operands.specs.Operands.{view_operand};
ghost use Rattle.c_syntax.specs.View.{view_expr};

use c_answers::refused;
use c_exprs::typed_expr;
use c_kinds::{Machdep, convert};
use c_operands::{Operand, number_of};
use c_scopes::Scope;
use c_syntax::Expr;
use std::alloc::Global;
use wp_base::{Kind, Line, Rule, Stop};

fn number_in(line: Line, operand: &Operand) -> Result<i128, Stop>
    ensures { Gives (λ z. z) result (spec.number_in line (view_operand operand.now)) }
{
    match operand {
        Operand::Object(_, _) => Err(refused(Rule::Typing, line)),
        Operand::Value(value, is_constant) => {
            if !*is_constant {
                return Err(refused(Rule::Typing, line));
            }
            match number_of(value) {
                Some(number) => Ok(number),
                None => Err(refused(Rule::Typing, line)),
            }
        }
    }
}

/// The number of an integer constant expression that has a value: of the length of an array, or of an enumerator.
#[tactic(auto, using(c_answers::proofs::After::after_laws, c_syntax::proofs::Lines::line_is), unfolding(crate::specs::Contexts::constant_number))]
pub fn constant_number(
    alloc: Global,
    model: Machdep,
    sizes: &[u32],
    scope: &Scope,
    expr: &Expr,
) -> Result<i128, Stop>
    ensures { Gives (λ z. z) result (spec.constant_number (around model sizes.now scope.now) (view_expr expr.now)) }
{
    let operand = typed_expr(alloc, model, sizes, scope, expr)?;
    number_in(expr.line, &operand)
}

/// The number of a `case`, as one of the promoted kind of the operand of its `switch`.
#[tactic(auto, using(c_answers::proofs::After::after_laws), unfolding(crate::specs::Contexts::case_number))]
pub fn case_number(
    alloc: Global,
    model: Machdep,
    sizes: &[u32],
    scope: &Scope,
    kind: Kind,
    expr: &Expr,
) -> Result<i128, Stop>
    ensures { Gives (λ z. z) result (spec.case_number (around model sizes.now scope.now) kind (view_expr expr.now)) }
{
    let number = constant_number(alloc, model, sizes, scope, expr)?;
    Ok(convert(model, kind, number))
}
