// Expressions (C11 6.5).
ghost use Rattle.std.specs.Prelude.{◌≡◌, length};
ghost use Rattle.c_answers.specs.Answers.{Gives, after, wrong};
ghost use Rattle.c_exprs.specs.Frames.{args_of};
ghost use Rattle.c_exprs.specs.Typing as spec;
ghost use Rattle.c_operands.specs.Operands.{view_operand};
ghost use Rattle.c_syntax.specs.Expr as e;
ghost use Rattle.c_syntax.specs.View.{view_expr};
ghost use Rattle.typed_prog.specs.View.{view_values};

use crate::frames::{Frame, done, settled};
use crate::leaves::{integer, literal, name, size_of};
use crate::steps::{argument, call_made, cast_of, conditional_of, unary_of};
use c_answers::refused;
use c_kinds::Machdep;
use c_operands::Operand;
use c_scopes::{Scope, Symbol};
use c_syntax::{Expr, ExprNode};
use std::alloc::Global;
use typed_prog::{CoreType, Value};
use wp_base::{Kind, Line, List, Rule, Stop, Str};

/// The type of an expression, or the first fault in it. `sizes` has the cells of each struct of the file.
// Goes down first operands, and the values of assignments, by a loop, since these may be as many as there are tokens.
#[cycle(exprs)]
#[tactic(auto, using(c_syntax::proofs::Equations::expr_laws, crate::proofs::Framing::turn_laws))]
pub fn typed_expr(
    alloc: Global,
    model: Machdep,
    sizes: &[u32],
    scope: &Scope,
    expr: &Expr,
) -> Result<Operand, Stop>
    ensures { Gives view_operand result (spec.typed (spec.around model sizes.now scope.now) (view_expr expr.now)) }
{
    let mut frames = Vec::new(alloc);
    let mut rest = expr;
    loop {
        match &rest.node {
            ExprNode::Binary(op, left, right) => {
                let right = settled(typed_expr(alloc, model, sizes, scope, right.get()))?;
                frames.push(Frame::Binary(*op, rest.line, right))?;
                rest = left.get();
            }
            ExprNode::Index(of, at) => {
                let at = settled(typed_expr(alloc, model, sizes, scope, at.get()))?;
                frames.push(Frame::Index(rest.line, at))?;
                rest = of.get();
            }
            ExprNode::Assign(op, place, value) => {
                let place = typed_expr(alloc, model, sizes, scope, place.get())?;
                frames.push(Frame::Assign(*op, rest.line, place))?;
                rest = value.get();
            }
            ExprNode::Field { of, name, arrow } => {
                frames.push(Frame::Field(name, *arrow, rest.line))?;
                rest = of.get();
            }
            ExprNode::Step { up, prefix, of } => {
                frames.push(Frame::Step(*up, *prefix, rest.line))?;
                rest = of.get();
            }
            ExprNode::Number(token) => {
                let first = literal(alloc, model, rest.line, token);
                return done(alloc, model, sizes, scope, frames, first);
            }
            ExprNode::Char(value) => {
                let first = Ok(integer(alloc, Kind::Int, *value, rest.line));
                return done(alloc, model, sizes, scope, frames, first);
            }
            ExprNode::Name(of) => {
                let first = name(alloc, scope, rest.line, of);
                return done(alloc, model, sizes, scope, frames, first);
            }
            ExprNode::Unary(op, of) => {
                let operand = typed_expr(alloc, model, sizes, scope, of.get());
                let first = unary_of(alloc, model, rest.line, *op, operand);
                return done(alloc, model, sizes, scope, frames, first);
            }
            ExprNode::Cond(test, first, second) => {
                let test = typed_expr(alloc, model, sizes, scope, test.get());
                let first = typed_expr(alloc, model, sizes, scope, first.get());
                let second = typed_expr(alloc, model, sizes, scope, second.get());
                let first = conditional_of(alloc, model, rest.line, test, first, second);
                return done(alloc, model, sizes, scope, frames, first);
            }
            ExprNode::Call(of, args) => {
                let first = call(alloc, model, sizes, scope, rest.line, of, args.as_slice());
                return done(alloc, model, sizes, scope, frames, first);
            }
            ExprNode::Cast(ty, of) => {
                let operand = typed_expr(alloc, model, sizes, scope, of.get());
                let first = cast_of(alloc, model, scope, rest.line, ty, operand);
                return done(alloc, model, sizes, scope, frames, first);
            }
            ExprNode::SizeOf(ty) => {
                let first = size_of(alloc, model, scope, rest.line, ty);
                return done(alloc, model, sizes, scope, frames, first);
            }
        }
    }
}

// The arguments for parameters of these types.
#[cycle(exprs)]
#[tactic(auto, using(crate::proofs::Arguments::argument_laws))]
fn typed_for(
    alloc: Global,
    model: Machdep,
    sizes: &[u32],
    scope: &Scope,
    params: &[CoreType],
    args: &[Expr],
) -> Result<List<Value>, Stop>
    requires { length params.now ≡ length args.now }
    ensures { Gives view_values result (spec.typed_for (spec.around model sizes.now scope.now) params.now (args_of args.now)) }
{
    let mut values = List::new(alloc);
    for i in 0..args.len() {
        let arg = &args[i];
        let ty = &params[i];
        let operand = typed_expr(alloc, model, sizes, scope, arg);
        let value = argument(alloc, model, arg.line, ty, operand)?;
        values.push(value)?;
    }
    Ok(values)
}

// The arguments of what can't be called so, for the faults in them.
#[cycle(exprs)]
#[tactic(auto, using(crate::proofs::Arguments::alone_laws))]
fn not_called(
    alloc: Global,
    model: Machdep,
    sizes: &[u32],
    scope: &Scope,
    line: Line,
    args: &[Expr],
) -> Result<Operand, Stop>
    ensures { Gives view_operand result (after (spec.typed_all (spec.around model sizes.now scope.now) (args_of args.now)) (λ _. wrong line)) }
{
    for arg in args {
        typed_expr(alloc, model, sizes, scope, arg)?;
    }
    Err(refused(Rule::Typing, line))
}

#[cycle(exprs)]
#[tactic(auto, using(c_answers::proofs::After::after_laws, crate::proofs::Arguments::count_is))]
fn call(
    alloc: Global,
    model: Machdep,
    sizes: &[u32],
    scope: &Scope,
    line: Line,
    name: &Str,
    args: &[Expr],
) -> Result<Operand, Stop>
    ensures { Gives view_operand result (spec.typed (spec.around model sizes.now scope.now) (e.call line name.now (args_of args.now))) }
{
    match scope.find(name) {
        None => Err(refused(Rule::Name, line)),
        Some(Symbol::Function(number)) => match scope.file.functions.get(number as usize) {
            None => not_called(alloc, model, sizes, scope, line, args),
            Some(function) => {
                if function.params.len() != args.len() {
                    return not_called(alloc, model, sizes, scope, line, args);
                }
                let params = function.params.as_slice();
                let values = typed_for(alloc, model, sizes, scope, params, args)?;
                Ok(call_made(alloc, line, number, &function.result, values)?)
            }
        },
        Some(Symbol::Object(_)) => not_called(alloc, model, sizes, scope, line, args),
        Some(Symbol::Enumerator(_)) => not_called(alloc, model, sizes, scope, line, args),
        Some(Symbol::Typedef(_)) => not_called(alloc, model, sizes, scope, line, args),
    }
}
