// Trees of expressions from their parts.
ghost use Rattle.std.specs.Prelude.{◌≡◌, false, map, IfOk};
ghost use Rattle.parse_exprs.specs.Read as spec;
ghost use Rattle.parse_exprs.specs.Views.{assign_all};
ghost use Rattle.c_syntax.specs.Expr as e;
ghost use Rattle.c_syntax.specs.View.{view_ctype, view_expr};

use crate::operators::Prefix;
use c_syntax::{BinOp, CType, Expr, ExprNode};
use std::alloc::Global;
use wp_base::{Boxed, Line, List, NoMemory, Str, box_both, box_three};

// A place that is assigned to, with the operator of the assignment and its line.
#[derive(Drop)]
pub(crate) struct Place {
    pub(crate) to: Expr,
    pub(crate) op: Option<BinOp>,
    pub(crate) line: Line,
}

#[tactic(auto, using(c_syntax::proofs::Equations::expr_laws))]
pub(crate) fn with_prefix(
    alloc: Global,
    prefix: Prefix,
    line: Line,
    operand: Expr,
) -> Result<Expr, NoMemory>
    ensures { IfOk result (λ x. view_expr x ≡ spec.prefixed_by prefix line (view_expr operand)) }
{
    let operand = Boxed::new(alloc, operand)?;
    match prefix {
        Prefix::Operator(op) => Ok(Expr {
            node: ExprNode::Unary(op, operand),
            line,
        }),
        Prefix::Step(up) => Ok(Expr {
            node: ExprNode::Step {
                up,
                prefix: true,
                of: operand,
            },
            line,
        }),
    }
}

#[tactic(auto, using(c_syntax::proofs::Equations::expr_laws))]
pub(crate) fn binary(
    alloc: Global,
    op: BinOp,
    line: Line,
    left: Expr,
    right: Expr,
) -> Result<Expr, NoMemory>
    ensures { IfOk result (λ x. view_expr x ≡ e.binary line op (view_expr left) (view_expr right)) }
{
    let (left, right) = box_both(alloc, left, right)?;
    Ok(Expr {
        node: ExprNode::Binary(op, left, right),
        line,
    })
}

#[tactic(auto, using(c_syntax::proofs::Equations::expr_laws))]
pub(crate) fn conditional(
    alloc: Global,
    line: Line,
    test: Expr,
    then_arm: Expr,
    else_arm: Expr,
) -> Result<Expr, NoMemory>
    ensures { IfOk result (λ x. view_expr x ≡ e.cond line (view_expr test) (view_expr then_arm) (view_expr else_arm)) }
{
    let (test, then_arm, else_arm) = box_three(alloc, test, then_arm, else_arm)?;
    Ok(Expr {
        node: ExprNode::Cond(test, then_arm, else_arm),
        line,
    })
}

#[tactic(auto, using(c_syntax::proofs::Equations::expr_laws))]
pub(crate) fn index(alloc: Global, line: Line, base: Expr, at: Expr) -> Result<Expr, NoMemory>
    ensures { IfOk result (λ x. view_expr x ≡ e.index line (view_expr base) (view_expr at)) }
{
    let (base, at) = box_both(alloc, base, at)?;
    Ok(Expr {
        node: ExprNode::Index(base, at),
        line,
    })
}

#[tactic(auto, using(c_syntax::proofs::Equations::expr_laws))]
pub(crate) fn field(
    alloc: Global,
    line: Line,
    base: Expr,
    name: Str,
    arrow: bool,
) -> Result<Expr, NoMemory>
    ensures { IfOk result (λ x. view_expr x ≡ e.field line (view_expr base) name arrow) }
{
    let of = Boxed::new(alloc, base)?;
    Ok(Expr {
        node: ExprNode::Field { of, name, arrow },
        line,
    })
}

#[tactic(auto, using(c_syntax::proofs::Equations::expr_laws))]
pub(crate) fn step_behind(
    alloc: Global,
    line: Line,
    up: bool,
    operand: Expr,
) -> Result<Expr, NoMemory>
    ensures { IfOk result (λ x. view_expr x ≡ e.step line up false (view_expr operand)) }
{
    let of = Boxed::new(alloc, operand)?;
    Ok(Expr {
        node: ExprNode::Step {
            up,
            prefix: false,
            of,
        },
        line,
    })
}

#[tactic(auto, using(c_syntax::proofs::Equations::expr_laws))]
pub(crate) fn cast_to(alloc: Global, line: Line, to: CType, operand: Expr) -> Result<Expr, NoMemory>
    ensures { IfOk result (λ x. view_expr x ≡ e.cast line (view_ctype to) (view_expr operand)) }
{
    let operand = Boxed::new(alloc, operand)?;
    Ok(Expr {
        node: ExprNode::Cast(to, operand),
        line,
    })
}

#[tactic(auto, using(c_syntax::proofs::Equations::expr_laws))]
pub(crate) fn call(name: Str, line: Line, args: List<Expr>) -> Expr
    ensures { view_expr result ≡ e.call line name (e.exprs_of (map view_expr args)) }
{
    Expr {
        node: ExprNode::Call(name, args),
        line,
    }
}

#[tactic(auto, using(c_syntax::proofs::Equations::expr_laws))]
fn assign(alloc: Global, place: Place, value: Expr) -> Result<Expr, NoMemory>
    ensures { IfOk result (λ x. view_expr x ≡ e.assign place.line place.op (view_expr place.to) (view_expr value)) }
{
    let (to, value) = box_both(alloc, place.to, value)?;
    Ok(Expr {
        node: ExprNode::Assign(place.op, to, value),
        line: place.line,
    })
}

// The value, assigned to each of these places in turn, the last one first.
#[tactic(auto, using(crate::proofs::Reading::assign_last), unfolding(crate::specs::Views::assign_all))]
pub(crate) fn assigned(alloc: Global, mut places: Vec<Place>, value: Expr) -> Result<Expr, NoMemory>
    ensures { IfOk result (λ x. view_expr x ≡ assign_all places.items (view_expr value)) }
{
    let mut value = value;
    while let Some(place) = places.pop() {
        value = assign(alloc, place, value)?;
    }
    Ok(value)
}
