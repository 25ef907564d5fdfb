// Integer constant expressions.
ghost use Rattle.std.specs.Prelude.{◌≡◌};
ghost use Rattle.c_syntax.specs.View.{view_ctype, view_expr};
ghost use Rattle.c_machine.specs.Constants as spec;
ghost use Rattle.c_machine.specs.Shapes as shapes;

use crate::literals::{char_constant, token_constant};
use crate::rules::{Constant, array_bytes, binary_of, bytes, cast_to, chosen, unary_of};
use c_kinds::{Machdep, size_kind};
use c_syntax::{BinOp, CType, Expr, ExprLeaf, ExprOne, ExprShape, ExprTwo, UnOp};
use wp_base::Kind;

fn unary(model: Machdep, op: UnOp, of: Option<Constant>) -> Option<Constant>
    ensures { result ≡ spec.unary model op of }
{
    unary_of(model, op, of?)
}

fn binary(
    model: Machdep,
    op: BinOp,
    left: Option<Constant>,
    right: Option<Constant>,
) -> Option<Constant>
    ensures { result ≡ spec.binary model op left right }
{
    Some(binary_of(model, op, left?, right?))
}

fn conditional(
    model: Machdep,
    test: Option<Constant>,
    first: Option<Constant>,
    second: Option<Constant>,
) -> Option<Constant>
    ensures { result ≡ spec.conditional model test first second }
{
    Some(chosen(model, test?, first?, second?))
}

fn cast(model: Machdep, kind: Option<Kind>, of: Option<Constant>) -> Option<Constant>
    ensures { result ≡ spec.cast model kind of }
{
    Some(cast_to(model, kind?, of?))
}

fn size_constant(model: Machdep, size: Option<i128>) -> Option<Constant>
    ensures { result ≡ spec.size_constant model size }
{
    let size = size?;
    Some(Constant {
        kind: size_kind(model),
        value: Some(size),
    })
}

// An expression in which there is no other one.
#[tactic(auto, unfolding(crate::specs::Shapes::leaf_constant))]
fn leaf_constant(model: Machdep, leaf: ExprLeaf<'_>) -> Option<Constant>
    ensures { result ≡ shapes.leaf_constant model leaf.entry }
{
    match leaf {
        ExprLeaf::Number(token) => token_constant(model, &token.kind),
        ExprLeaf::Char(value) => char_constant(model, value),
        ExprLeaf::Name(_) => None,
    }
}

#[tactic(auto, unfolding(crate::specs::Shapes::one_constant))]
fn one_constant(model: Machdep, head: ExprOne<'_>, of: Option<Constant>) -> Option<Constant>
    ensures { result ≡ shapes.one_constant model head.entry of }
{
    match head {
        ExprOne::Unary(op) => unary(model, op, of),
        ExprOne::Step { up: _, prefix: _ } => None,
        ExprOne::Field { name: _, arrow: _ } => None,
    }
}

#[tactic(auto, unfolding(crate::specs::Shapes::two_constant))]
fn two_constant(
    model: Machdep,
    head: ExprTwo,
    left: Option<Constant>,
    right: Option<Constant>,
) -> Option<Constant>
    ensures { result ≡ shapes.two_constant model head left right }
{
    match head {
        ExprTwo::Binary(op) => binary(model, op, left, right),
        ExprTwo::Assign(_) => None,
        ExprTwo::Index => None,
    }
}

// The integer kind that a type is, `const` or not.
#[tactic(auto, using(c_syntax::proofs::Equations::expr_laws))]
fn kind_of(ty: &CType) -> Option<Kind>
    ensures { result ≡ spec.kind_of (view_ctype ty.now) }
{
    match ty {
        CType::Kind(kind) => Some(*kind),
        CType::Const(of) => kind_of(of.get()),
        CType::Void => None,
        CType::Integer => None,
        CType::Struct(_) => None,
        CType::Enum(_) => None,
        CType::Named(_) => None,
        CType::Pointer(_) => None,
        CType::Array(_, _) => None,
    }
}

/// The kind of an expression, and its value where that is defined; none where it isn't an integer constant expression (C11 6.6p6). Enumerators in it stand
/// as numbers, and typedef names and enumerated types as the types that they stand for. It goes as deep as the expression.
#[tactic(auto, using(c_syntax::proofs::Equations::expr_laws, crate::proofs::Shapes::shape_laws))]
#[cycle(constants)]
pub fn constant_of(model: Machdep, expr: &Expr) -> Option<Constant>
    ensures { result ≡ spec.constant_of model (view_expr expr.now) }
{
    match expr.node.look() {
        ExprShape::Leaf(leaf) => leaf_constant(model, leaf),
        ExprShape::One(head, of) => one_constant(model, head, constant_of(model, of.get())),
        ExprShape::Two(head, left, right) => two_constant(
            model,
            head,
            constant_of(model, left.get()),
            constant_of(model, right.get()),
        ),
        ExprShape::Cond(test, left, right) => conditional(
            model,
            constant_of(model, test.get()),
            constant_of(model, left.get()),
            constant_of(model, right.get()),
        ),
        ExprShape::Call(_, _) => None,
        ExprShape::Cast(ty, of) => cast(model, kind_of(ty), constant_of(model, of.get())),
        ExprShape::SizeOf(ty) => size_constant(model, bytes_of(model, ty)),
    }
}

// How many bytes an object of the type takes (C11 6.5.3.4).
#[tactic(auto, using(c_syntax::proofs::Equations::expr_laws))]
#[cycle(constants)]
fn bytes_of(model: Machdep, ty: &CType) -> Option<i128>
    ensures { result ≡ spec.bytes_of model (view_ctype ty.now) }
{
    match ty {
        CType::Kind(kind) => Some(bytes(model, *kind)),
        CType::Pointer(_) => Some(bytes(model, Kind::Long)),
        CType::Array(of, length) => array_bytes(
            model,
            bytes_of(model, of.get()),
            constant_of(model, length.get()),
        ),
        CType::Const(of) => bytes_of(model, of.get()),
        CType::Void => None,
        CType::Integer => None,
        CType::Struct(_) => None,
        CType::Enum(_) => None,
        CType::Named(_) => None,
    }
}

/// The value of an integer constant expression (C11 6.6); none where the expression isn't one, or its value isn't defined. Enumerators in it stand as
/// numbers, and typedef names and enumerated types as the types that they stand for.
#[tactic(auto, unfolding(crate::specs::Constants::eval_const))]
pub fn eval_const(model: Machdep, expr: &Expr) -> Option<i128>
    ensures { result ≡ spec.eval_const model (view_expr expr.now) }
{
    constant_of(model, expr)?.value
}
