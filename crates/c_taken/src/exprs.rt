// The names behind `&` in expressions and types (C11 6.5, 6.7.6).
ghost use Rattle.std.specs.Prelude.{◌≡◌, ◌∷◌, ◌++◌, IfOk, OnOk, map, option_map};
ghost use Rattle.std.specs.Option.{option_copied};
ghost use Rattle.c_syntax.specs.View.{view_ctype, view_expr, view_var};
ghost use Rattle.c_taken.specs.Addressed as spec;
ghost use Rattle.c_taken.specs.Pieces.{exprs_in, lengths, own, parts, pointed};

use crate::gather::{put, put_each, put_name, put_names, put_three, put_two};
use c_syntax::{CType, Expr, ExprNode, ExprOne, ExprShape, TypeShape, UnOp, VarDecl};
use std::alloc::Global;
use wp_base::{List, NoMemory, Str};

fn is_address(op: UnOp) -> bool
    ensures { result ≡ spec.is_address op }
{
    match op {
        UnOp::AddressOf => true,
        UnOp::Deref => false,
        UnOp::Plus => false,
        UnOp::Minus => false,
        UnOp::BitNot => false,
        UnOp::Not => false,
    }
}

/// The name behind an operator, where that is `&`.
pub(crate) fn behind<'a>(op: UnOp, name: Option<&'a Str>) -> Option<&'a Str>
    ensures { option_copied result ≡ spec.behind op (option_copied name.entry) }
{
    if is_address(op) { name } else { None }
}

// The name that an expression is, if it is one.
#[tactic(auto, using(c_syntax::proofs::Equations::expr_laws))]
fn name_of(expr: &Expr) -> Option<&Str>
    ensures { option_copied result ≡ spec.name_of (view_expr expr.now) }
{
    match &expr.node {
        ExprNode::Name(name) => Some(name),
        ExprNode::Number(_) => None,
        ExprNode::Char(_) => None,
        ExprNode::Unary(_, _) => None,
        ExprNode::Binary(_, _, _) => None,
        ExprNode::Cond(_, _, _) => None,
        ExprNode::Assign(_, _, _) => None,
        ExprNode::Step {
            up: _,
            prefix: _,
            of: _,
        } => None,
        ExprNode::Call(_, _) => None,
        ExprNode::Index(_, _) => None,
        ExprNode::Field {
            of: _,
            name: _,
            arrow: _,
        } => None,
        ExprNode::Cast(_, _) => None,
        ExprNode::SizeOf(_) => None,
    }
}

// The name whose address an expression is, if it is that of a name.
#[tactic(auto, using(crate::proofs::Shapes::own_laws))]
fn own_name(expr: &Expr) -> Option<&Str>
    ensures { option_copied result ≡ own (view_expr expr.now) }
{
    match expr.node.look() {
        ExprShape::One(ExprOne::Unary(op), of) => behind(op, name_of(of.get())),
        ExprShape::One(ExprOne::Step { up: _, prefix: _ }, _) => None,
        ExprShape::One(ExprOne::Field { name: _, arrow: _ }, _) => None,
        ExprShape::Leaf(_) => None,
        ExprShape::Two(_, _, _) => None,
        ExprShape::Cond(_, _, _) => None,
        ExprShape::Call(_, _) => None,
        ExprShape::Cast(_, _) => None,
        ExprShape::SizeOf(_) => None,
    }
}

// Puts the lengths of arrays in a type behind what is still to be looked at.
#[tactic(auto, using(crate::proofs::Shapes::length_laws))]
fn put_lengths<'a>(left: &mut Vec<&'a Expr>, ty: &'a CType) -> Result<(), NoMemory>
    ensures { OnOk result (exprs_in left.new.items ≡ exprs_in left.old.items ++ lengths (view_ctype ty.now)) }
{
    let mut inner = ty;
    loop {
        match inner.look() {
            TypeShape::Leaf(_) => return Ok(()),
            TypeShape::Pointer(to) => inner = to.get(),
            TypeShape::Array(of, length) => {
                put(left, length.get())?;
                inner = of.get();
            }
            TypeShape::Const(of) => inner = of.get(),
        }
    }
}

#[tactic(auto, using(crate::proofs::Shapes::cast_turn))]
fn put_cast<'a>(left: &mut Vec<&'a Expr>, ty: &'a CType, of: &'a Expr) -> Result<(), NoMemory>
    ensures { OnOk result (exprs_in left.new.items ≡ exprs_in left.old.items ++ view_expr of.now ∷ lengths (view_ctype ty.now)) }
{
    put(left, of)?;
    put_lengths(left, ty)
}

// Puts what an expression holds behind what is still to be looked at.
#[tactic(auto, using(crate::proofs::Shapes::part_laws))]
fn put_parts<'a>(left: &mut Vec<&'a Expr>, expr: &'a Expr) -> Result<(), NoMemory>
    ensures { OnOk result (exprs_in left.new.items ≡ exprs_in left.old.items ++ parts (view_expr expr.now)) }
{
    match expr.node.look() {
        ExprShape::Leaf(_) => Ok(()),
        ExprShape::One(_, of) => put(left, of.get()),
        ExprShape::Two(_, first, second) => put_two(left, first.get(), second.get()),
        ExprShape::Cond(test, first, second) => put_three(
            left,
            test.get(),
            first.get(),
            second.get(),
        ),
        ExprShape::Call(_, args) => put_each(left, args),
        ExprShape::Cast(ty, of) => put_cast(left, ty, of.get()),
        ExprShape::SizeOf(ty) => put_lengths(left, ty),
    }
}

// The names of all these expressions.
#[tactic(auto, using(crate::proofs::Gathering::expr_turns))]
fn names_in<'a>(alloc: Global, mut left: Vec<&'a Expr>) -> Result<Vec<&'a Str>, NoMemory>
    ensures { IfOk result (λ names. pointed names.items ≡ spec.last_first spec.addressed (exprs_in left.entry.items)) }
{
    let mut names = Vec::new(alloc);
    while let Some(expr) = left.pop() {
        put_name(&mut names, own_name(expr))?;
        put_parts(&mut left, expr)?;
    }
    Ok(names)
}

/// The names behind `&` in an expression.
pub(crate) fn names_in_expr(alloc: Global, expr: &Expr) -> Result<Vec<&Str>, NoMemory>
    ensures { IfOk result (λ names. pointed names.items ≡ spec.addressed (view_expr expr.now)) }
{
    let mut left = Vec::new(alloc);
    put(&mut left, expr)?;
    names_in(alloc, left)
}

/// The same, where the expression may be left out.
pub(crate) fn names_in_option(alloc: Global, expr: &Option<Expr>) -> Result<Vec<&Str>, NoMemory>
    ensures { IfOk result (λ names. pointed names.items ≡ spec.option_addressed (option_map view_expr expr.now)) }
{
    match expr {
        None => Ok(Vec::new(alloc)),
        Some(expr) => names_in_expr(alloc, expr),
    }
}

/// The names behind `&` in the lengths of arrays of a type.
#[tactic(auto, using(crate::proofs::Gathering::type_is))]
pub(crate) fn names_in_type(alloc: Global, ty: &CType) -> Result<Vec<&Str>, NoMemory>
    ensures { IfOk result (λ names. pointed names.items ≡ spec.type_addressed (view_ctype ty.now)) }
{
    let mut left = Vec::new(alloc);
    put_lengths(&mut left, ty)?;
    names_in(alloc, left)
}

/// The names behind `&` in the type and the initialiser of a declared name.
pub(crate) fn names_in_var(alloc: Global, var: &VarDecl) -> Result<Vec<&Str>, NoMemory>
    ensures { IfOk result (λ names. pointed names.items ≡ spec.var_addressed (view_var var.now)) }
{
    let mut names = names_in_type(alloc, &var.ty)?;
    put_names(&mut names, names_in_option(alloc, &var.init)?)?;
    Ok(names)
}

/// The same of all these.
pub(crate) fn names_in_vars(alloc: Global, vars: &List<VarDecl>) -> Result<Vec<&Str>, NoMemory>
    ensures { IfOk result (λ names. pointed names.items ≡ spec.vars_addressed (map view_var vars.now)) }
{
    let mut names = Vec::new(alloc);
    for var in vars.as_slice() {
        put_names(&mut names, names_in_var(alloc, var)?)?;
    }
    Ok(names)
}
