// Types, expressions and variables, printed. Each tree stands behind a space.

use crate::names::{
    base_name, field_name, kind_name, operator_name, prefix_name, step_name, suffix_name,
};
use c_syntax::{CType, Expr, ExprNode, Token, TokenKind, VarDecl};
use test_lines::Page;
use wp_base::Line;

/// A number: its value, its base and its suffix.
pub fn write_number(page: &mut Page, token: &Token, line: Line) {
    page.put(" ");
    if let TokenKind::Number {
        value,
        base,
        suffix,
    } = &token.kind
    {
        page.put_number(*value);
        page.put(base_name(*base));
        page.put(suffix_name(*suffix));
    }
    page.put_line(token.line);
    if token.line != line {
        page.put("!");
    }
}

pub fn write_char(page: &mut Page, value: i128, line: Line) {
    page.put(" '");
    page.put_number(value);
    page.put("'");
    page.put_line(line);
}

// The head of a type that has parts.
fn type_head(of: &CType) -> &'static str {
    match of {
        CType::Void | CType::Kind(_) | CType::Integer => "",
        CType::Struct(_) => "struct",
        CType::Enum(_) => "enum",
        CType::Named(_) => "type",
        CType::Pointer(_) => "ptr",
        CType::Array(_, _) => "array",
        CType::Const(_) => "const",
    }
}

// The name of a type that has no parts.
fn type_name(of: &CType) -> Option<&'static str> {
    match of {
        CType::Void => Some("void"),
        CType::Kind(kind) => Some(kind_name(*kind)),
        CType::Integer => Some("integer"),
        _ => None,
    }
}

#[cycle(exprs)]
pub fn write_type(page: &mut Page, of: &CType) {
    if let Some(name) = type_name(of) {
        page.put_name(name.as_bytes());
        return;
    }
    page.open(type_head(of), 1);
    match of {
        CType::Void | CType::Kind(_) | CType::Integer => {}
        CType::Struct(name) | CType::Enum(name) | CType::Named(name) => page.put_name(name.bytes()),
        CType::Pointer(to) | CType::Const(to) => write_type(page, to.get()),
        CType::Array(of, length) => {
            write_type(page, of.get());
            write_expr(page, length.get());
        }
    }
    page.close();
}

// The head of an expression that has parts.
fn expr_head(node: &ExprNode) -> &'static str {
    match node {
        ExprNode::Number(_) | ExprNode::Char(_) | ExprNode::Name(_) => "",
        ExprNode::Unary(op, _) => prefix_name(*op),
        ExprNode::Binary(op, _, _) => operator_name(*op),
        ExprNode::Cond(_, _, _) => "?",
        ExprNode::Assign(op, _, _) => match op {
            Some(op) => operator_name(*op),
            None => "=",
        },
        ExprNode::Step { up, prefix, of: _ } => step_name(*up, *prefix),
        ExprNode::Call(_, _) => "call",
        ExprNode::Index(_, _) => "index",
        ExprNode::Field {
            of: _,
            name: _,
            arrow,
        } => field_name(*arrow),
        ExprNode::Cast(_, _) => "cast",
        ExprNode::SizeOf(_) => "sizeof",
    }
}

// Whether the expression has no parts; then it is written.
fn is_leaf(page: &mut Page, node: &ExprNode, line: Line) -> bool {
    match node {
        ExprNode::Number(token) => write_number(page, token, line),
        ExprNode::Char(value) => write_char(page, *value, line),
        ExprNode::Name(name) => page.put_leaf(name.bytes(), line),
        _ => return false,
    }
    true
}

#[cycle(exprs)]
fn write_exprs(page: &mut Page, exprs: &[Expr]) {
    for expr in exprs {
        write_expr(page, expr);
    }
}

#[cycle(exprs)]
fn write_parts(page: &mut Page, node: &ExprNode) {
    match node {
        ExprNode::Number(_) | ExprNode::Char(_) | ExprNode::Name(_) => {}
        ExprNode::Unary(_, of) => write_expr(page, of.get()),
        ExprNode::Step {
            up: _,
            prefix: _,
            of,
        } => write_expr(page, of.get()),
        ExprNode::Binary(_, left, right) | ExprNode::Index(left, right) => {
            write_expr(page, left.get());
            write_expr(page, right.get());
        }
        ExprNode::Assign(op, left, right) => {
            if op.is_some() {
                page.put("=");
            }
            write_expr(page, left.get());
            write_expr(page, right.get());
        }
        ExprNode::Cond(test, yes, no) => {
            write_expr(page, test.get());
            write_expr(page, yes.get());
            write_expr(page, no.get());
        }
        ExprNode::Call(name, args) => {
            page.put_name(name.bytes());
            write_exprs(page, args.as_slice());
        }
        ExprNode::Field { of, name, arrow: _ } => {
            write_expr(page, of.get());
            page.put_name(name.bytes());
        }
        ExprNode::Cast(to, of) => {
            write_type(page, to);
            write_expr(page, of.get());
        }
        ExprNode::SizeOf(of) => write_type(page, of),
    }
}

#[cycle(exprs)]
pub fn write_expr(page: &mut Page, expr: &Expr) {
    if !is_leaf(page, &expr.node, expr.line) {
        page.open(expr_head(&expr.node), expr.line);
        write_parts(page, &expr.node);
        page.close();
    }
}

/// An expression, or `none`.
pub fn write_some(page: &mut Page, expr: &Option<Expr>) {
    match expr {
        Some(expr) => write_expr(page, expr),
        None => page.put(" none"),
    }
}

pub fn write_var(page: &mut Page, var: &VarDecl) {
    page.open("var", var.line);
    page.put_name(var.name.bytes());
    write_type(page, &var.ty);
    if let Some(init) = &var.init {
        write_expr(page, init);
    }
    page.close();
}

pub fn write_vars(page: &mut Page, vars: &[VarDecl]) {
    for var in vars {
        write_var(page, var);
    }
}
