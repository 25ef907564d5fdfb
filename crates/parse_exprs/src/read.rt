// What other crates read.
ghost use Rattle.parse_exprs.specs.Read as spec;
ghost use Rattle.c_grammar.specs.Views.{Gives};
ghost use Rattle.c_syntax.specs.View.{view_expr};

use crate::exprs::{cond, expr};
use c_grammar::{Read, TypeNames};
use c_syntax::{Expr, Token};
use std::alloc::Global;

/// An expression (C11 6.5), in which so many more forms may be open, and the tokens after it.
pub fn expr_at<'a>(
    alloc: Global,
    types: &TypeNames,
    room: u32,
    tokens: &'a [Token],
) -> Read<'a, Expr>
    ensures { Gives view_expr result (spec.expr_at types.now room tokens.now) }
{
    expr(alloc, types, room, tokens)
}

/// A conditional (C11 6.5.15), in which so many more forms may be open, and the tokens after it.
pub fn cond_at<'a>(
    alloc: Global,
    types: &TypeNames,
    room: u32,
    tokens: &'a [Token],
) -> Read<'a, Expr>
    ensures { Gives view_expr result (spec.cond_at types.now room tokens.now) }
{
    cond(alloc, types, room, tokens)
}
