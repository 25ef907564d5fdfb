// Parts of statements, and statements that have none in them.
ghost use Rattle.c_grammar.specs.Views.{Gives};
ghost use Rattle.c_syntax.specs.View.{view_expr, view_loop, view_stmt};
ghost use Rattle.std.specs.Option.{option_map};
ghost use Rattle.parse_leaf_stmts.specs.Read as spec;
ghost use Rattle.parse_leaf_stmts.specs.Views.{view_head};

use crate::forms::{Form, form_of};
use acsl_parser::{assert_at, loop_at};
use c_grammar::{Fault, Read, TypeNames, annot_close_at, expect, first_line, punct_at, word_at};
use c_syntax::{Expr, LoopAnnot, Punct, Stmt, StmtNode, Token, Word};
use parse_decls::variables_at;
use parse_exprs::{cond_at, expr_at};
use parse_types::starts_type;
use std::alloc::Global;
use wp_base::Line;

/// How many tokens the file has, and what is around a statement: whether a loop is, and whether a
/// loop or a `switch` is.
#[derive(Clone, Copy)]
pub struct Around {
    pub end: usize,
    pub loops: bool,
    pub breaks: bool,
}

// An expression and this punctuator.
#[tactic(auto, unfolding(crate::specs::Read::ended_at))]
fn ended_at<'a>(
    alloc: Global,
    types: &TypeNames,
    room: u32,
    close: Punct,
    tokens: &'a [Token],
) -> Read<'a, Expr>
    ensures { Gives view_expr result (spec.ended_at types.now room close tokens.now) }
{
    let (value, rest) = expr_at(alloc, types, room, tokens)?;
    let (_, rest) = expect(close, rest)?;
    Ok((value, rest))
}

/// An expression in parentheses.
#[tactic(auto, unfolding(crate::specs::Read::test_at))]
pub fn test_at<'a>(
    alloc: Global,
    types: &TypeNames,
    room: u32,
    tokens: &'a [Token],
) -> Read<'a, Expr>
    ensures { Gives view_expr result (spec.test_at types.now room tokens.now) }
{
    let (_, rest) = expect(Punct::OpenParen, tokens)?;
    ended_at(alloc, types, room, Punct::CloseParen, rest)
}

/// An expression, if one comes, and this punctuator.
#[tactic(auto, unfolding(crate::specs::Read::optional_at))]
pub fn optional_at<'a>(
    alloc: Global,
    types: &TypeNames,
    room: u32,
    close: Punct,
    tokens: &'a [Token],
) -> Read<'a, Option<Expr>>
    ensures { Gives (option_map view_expr) result (spec.optional_at types.now room close tokens.now) }
{
    if let Some((_, rest)) = punct_at(close, tokens) {
        return Ok((None, rest));
    }
    let (value, rest) = ended_at(alloc, types, room, close, tokens)?;
    Ok((Some(value), rest))
}

/// A declaration of variables.
#[tactic(auto, using(c_syntax::proofs::Equations::stmt_laws), unfolding(crate::specs::Read::locals_at))]
pub fn locals_at<'a>(
    alloc: Global,
    types: &TypeNames,
    room: u32,
    tokens: &'a [Token],
) -> Read<'a, Stmt>
    ensures { Gives view_stmt result (spec.locals_at types.now room tokens.now) }
{
    let line = first_line(tokens);
    let (vars, rest) = variables_at(alloc, types, room, tokens)?;
    let node = StmtNode::Locals(vars);
    Ok((Stmt { node, line }, rest))
}

// An expression and a semicolon.
#[tactic(auto, using(c_syntax::proofs::Equations::stmt_laws), unfolding(crate::specs::Read::value_at))]
fn value_at<'a>(alloc: Global, types: &TypeNames, room: u32, tokens: &'a [Token]) -> Read<'a, Stmt>
    ensures { Gives view_stmt result (spec.value_at types.now room tokens.now) }
{
    let line = first_line(tokens);
    let (value, rest) = ended_at(alloc, types, room, Punct::Semicolon, tokens)?;
    let node = StmtNode::Expr(value);
    Ok((Stmt { node, line }, rest))
}

// What a `for` does first.
#[tactic(auto, using(c_syntax::proofs::Equations::stmt_laws), unfolding(crate::specs::Read::first_at))]
fn first_at<'a>(alloc: Global, types: &TypeNames, room: u32, tokens: &'a [Token]) -> Read<'a, Stmt>
    ensures { Gives view_stmt result (spec.first_at types.now room tokens.now) }
{
    if let Some((line, rest)) = punct_at(Punct::Semicolon, tokens) {
        let node = StmtNode::Empty;
        return Ok((Stmt { node, line }, rest));
    }
    if starts_type(types, tokens) {
        return locals_at(alloc, types, room, tokens);
    }
    value_at(alloc, types, room, tokens)
}

/// What stands in the parentheses of a `for`.
#[derive(Drop)]
pub struct Head {
    pub first: Stmt,
    pub test: Option<Expr>,
    pub next: Option<Expr>,
}

/// What comes behind `for`, up to its body.
#[tactic(auto, unfolding(crate::specs::Read::head_at))]
pub fn head_at<'a>(
    alloc: Global,
    types: &TypeNames,
    room: u32,
    tokens: &'a [Token],
) -> Read<'a, Head>
    ensures { Gives view_head result (spec.head_at types.now room tokens.now) }
{
    let (_, rest) = expect(Punct::OpenParen, tokens)?;
    let (first, rest) = first_at(alloc, types, room, rest)?;
    let (test, rest) = optional_at(alloc, types, room, Punct::Semicolon, rest)?;
    let (next, rest) = optional_at(alloc, types, room, Punct::CloseParen, rest)?;
    Ok((Head { first, test, next }, rest))
}

/// What comes behind the body of a `do`.
#[tactic(auto, unfolding(crate::specs::Read::do_end_at))]
pub fn do_end_at<'a>(
    alloc: Global,
    types: &TypeNames,
    room: u32,
    tokens: &'a [Token],
) -> Read<'a, Expr>
    ensures { Gives view_expr result (spec.do_end_at types.now room tokens.now) }
{
    let Some((_, rest)) = word_at(Word::While, tokens) else {
        return Err(Fault::Syntax);
    };
    let (test, rest) = test_at(alloc, types, room, rest)?;
    let (_, rest) = expect(Punct::Semicolon, rest)?;
    Ok((test, rest))
}

/// A conditional and a colon, behind `case`.
#[tactic(auto, using(c_syntax::proofs::Equations::stmt_laws), unfolding(crate::specs::Read::case_at))]
pub fn case_at<'a>(
    alloc: Global,
    types: &TypeNames,
    room: u32,
    line: Line,
    tokens: &'a [Token],
) -> Read<'a, Stmt>
    ensures { Gives view_stmt result (spec.case_at types.now room line tokens.now) }
{
    let (value, rest) = cond_at(alloc, types, room, tokens)?;
    let (_, rest) = expect(Punct::Colon, rest)?;
    let node = StmtNode::Case(value);
    Ok((Stmt { node, line }, rest))
}

/// A colon, behind `default`.
#[tactic(auto, using(c_syntax::proofs::Equations::stmt_laws), unfolding(crate::specs::Read::default_at))]
pub fn default_at<'a>(line: Line, tokens: &'a [Token]) -> Read<'a, Stmt>
    ensures { Gives view_stmt result (spec.default_at line tokens.now) }
{
    let (_, rest) = expect(Punct::Colon, tokens)?;
    let node = StmtNode::Default;
    Ok((Stmt { node, line }, rest))
}

// A semicolon, behind `break`.
#[tactic(auto, using(c_syntax::proofs::Equations::stmt_laws), unfolding(crate::specs::Read::break_at))]
fn break_at<'a>(allowed: bool, line: Line, tokens: &'a [Token]) -> Read<'a, Stmt>
    ensures { Gives view_stmt result (spec.break_at allowed line tokens.now) }
{
    if !allowed {
        return Err(Fault::Syntax);
    }
    let (_, rest) = expect(Punct::Semicolon, tokens)?;
    let node = StmtNode::Break;
    Ok((Stmt { node, line }, rest))
}

// A semicolon, behind `continue`.
#[tactic(auto, using(c_syntax::proofs::Equations::stmt_laws), unfolding(crate::specs::Read::continue_at))]
fn continue_at<'a>(allowed: bool, line: Line, tokens: &'a [Token]) -> Read<'a, Stmt>
    ensures { Gives view_stmt result (spec.continue_at allowed line tokens.now) }
{
    if !allowed {
        return Err(Fault::Syntax);
    }
    let (_, rest) = expect(Punct::Semicolon, tokens)?;
    let node = StmtNode::Continue;
    Ok((Stmt { node, line }, rest))
}

// What comes behind `return`.
#[tactic(auto, using(c_syntax::proofs::Equations::stmt_laws), unfolding(crate::specs::Read::return_at))]
fn return_at<'a>(
    alloc: Global,
    types: &TypeNames,
    room: u32,
    line: Line,
    tokens: &'a [Token],
) -> Read<'a, Stmt>
    ensures { Gives view_stmt result (spec.return_at types.now room line tokens.now) }
{
    let (value, rest) = optional_at(alloc, types, room, Punct::Semicolon, tokens)?;
    let node = StmtNode::Return(value);
    Ok((Stmt { node, line }, rest))
}

/// A statement that has none in it, and is no assertion.
#[tactic(auto, using(c_syntax::proofs::Equations::stmt_laws), unfolding(crate::specs::Read::plain_at))]
pub fn plain_at<'a>(
    alloc: Global,
    types: &TypeNames,
    around: Around,
    room: u32,
    tokens: &'a [Token],
) -> Read<'a, Stmt>
    ensures { Gives view_stmt result (spec.plain_at types.now room around.loops around.breaks tokens.now) }
{
    let Some((first, rest)) = tokens.split_first() else {
        return Err(Fault::Syntax);
    };
    let line = first.line;
    match form_of(&first.kind) {
        Form::Empty => {
            let node = StmtNode::Empty;
            Ok((Stmt { node, line }, rest))
        }
        Form::Break => break_at(around.breaks, line, rest),
        Form::Continue => continue_at(around.loops, line, rest),
        Form::Return => return_at(alloc, types, room, line, rest),
        Form::Value => value_at(alloc, types, room, tokens),
        _ => Err(Fault::Syntax),
    }
}

/// An assertion and the end of its annotation.
#[tactic(auto, using(c_syntax::proofs::Equations::stmt_laws), unfolding(crate::specs::Read::assertion_at))]
pub fn assertion_at<'a>(
    alloc: Global,
    types: &TypeNames,
    room: u32,
    tokens: &'a [Token],
) -> Read<'a, Stmt>
    ensures { Gives view_stmt result (spec.assertion_at types.now room tokens.now) }
{
    let ((pred, line), rest) = assert_at(alloc, types, room, tokens)?;
    let Some((_, rest)) = annot_close_at(rest) else {
        return Err(Fault::Syntax);
    };
    let node = StmtNode::Assert(pred);
    Ok((Stmt { node, line }, rest))
}

/// The annotation of a loop and its end, where the tokens are among the last `end`.
#[tactic(auto, unfolding(crate::specs::Read::loop_annot_at))]
pub fn loop_annot_at<'a>(
    alloc: Global,
    types: &TypeNames,
    room: u32,
    end: usize,
    tokens: &'a [Token],
) -> Read<'a, LoopAnnot>
    ensures { Gives view_loop result (spec.loop_annot_at types.now room end tokens.now) }
{
    if tokens.len() > end {
        return Err(Fault::Syntax);
    }
    let (annot, rest) = loop_at(alloc, types, room, end, tokens)?;
    let Some((_, rest)) = annot_close_at(rest) else {
        return Err(Fault::Syntax);
    };
    Ok((annot, rest))
}
