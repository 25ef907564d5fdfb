// The body of a function.
ghost use Rattle.c_grammar.specs.Views.{Gives};
ghost use Rattle.parse_stmts.specs.Read as spec;
ghost use Rattle.parse_stmts.specs.Views.{view_body};

use crate::stmts::stmts;
use c_grammar::{MOST_WITHIN, Read, TypeNames, expect};
use c_syntax::{Punct, Stmt, Token};
use parse_leaf_stmts::Around;
use std::alloc::Global;
use wp_base::{Line, List};

/// The body of a function: its statements, the lines of its braces, and the lines on which its
/// statements begin, in order.
#[derive(Drop)]
pub struct Body {
    pub stmts: List<Stmt>,
    pub line: Line,
    pub end: Line,
    pub starts: List<Line>,
}

/// The body of a function, from its opening brace on, where `end` is the number of all tokens of
/// the file (C11 6.9.1). Syntax only where the tokens begin with no such body.
#[tactic(auto, unfolding(crate::specs::Read::block_at))]
pub fn block_at<'a>(
    alloc: Global,
    types: &TypeNames,
    end: usize,
    tokens: &'a [Token],
) -> Read<'a, Body>
    ensures { Gives view_body result (spec.block_at types.now end tokens.now) }
{
    let (line, rest) = expect(Punct::OpenBrace, tokens)?;
    let around = Around {
        end,
        loops: false,
        breaks: false,
    };
    let mut starts = List::new(alloc);
    let ((items, last), rest) = stmts(alloc, types, around, false, MOST_WITHIN, &mut starts, rest)?;
    let body = Body {
        stmts: items,
        line,
        end: last,
        starts,
    };
    Ok((body, rest))
}
