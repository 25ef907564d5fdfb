//! Floor 8, tests: from bytes to trees. For each line of the file that it is given it prints what the call that the heading above it names
//! makes of the text: the tree, or the refusal. What it must print was written by the grammar.
#![tactic(auto)]

mod annots;
mod cases;
mod decls;
mod exprs;
mod names;
mod places;
mod preds;
mod readers;
mod stmts;
mod terms;
mod texts;
mod told;

use crate::cases::{Heading, text_of};
use crate::places::reads_place;
use crate::readers::{finds_token, reads_clauses, reads_code, reads_logic, reads_type};
use crate::texts::{reads_all, tell_front};
use crate::told::tell_stop;
use c_lexer::lex;
use c_syntax::{Token, Tokens};
use std::alloc::Global;
use std::io;
use test_lines::{Page, given_text, print_page};
use wp_base::NoMemory;

/// The greatest length of a text.
const MOST_BYTES: usize = 1_048_576;

// The tokens in an annotation: those behind the first.
fn inside(tokens: &[Token]) -> &[Token] {
    match tokens.split_first() {
        Some((_, rest)) => rest,
        None => &[],
    }
}

fn answer_tokens(
    alloc: Global,
    page: &mut Page,
    heading: &Heading<'_>,
    tokens: &Tokens,
) -> Result<(), NoMemory> {
    let reader = heading.reader;
    let room = heading.room;
    let types = heading.types(alloc)?;
    let all = tokens.as_slice();
    let is_known = reads_all(alloc, page, reader, tokens)
        || reads_type(alloc, page, reader, &types, all)
        || finds_token(page, heading, &types, all)
        || reads_code(alloc, page, reader, room, &types, all)
        || reads_clauses(alloc, page, reader, room, &types, all)
        || reads_logic(alloc, page, reader, room, &types, inside(all))
        || reads_place(alloc, page, heading, &types, tokens);
    if !is_known {
        page.put(" no such call");
    }
    Ok(())
}

fn answer(
    alloc: Global,
    page: &mut Page,
    heading: &Heading<'_>,
    line: &str,
) -> Result<(), NoMemory> {
    let text = text_of(alloc, heading, line)?;
    let text = text.as_slice();
    if text.len() > MOST_BYTES {
        page.put(" too long");
        return Ok(());
    }
    if heading.reader == "program" {
        tell_front(alloc, page, text);
        return Ok(());
    }
    match lex(alloc, text) {
        Ok(tokens) => answer_tokens(alloc, page, heading, &tokens),
        Err(stop) => {
            tell_stop(page, stop);
            Ok(())
        }
    }
}

fn page_of(alloc: Global, cases: &str) -> Page {
    let mut page = Page::new(alloc);
    let mut heading = Heading::of("");
    for line in cases.lines() {
        page.put(line);
        match line.strip_prefix("= ") {
            Some(words) => heading = Heading::of(words),
            None => {
                page.put("  =>");
                if answer(alloc, &mut page, &heading, line).is_err() {
                    page.lack_memory();
                }
            }
        }
        page.put("\n");
    }
    page
}

fn main(rt: HostRuntime) -> io::Result<()> {
    let cases = given_text(&rt)?;
    print_page(&rt, page_of(rt.alloc(), cases.as_str()))
}
