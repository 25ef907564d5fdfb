//! Floor 8, tests: the way from a text to core programs with checks. Each line of the file that it is given is a text of C; the line is printed, and
//! behind it what its functions ask for, in order.
#![tactic(auto)]

mod steps;

use crate::steps::put_steps;
use acsl_annotated::type_annotated;
use acsl_typing::Annotations;
use c_kinds::Machdep;
use c_lexer::lex;
use c_parser::parse;
use c_syntax::{Program as Spelled, Tokens};
use c_typing::type_program;
use checked_trees::CheckedProgram;
use checks_added::add_checks;
use made_programs::program_of;
use normal_programs::normalise;
use program_trees::{CoreProgram, Program};
use std::alloc::Global;
use std::io;
use test_lines::{Page, given_text, print_page};
use typed_unit::Typed;
use wp_base::Stop;

/// The greatest length of a line.
const MOST_BYTES: usize = 1_000_000;

fn tell_stop(page: &mut Page, stop: Stop) {
    match stop {
        Stop::NoMemory => page.lack_memory(),
        Stop::Refused(refusal) => {
            page.put(" refused: ");
            page.put_number(refusal.rule.number());
        }
    }
}

// Of each function with a body: its parameters, what it requires and ensures outside of behaviors, and what its statements ask for.
fn put_functions(page: &mut Page, program: &CheckedProgram<'_>) {
    for item in program.functions.as_slice() {
        if let Some(function) = item {
            page.put(" function ");
            page.put_number(function.params);
            page.put("/");
            page.put_number(function.contract.plain.requires_.len());
            page.put("/");
            page.put_number(function.contract.plain.ensures_.len());
            put_steps(page, function.body.as_slice());
        }
    }
}

fn tell_core(alloc: Global, page: &mut Page, program: &CoreProgram<'_>) {
    match add_checks(alloc, program) {
        Ok(checked) => put_functions(page, &checked),
        Err(_) => page.lack_memory(),
    }
}

fn tell_program(alloc: Global, page: &mut Page, program: &Program<'_>) {
    match normalise(alloc, program) {
        Ok(core) => tell_core(alloc, page, &core),
        Err(_) => page.lack_memory(),
    }
}

fn tell_annotated(alloc: Global, page: &mut Page, typed: &Typed<'_>, annotations: &Annotations) {
    match program_of(alloc, typed, annotations) {
        Ok(program) => tell_program(alloc, page, &program),
        Err(_) => page.lack_memory(),
    }
}

fn tell_typed(alloc: Global, page: &mut Page, typed: &Typed<'_>) {
    match type_annotated(alloc, typed) {
        Ok(annotations) => tell_annotated(alloc, page, typed, &annotations),
        Err(stop) => tell_stop(page, stop),
    }
}

fn tell_spelled(alloc: Global, page: &mut Page, program: &Spelled) {
    match type_program(alloc, program, Machdep::X86_64) {
        Ok(typed) => tell_typed(alloc, page, &typed),
        Err(stop) => tell_stop(page, stop),
    }
}

fn tell_tokens(alloc: Global, page: &mut Page, tokens: &Tokens) {
    match parse(alloc, tokens) {
        Ok(program) => tell_spelled(alloc, page, &program),
        Err(stop) => tell_stop(page, stop),
    }
}

fn tell_text(alloc: Global, page: &mut Page, text: &str) {
    let bytes = text.as_bytes();
    if bytes.len() > MOST_BYTES {
        return page.put(" too long");
    }
    match lex(alloc, bytes) {
        Ok(tokens) => tell_tokens(alloc, page, &tokens),
        Err(stop) => tell_stop(page, stop),
    }
}

fn page_of(alloc: Global, texts: &str) -> Page {
    let mut page = Page::new(alloc);
    for text in texts.lines() {
        page.put(text);
        page.put("  =>");
        tell_text(alloc, &mut page, text);
        page.put("\n");
    }
    page
}

fn main(rt: HostRuntime) -> io::Result<()> {
    let texts = given_text(&rt)?;
    print_page(&rt, page_of(rt.alloc(), texts.as_str()))
}
