//! Floor 8, tests: annotations. Each line of the file that it is given is a text of C; the line is printed, and behind it what its annotations say
//! once they are typed and their definitions expanded, or the first fault.
#![tactic(auto)]

mod trees;

use crate::trees::{put_kids, put_tree};
use acsl_annotated::type_annotated;
use acsl_clauses::{Group, Role, Said, TypedClause};
use acsl_notes::Note;
use acsl_typing::{Annotation, Annotations};
use c_kinds::Machdep;
use c_lexer::lex;
use c_parser::parse;
use c_syntax::{Program, Tokens};
use c_typing::type_program;
use std::alloc::Global;
use std::io;
use test_lines::{Page, given_text, print_page};
use typed_unit::Typed;
use wp_base::Stop;

/// The greatest length of a line.
const MOST_BYTES: usize = 1_000_000;

fn tell_stop(page: &mut Page, stop: Stop) {
    match stop {
        Stop::NoMemory => page.lack_memory(),
        Stop::Refused(refusal) => {
            page.put(" refused: ");
            page.put_number(refusal.rule.number());
            page.put(" ");
            page.put(refusal.rule.name());
        }
    }
}

fn role_word(role: Role) -> &'static str {
    match role {
        Role::Requires => " requires ",
        Role::Assumes => " assumes ",
        Role::Ensures => " ensures ",
        Role::Invariant => " invariant ",
    }
}

fn put_together(page: &mut Page, group: Group, numbers: &[u32]) {
    page.put(match group {
        Group::Complete => " complete",
        Group::Disjoint => " disjoint",
    });
    for number in numbers {
        page.put(" ");
        page.put_number(*number);
    }
}

fn put_clause(page: &mut Page, clause: &TypedClause) {
    match &clause.said {
        Said::Claims(role, tree) => {
            page.put(role_word(*role));
            put_tree(page, tree);
        }
        Said::Decreases(tree) => {
            page.put(" decreases ");
            put_tree(page, tree);
        }
        Said::Assigns(regions) => {
            page.put(" assigns");
            put_kids(page, regions.as_slice());
        }
        Said::Begins(number) => {
            page.put(" behavior ");
            page.put_number(*number);
        }
        Said::Together(group, numbers) => put_together(page, *group, numbers.as_slice()),
    }
    page.put(";");
}

fn put_clauses(page: &mut Page, clauses: &[TypedClause]) {
    for clause in clauses {
        put_clause(page, clause);
    }
}

fn put_note(page: &mut Page, note: &Note) {
    match note {
        Note::Loop(clauses) => {
            page.put(" loop:");
            put_clauses(page, clauses.as_slice());
        }
        Note::Assertion(tree) => {
            page.put(" assert ");
            put_tree(page, tree);
            page.put(";");
        }
    }
}

fn put_annotations(page: &mut Page, annotations: &Annotations) {
    for annotation in annotations.items.as_slice() {
        match annotation {
            Annotation::Function(clauses, notes) => {
                put_clauses(page, clauses.as_slice());
                for note in notes.as_slice() {
                    put_note(page, note);
                }
            }
            Annotation::Definition(tree) => {
                page.put(" stands for ");
                put_tree(page, tree);
                page.put(";");
            }
        }
    }
}

fn tell_typed(alloc: Global, page: &mut Page, typed: &Typed<'_>) {
    match type_annotated(alloc, typed) {
        Ok(annotations) => put_annotations(page, &annotations),
        Err(stop) => tell_stop(page, stop),
    }
}

fn tell_program(alloc: Global, page: &mut Page, program: &Program) {
    match type_program(alloc, program, Machdep::X86_64) {
        Ok(typed) => tell_typed(alloc, page, &typed),
        Err(stop) => tell_stop(page, stop),
    }
}

fn tell_tokens(alloc: Global, page: &mut Page, tokens: &Tokens) {
    match parse(alloc, tokens) {
        Ok(program) => tell_program(alloc, page, &program),
        Err(stop) => tell_stop(page, stop),
    }
}

fn tell_text(alloc: Global, page: &mut Page, text: &str) {
    let bytes = text.as_bytes();
    if bytes.len() > MOST_BYTES {
        return page.put(" too long");
    }
    match lex(alloc, bytes) {
        Ok(tokens) => tell_tokens(alloc, page, &tokens),
        Err(stop) => tell_stop(page, stop),
    }
}

fn page_of(alloc: Global, texts: &str) -> Page {
    let mut page = Page::new(alloc);
    for text in texts.lines() {
        page.put(text);
        page.put("  =>");
        tell_text(alloc, &mut page, text);
        page.put("\n");
    }
    page
}

fn main(rt: HostRuntime) -> io::Result<()> {
    let texts = given_text(&rt)?;
    print_page(&rt, page_of(rt.alloc(), texts.as_str()))
}
