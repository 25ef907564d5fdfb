// The calls that read whole texts.
ghost use Rattle.std.specs.Prelude.{◌≤◌, length};

use crate::decls::write_decls;
use crate::exprs::{write_char, write_number};
use crate::names::{punct_text, word_text};
use crate::told::tell_stop;
use acsl_typing::type_annots;
use c_kinds::Machdep;
use c_lexer::lex;
use c_parser::parse;
use c_syntax::{Program, Token, TokenKind, Tokens};
use c_typing::type_program;
use std::alloc::Global;
use test_lines::Page;
use wp_base::Stop;

fn write_token(page: &mut Page, token: &Token) {
    match &token.kind {
        TokenKind::Name(name) => page.put_name(name.bytes()),
        TokenKind::Word(word) => {
            page.put(" [");
            page.put(word_text(*word));
            page.put("]");
        }
        TokenKind::Number { .. } => write_number(page, token, token.line),
        TokenKind::Char(value) => write_char(page, *value, 1),
        TokenKind::Punct(punct) => page.put_name(punct_text(*punct).as_bytes()),
        TokenKind::AnnotOpen => page.put(" /*@"),
        TokenKind::AnnotClose => page.put(" */"),
    }
}

fn tell_tokens(page: &mut Page, tokens: &Tokens) {
    for token in tokens.as_slice() {
        write_token(page, token);
    }
}

fn tell_count(page: &mut Page, tokens: &Tokens) {
    page.put(" ");
    page.put_number(tokens.len());
    page.put(" tokens");
}

fn tell_program(page: &mut Page, answer: Result<Program, Stop>) {
    match answer {
        Ok(program) => write_decls(page, program.decls.as_slice()),
        Err(stop) => tell_stop(page, stop),
    }
}

/// Whether there is such a call over all tokens of a text.
pub fn reads_all(alloc: Global, page: &mut Page, reader: &str, tokens: &Tokens) -> bool {
    match reader {
        "tokens" => tell_tokens(page, tokens),
        "count" => tell_count(page, tokens),
        "return" | "body" | "term" | "predicate" | "contract" | "file" => {
            tell_program(page, parse(alloc, tokens))
        }
        _ => return false,
    }
    true
}

// Reads a text and types it, its annotations too; how many declarations it has.
fn typed_count(alloc: Global, text: &[u8]) -> Result<usize, Stop>
    requires { length text.now ≤ 1048576 }
{
    let tokens = lex(alloc, text)?;
    let program = parse(alloc, &tokens)?;
    let typed = type_program(alloc, &program, Machdep::X86_64)?;
    type_annots(alloc, &typed)?;
    Ok(program.decls.as_slice().len())
}

/// How many declarations a text has that is read and typed.
pub fn tell_front(alloc: Global, page: &mut Page, text: &[u8])
    requires { length text.now ≤ 1048576 }
{
    match typed_count(alloc, text) {
        Ok(count) => {
            page.put(" declarations ");
            page.put_number(count);
        }
        Err(stop) => tell_stop(page, stop),
    }
}
