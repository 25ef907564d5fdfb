//! Floor 8, tests: types of expressions. Each line of the file that it is given is an expression, which is typed where `src/declared.rt` has its
//! declarations; the line is printed, and behind it the type, with the number of a constant, or the first fault. A heading says what the
//! expressions behind it are: full expressions in a context, which have one result in every order that C allows, or else a fault.
#![tactic(auto)]

mod declared;
mod told;

use crate::declared::scope_of;
use crate::told::{tell_operand, tell_value};
use c_contexts::{
    case_number, condition, constant_number, initialiser, returned, statement, switched,
};
use c_exprs::typed_expr;
use c_grammar::TypeNames;
use c_kinds::Machdep;
use c_lexer::lex;
use c_scopes::Scope;
use c_syntax::{Expr, Tokens};
use parse_exprs::expr_at;
use std::alloc::Global;
use std::io;
use test_lines::{Page, given_text, print_page};
use typed_prog::{CoreType, Value};
use wp_base::{Kind, NoMemory, Stop};

/// The greatest length of a line.
const MOST_BYTES: usize = 1_000_000;

/// All variables are plain, but for the arrays and the struct, which are named with an index or a field alone.
const PLAIN: [bool; 20] = [true; 20];

/// The cells of the one struct that is declared.
const SIZES: [u32; 1] = [5];

fn tell_stop(page: &mut Page, stop: Stop) {
    match stop {
        Stop::NoMemory => page.lack_memory(),
        Stop::Refused(refusal) => {
            page.put("refused: ");
            page.put_number(refusal.rule.number());
            page.put(" ");
            page.put(refusal.rule.name());
        }
    }
}

/// What the expressions from here on are.
#[derive(Clone, Copy)]
enum Context {
    Operand,
    Statement,
    Condition,
    /// Of a variable of type `int`.
    Initialiser,
    /// From a function of this kind of results.
    Returned,
    Switched,
    Length,
    /// Of a `switch` over an `unsigned`.
    Case,
}

fn context_of(heading: &str) -> Option<Context> {
    let contexts = [
        ("statement:", Context::Statement),
        ("condition:", Context::Condition),
        ("int:", Context::Initialiser),
        ("return char:", Context::Returned),
        ("switch:", Context::Switched),
        ("length:", Context::Length),
        ("case of unsigned:", Context::Case),
    ];
    for (name, context) in &contexts {
        if *name == heading {
            return Some(*context);
        }
    }
    None
}

fn tell_full(page: &mut Page, answer: Result<Value, Stop>) {
    match answer {
        Ok(value) => tell_value(page, &value),
        Err(stop) => tell_stop(page, stop),
    }
}

fn tell_number(page: &mut Page, answer: Result<i128, Stop>) {
    match answer {
        Ok(number) => page.put_number(number),
        Err(stop) => tell_stop(page, stop),
    }
}

fn tell_expr(
    alloc: Global,
    page: &mut Page,
    model: Machdep,
    context: Context,
    scope: &Scope,
    expr: &Expr,
) {
    let (sizes, plain) = (&SIZES, &PLAIN);
    match context {
        Context::Operand => match typed_expr(alloc, model, sizes, scope, expr) {
            Ok(operand) => tell_operand(page, &operand),
            Err(stop) => tell_stop(page, stop),
        },
        Context::Statement => {
            tell_full(
                page,
                statement(alloc, model, sizes, scope, plain, plain, expr),
            );
        }
        Context::Condition => {
            tell_full(
                page,
                condition(alloc, model, sizes, scope, plain, plain, expr),
            );
        }
        Context::Initialiser => {
            let ty = CoreType::of_kind(alloc, Kind::Int);
            tell_full(
                page,
                initialiser(alloc, model, sizes, scope, plain, plain, &ty, expr),
            );
        }
        Context::Returned => {
            let ty = CoreType::of_kind(alloc, Kind::Char);
            tell_full(
                page,
                returned(alloc, model, sizes, scope, plain, plain, 1, &ty, expr),
            );
        }
        Context::Switched => {
            tell_full(
                page,
                switched(alloc, model, sizes, scope, plain, plain, expr),
            );
        }
        Context::Length => tell_number(page, constant_number(alloc, model, sizes, scope, expr)),
        Context::Case => {
            tell_number(
                page,
                case_number(alloc, model, sizes, scope, Kind::UInt, expr),
            );
        }
    }
}

fn tell_tokens(
    alloc: Global,
    page: &mut Page,
    model: Machdep,
    context: Context,
    scope: &Scope,
    tokens: &Tokens,
) {
    let types = TypeNames::new(alloc);
    match expr_at(alloc, &types, 200, tokens.as_slice()) {
        Ok((expr, rest)) => {
            if rest.is_empty() {
                tell_expr(alloc, page, model, context, scope, &expr);
            } else {
                page.put("more than an expression");
            }
        }
        Err(_) => page.put("no expression"),
    }
}

fn tell_text(
    alloc: Global,
    page: &mut Page,
    model: Machdep,
    context: Context,
    scope: &Scope,
    text: &str,
) {
    let bytes = text.as_bytes();
    if bytes.len() > MOST_BYTES {
        return page.put("too long");
    }
    match lex(alloc, bytes) {
        Ok(tokens) => tell_tokens(alloc, page, model, context, scope, &tokens),
        Err(stop) => tell_stop(page, stop),
    }
}

fn tell_all(alloc: Global, page: &mut Page, texts: &str) -> Result<(), NoMemory> {
    let scope = scope_of(alloc)?;
    let mut model = Machdep::X86_64;
    let mut context = Context::Operand;
    for text in texts.lines() {
        page.put(text);
        if text == "x86_32:" {
            model = Machdep::X86_32;
        } else if let Some(of) = context_of(text) {
            context = of;
        } else {
            page.put("  => ");
            tell_text(alloc, page, model, context, &scope, text);
        }
        page.put("\n");
    }
    Ok(())
}

fn page_of(alloc: Global, texts: &str) -> Page {
    let mut page = Page::new(alloc);
    if tell_all(alloc, &mut page, texts).is_err() {
        page.lack_memory();
    }
    page
}

fn main(rt: HostRuntime) -> io::Result<()> {
    let texts = given_text(&rt)?;
    print_page(&rt, page_of(rt.alloc(), texts.as_str()))
}
