// What was read, told as a tree and the number of tokens that are left.

use crate::annots::{write_contract, write_loop};
use crate::decls::write_logic;
use crate::exprs::{write_expr, write_type, write_var, write_vars};
use crate::preds::write_pred;
use crate::stmts::write_stmts;
use crate::terms::{write_term, write_terms};
use c_grammar::Fault;
use c_syntax::{CType, Contract, Expr, LogicDecl, LoopAnnot, Pred, Term, Token, VarDecl};
use parse_stmts::Body;
use test_lines::Page;
use wp_base::{Line, List, Stop, Str};

/// A tree that is printed, behind a space.
pub trait Shown {
    fn show(&self, page: &mut Page);
}

impl Shown for CType {
    fn show(&self, page: &mut Page) {
        write_type(page, self);
    }
}

impl Shown for Expr {
    fn show(&self, page: &mut Page) {
        write_expr(page, self);
    }
}

impl Shown for VarDecl {
    fn show(&self, page: &mut Page) {
        write_var(page, self);
    }
}

impl Shown for List<VarDecl> {
    fn show(&self, page: &mut Page) {
        write_vars(page, self.as_slice());
    }
}

// Parameters, each with the line on which it begins.
impl Shown for List<(VarDecl, Line)> {
    fn show(&self, page: &mut Page) {
        for (param, line) in self.as_slice() {
            write_var(page, param);
            page.put_line(*line);
        }
    }
}

impl Shown for Term {
    fn show(&self, page: &mut Page) {
        write_term(page, self);
    }
}

impl Shown for List<Term> {
    fn show(&self, page: &mut Page) {
        write_terms(page, self.as_slice());
    }
}

impl Shown for Pred {
    fn show(&self, page: &mut Page) {
        write_pred(page, self);
    }
}

// An assertion, with the line of its word.
impl Shown for (Pred, Line) {
    fn show(&self, page: &mut Page) {
        write_pred(page, &self.0);
        page.put_leaf(b"word", self.1);
    }
}

impl Shown for Contract {
    fn show(&self, page: &mut Page) {
        write_contract(page, self);
    }
}

impl Shown for LoopAnnot {
    fn show(&self, page: &mut Page) {
        write_loop(page, self);
    }
}

impl Shown for LogicDecl {
    fn show(&self, page: &mut Page) {
        write_logic(page, self);
    }
}

impl Shown for List<LogicDecl> {
    fn show(&self, page: &mut Page) {
        for logic in self.as_slice() {
            write_logic(page, logic);
        }
    }
}

// A body: its statements, the lines on which they begin, and that on which it ends.
impl Shown for Body {
    fn show(&self, page: &mut Page) {
        write_stmts(page, self.stmts.as_slice());
        page.put(" lines");
        for line in self.starts.as_slice() {
            page.put(" ");
            page.put_number(*line);
        }
        page.put_leaf(b"end", self.end);
    }
}

// A name with its line.
impl Shown for (Str, Line) {
    fn show(&self, page: &mut Page) {
        page.put_leaf(self.0.bytes(), self.1);
    }
}

// The line of a token that was looked for.
impl Shown for Line {
    fn show(&self, page: &mut Page) {
        page.put(" line ");
        page.put_number(*self);
    }
}

pub fn tell_left(page: &mut Page, rest: &[Token]) {
    page.put(", ");
    page.put_number(rest.len());
    page.put(" left");
}

/// What was read at the front of some tokens, and how many are left.
pub fn tell<T: Shown + Drop>(page: &mut Page, answer: Result<(T, &[Token]), Fault>) {
    match answer {
        Ok((found, rest)) => {
            found.show(page);
            tell_left(page, rest);
        }
        Err(Fault::Syntax) => page.put(" refused"),
        Err(Fault::NoMemory) => page.lack_memory(),
    }
}

/// The line of the token at the front, if it is the one that was looked for.
pub fn tell_found(page: &mut Page, found: Option<(Line, &[Token])>) {
    match found {
        Some(found) => tell(page, Ok(found)),
        None => page.put(" none"),
    }
}

pub fn tell_whether(page: &mut Page, holds: bool) {
    page.put(if holds { " yes" } else { " no" });
}

/// Why a text isn't read.
pub fn tell_stop(page: &mut Page, stop: Stop) {
    match stop {
        Stop::Refused(refusal) => {
            page.put(" refused line ");
            page.put_number(refusal.line);
            page.put(": ");
            page.put(refusal.rule.name());
        }
        Stop::NoMemory => page.lack_memory(),
    }
}
