// Terms, printed.

use crate::exprs::{write_char, write_number, write_type};
use crate::names::{field_name, operator_name, prefix_name};
use c_syntax::{Term, TermNode};
use test_lines::Page;
use wp_base::Line;

// The head of a term that has parts.
fn term_head(node: &TermNode) -> &'static str {
    match node {
        TermNode::Number(_) | TermNode::Char(_) | TermNode::Name(_) => "",
        TermNode::Result | TermNode::Null => "",
        TermNode::Unary(op, _) => prefix_name(*op),
        TermNode::Binary(op, _, _) => operator_name(*op),
        TermNode::Cond(_, _, _) => "?",
        TermNode::Call(_, _) => "call",
        TermNode::Index(_, _) => "index",
        TermNode::Field {
            of: _,
            name: _,
            arrow,
        } => field_name(*arrow),
        TermNode::Cast(_, _) => "cast",
        TermNode::Old(_) => "old",
        TermNode::At(_, _) => "at",
        TermNode::Range(_, _) => "range",
    }
}

// Whether the term has no parts; then it is written.
fn is_leaf(page: &mut Page, node: &TermNode, line: Line) -> bool {
    match node {
        TermNode::Number(token) => write_number(page, token, line),
        TermNode::Char(value) => write_char(page, *value, line),
        TermNode::Name(name) => page.put_leaf(name.bytes(), line),
        TermNode::Result => page.put_leaf(b"result", line),
        TermNode::Null => page.put_leaf(b"null", line),
        _ => return false,
    }
    true
}

#[cycle(terms)]
pub fn write_terms(page: &mut Page, terms: &[Term]) {
    for term in terms {
        write_term(page, term);
    }
}

#[cycle(terms)]
fn write_parts(page: &mut Page, node: &TermNode) {
    match node {
        TermNode::Number(_) | TermNode::Char(_) | TermNode::Name(_) => {}
        TermNode::Result | TermNode::Null => {}
        TermNode::Unary(_, of) | TermNode::Old(of) => write_term(page, of.get()),
        TermNode::Binary(_, left, right) => {
            write_term(page, left.get());
            write_term(page, right.get());
        }
        TermNode::Index(left, right) | TermNode::Range(left, right) => {
            write_term(page, left.get());
            write_term(page, right.get());
        }
        TermNode::Cond(test, yes, no) => {
            write_term(page, test.get());
            write_term(page, yes.get());
            write_term(page, no.get());
        }
        TermNode::Call(name, args) => {
            page.put_name(name.bytes());
            write_terms(page, args.as_slice());
        }
        TermNode::Field { of, name, arrow: _ } => {
            write_term(page, of.get());
            page.put_name(name.bytes());
        }
        TermNode::At(of, name) => {
            write_term(page, of.get());
            page.put_name(name.bytes());
        }
        TermNode::Cast(to, of) => {
            write_type(page, to);
            write_term(page, of.get());
        }
    }
}

#[cycle(terms)]
pub fn write_term(page: &mut Page, term: &Term) {
    if !is_leaf(page, &term.node, term.line) {
        page.open(term_head(&term.node), term.line);
        write_parts(page, &term.node);
        page.close();
    }
}
