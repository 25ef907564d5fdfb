// Predicates, printed.

use crate::exprs::write_vars;
use crate::names::operator_name;
use crate::terms::{write_term, write_terms};
use c_syntax::{BinOp, Pred, PredNode, Term};
use test_lines::Page;

// The terms of a chain, with what stands between them.
fn write_chain(page: &mut Page, terms: &[Term], ops: &[BinOp]) {
    let mut rest = ops;
    for term in terms {
        write_term(page, term);
        if let Some((op, after)) = rest.split_first() {
            page.put_name(operator_name(*op).as_bytes());
            rest = after;
        }
    }
}

// The head of a predicate other than `\true` and `\false`.
fn pred_head(node: &PredNode) -> &'static str {
    match node {
        PredNode::True | PredNode::False => "",
        PredNode::Not(_) => "not",
        PredNode::And(_, _) => "and",
        PredNode::Xor(_, _) => "xor",
        PredNode::Or(_, _) => "or",
        PredNode::Implies(_, _) => "implies",
        PredNode::Iff(_, _) => "iff",
        PredNode::Cond(_, _, _) => "?",
        PredNode::Let(_, _, _) => "let",
        PredNode::Chain(_, _) => "chain",
        PredNode::Forall(_, _) => "forall",
        PredNode::Exists(_, _) => "exists",
        PredNode::Valid(_) => "valid",
        PredNode::ValidRead(_) => "valid_read",
        PredNode::Separated(_) => "separated",
        PredNode::Old(_) => "old",
        PredNode::Call(_, _) => "call",
    }
}

// What a predicate has that are no predicates.
fn write_own(page: &mut Page, node: &PredNode) {
    match node {
        PredNode::Let(name, value, _) => {
            page.put_name(name.bytes());
            write_term(page, value.get());
        }
        PredNode::Chain(terms, ops) => write_chain(page, terms.as_slice(), ops.as_slice()),
        PredNode::Forall(binders, _) | PredNode::Exists(binders, _) => {
            write_vars(page, binders.as_slice())
        }
        PredNode::Valid(pointer) | PredNode::ValidRead(pointer) => write_term(page, pointer.get()),
        PredNode::Separated(pointers) => write_terms(page, pointers.as_slice()),
        PredNode::Call(name, args) => {
            page.put_name(name.bytes());
            write_terms(page, args.as_slice());
        }
        _ => {}
    }
}

#[cycle(preds)]
fn write_parts(page: &mut Page, node: &PredNode) {
    match node {
        PredNode::Not(of) | PredNode::Old(of) => write_pred(page, of.get()),
        PredNode::Let(_, _, of) => write_pred(page, of.get()),
        PredNode::Forall(_, of) | PredNode::Exists(_, of) => write_pred(page, of.get()),
        PredNode::And(left, right) | PredNode::Xor(left, right) | PredNode::Or(left, right) => {
            write_pred(page, left.get());
            write_pred(page, right.get());
        }
        PredNode::Implies(left, right) | PredNode::Iff(left, right) => {
            write_pred(page, left.get());
            write_pred(page, right.get());
        }
        PredNode::Cond(test, yes, no) => {
            write_pred(page, test.get());
            write_pred(page, yes.get());
            write_pred(page, no.get());
        }
        _ => {}
    }
}

#[cycle(preds)]
pub fn write_pred(page: &mut Page, pred: &Pred) {
    match &pred.node {
        PredNode::True => page.put_leaf(b"true", pred.line),
        PredNode::False => page.put_leaf(b"false", pred.line),
        node => {
            page.open(pred_head(node), pred.line);
            write_own(page, node);
            write_parts(page, node);
            page.close();
        }
    }
}
