// Contracts and the annotations of loops, printed.

use crate::preds::write_pred;
use crate::terms::{write_term, write_terms};
use c_syntax::{AssignsClause, Behavior, Clause, Contract, LoopAnnot, Measure, Names};
use test_lines::Page;

fn write_clauses(page: &mut Page, head: &str, clauses: &[Clause]) {
    for clause in clauses {
        page.open_clause(head, clause.line, clause.place);
        write_pred(page, &clause.pred);
        page.close();
    }
}

// The set, and the lines of the words `\from`.
fn write_assigns(page: &mut Page, clause: &AssignsClause) {
    if let Some(set) = &clause.set {
        page.open_clause("assigns", clause.line, clause.place);
        write_terms(page, set.as_slice());
        for line in clause.from.as_slice() {
            page.put_leaf(b"from", *line);
        }
        page.close();
    }
}

fn write_measure(page: &mut Page, head: &str, measure: &Option<Measure>) {
    if let Some(measure) = measure {
        page.open_clause(head, measure.line, measure.place);
        write_term(page, &measure.term);
        page.close();
    }
}

fn write_behavior(page: &mut Page, behavior: &Behavior) {
    page.open_clause("behavior", behavior.line, behavior.place);
    page.put_name(behavior.name.bytes());
    write_clauses(page, "assumes", behavior.assumes.as_slice());
    write_clauses(page, "requires", behavior.requires_.as_slice());
    write_assigns(page, &behavior.assigns);
    write_clauses(page, "ensures", behavior.ensures_.as_slice());
    page.close();
}

fn write_names(page: &mut Page, head: &str, all: &[Names]) {
    for names in all {
        page.open_clause(head, names.line, names.place);
        for name in names.names.as_slice() {
            page.put_name(name.bytes());
        }
        page.close();
    }
}

pub fn write_contract(page: &mut Page, contract: &Contract) {
    page.open("contract", 1);
    write_clauses(page, "requires", contract.requires_.as_slice());
    write_assigns(page, &contract.assigns);
    write_clauses(page, "ensures", contract.ensures_.as_slice());
    write_measure(page, "decreases", &contract.decreases_);
    for behavior in contract.behaviors.as_slice() {
        write_behavior(page, behavior);
    }
    write_names(page, "complete", contract.complete.as_slice());
    write_names(page, "disjoint", contract.disjoint.as_slice());
    page.close();
}

pub fn write_loop(page: &mut Page, annot: &LoopAnnot) {
    page.open("loop", 1);
    write_clauses(page, "invariant", annot.invariants.as_slice());
    write_assigns(page, &annot.assigns);
    write_measure(page, "variant", &annot.variant);
    page.close();
}
