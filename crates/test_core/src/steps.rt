// What statements ask for, in order: the kinds of their checks, assertions, calls, and the arms and loops in which they stand.
use check_lists::{Check, Undefined};
use checked_trees::{Goal, Step};
use test_lines::Page;

fn word(kind: Undefined) -> &'static str {
    match kind {
        Undefined::Init => " init",
        Undefined::Overflow => " overflow",
        Undefined::DivZero => " divzero",
        Undefined::Shift => " shift",
        Undefined::Access => " access",
        Undefined::Index => " index",
        Undefined::Pointing => " pointer",
        Undefined::Comparing => " compare",
    }
}

fn put_checks(page: &mut Page, checks: &[Check]) {
    for check in checks {
        page.put(word(check.kind));
    }
}

fn put_call(page: &mut Page, checks: &[Check], to: &Goal<'_>) {
    put_checks(page, checks);
    page.put(" call");
    match to {
        Goal::Place(checks, _, _, _, _) => put_checks(page, checks.as_slice()),
        Goal::Nowhere | Goal::Temporary(_) | Goal::Variable(_) => {}
    }
}

#[cycle(showing)]
fn put_arm(page: &mut Page, head: &str, body: &[Step<'_>]) {
    page.put(head);
    put_steps(page, body);
}

#[cycle(showing)]
fn put_loop(page: &mut Page, body: &[Step<'_>], invariants: usize) {
    page.put(" loop ");
    page.put_number(invariants);
    page.put(" [");
    put_steps(page, body);
    page.put(" ]");
}

#[cycle(showing)]
fn put_step(page: &mut Page, step: &Step<'_>) {
    match step {
        Step::Set(checks, _, _) => put_checks(page, checks.as_slice()),
        Step::Store(checks, _, _, _, _) => put_checks(page, checks.as_slice()),
        Step::Start(checks, _, _) => put_checks(page, checks.as_slice()),
        Step::Call(checks, to, _, _, _) => put_call(page, checks.as_slice(), to),
        Step::Branch(checks, _, first, second) => {
            put_checks(page, checks.as_slice());
            put_arm(page, " [", first.as_slice());
            put_arm(page, " |", second.as_slice());
            page.put(" ]");
        }
        Step::Repeat(claims, body) => put_loop(page, body.as_slice(), claims.invariants.len()),
        Step::Around(body) => put_steps(page, body.as_slice()),
        Step::Exit(_) => {}
        Step::Give(checks, _) => put_checks(page, checks.as_slice()),
        Step::Claim(_) => page.put(" assert"),
        Step::Scope(_, body) => put_steps(page, body.as_slice()),
    }
}

/// Statements, one after the other.
#[cycle(showing)]
pub fn put_steps(page: &mut Page, steps: &[Step<'_>]) {
    for step in steps {
        put_step(page, step);
    }
}
