// Statements with their checks, as text.
use check_lists::{Check, Undefined};
use checked_trees::{Goal, Step};
use test_lines::Page;
use typed_prog::{Arithmetic, Op, Path, Root, Value, ValueNode, Variable};

fn word(kind: Undefined) -> &'static str {
    match kind {
        Undefined::Init => "init",
        Undefined::Overflow => "overflow",
        Undefined::DivZero => "divzero",
        Undefined::Shift => "shift",
        Undefined::Access => "access",
        Undefined::Index => "index",
        Undefined::Pointing => "pointing",
        Undefined::Comparing => "comparing",
    }
}

// The checks, each with the way to its operation, in braces.
fn put_checks(page: &mut Page, checks: &[Check]) {
    for check in checks {
        page.put(" {");
        page.put(word(check.kind));
        for operand in check.way.as_slice() {
            page.put(" ");
            page.put_number(*operand);
        }
        page.put("}");
    }
}

fn put_path(page: &mut Page, path: &Path) {
    match path.root {
        Root::Variable(Variable::Local(number)) => {
            page.put("v");
            page.put_number(number);
        }
        Root::Variable(Variable::Global(_)) => page.put("global"),
        Root::Pointed(_) => page.put("pointed"),
    }
}

fn put_op(page: &mut Page, op: &Op) {
    match op {
        Op::Read(path) => put_path(page, path),
        Op::Negate => page.put("neg"),
        Op::Arithmetic(Arithmetic::Div) => page.put("div"),
        Op::Arithmetic(_) => page.put("add"),
        Op::Compare(_) => page.put("eq"),
        _ => page.put("op"),
    }
}

#[cycle(values)]
fn put_value(page: &mut Page, value: &Value) {
    page.put(" ");
    match &value.node {
        ValueNode::Constant(number) => page.put_number(*number),
        ValueNode::Temporary(number) => {
            page.put("t");
            page.put_number(*number);
        }
        ValueNode::Apply(op, operands) => {
            page.put("(");
            put_op(page, op);
            put_values(page, operands.as_slice());
            page.put(")");
        }
        ValueNode::Null => page.put("null"),
        ValueNode::Logic(_, _, _) => page.put("logic"),
        ValueNode::Choose(_, _, _) => page.put("choose"),
        ValueNode::Effect(_, _) => page.put("effect"),
    }
}

#[cycle(values)]
fn put_values(page: &mut Page, values: &[Value]) {
    for value in values {
        put_value(page, value);
    }
}

fn put_goal(page: &mut Page, to: &Goal<'_>) {
    match to {
        Goal::Nowhere => {}
        Goal::Temporary(number) => {
            page.put(" t");
            page.put_number(*number);
        }
        Goal::Place(checks, _, _, path, _) => {
            page.put(" ");
            put_path(page, path);
            put_checks(page, checks.as_slice());
        }
        Goal::Variable(number) => {
            page.put(" v");
            page.put_number(*number);
        }
    }
}

fn open(page: &mut Page, head: &str, checks: &[Check]) {
    put_checks(page, checks);
    page.put(" (");
    page.put(head);
}

#[cycle(showing)]
fn put_block(page: &mut Page, head: &str, body: &[Step<'_>]) {
    page.put(" (");
    page.put(head);
    put_steps(page, body);
    page.put(")");
}

// A statement without others in it.
fn put_leaf(page: &mut Page, step: &Step<'_>) {
    match step {
        Step::Set(checks, number, value) => {
            open(page, "set t", checks.as_slice());
            page.put_number(*number);
            put_value(page, value);
        }
        Step::Store(checks, _, _, path, values) => {
            open(page, "store ", checks.as_slice());
            put_path(page, path);
            put_values(page, values.as_slice());
        }
        Step::Start(checks, number, value) => {
            open(page, "start v", checks.as_slice());
            page.put_number(*number);
            put_value(page, value);
        }
        Step::Call(checks, to, number, _, arguments) => {
            open(page, "call f", checks.as_slice());
            page.put_number(*number);
            put_values(page, arguments.as_slice());
            page.put(" to");
            put_goal(page, to);
        }
        Step::Exit(block) => {
            page.put(" (exit ");
            page.put_number(*block);
        }
        Step::Give(checks, value) => {
            open(page, "give", checks.as_slice());
            if let Some(value) = value {
                put_value(page, value);
            }
        }
        Step::Claim(_) => page.put(" (claim"),
        Step::Branch(..) | Step::Repeat(..) | Step::Around(_) | Step::Scope(..) => page.put(" ("),
    }
    page.put(")");
}

#[cycle(showing)]
fn put_step(page: &mut Page, step: &Step<'_>) {
    match step {
        Step::Branch(checks, test, first, second) => {
            open(page, "branch", checks.as_slice());
            put_value(page, test);
            put_block(page, "", first.as_slice());
            put_block(page, "", second.as_slice());
            page.put(")");
        }
        Step::Repeat(_, body) => put_block(page, "repeat", body.as_slice()),
        Step::Around(body) => put_block(page, "around", body.as_slice()),
        Step::Scope(_, body) => put_block(page, "scope", body.as_slice()),
        leaf => put_leaf(page, leaf),
    }
}

/// Statements one behind the other.
#[cycle(showing)]
pub(crate) fn put_steps(page: &mut Page, steps: &[Step<'_>]) {
    for step in steps {
        put_step(page, step);
    }
}
