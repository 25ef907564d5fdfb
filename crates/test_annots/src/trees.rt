// Typed trees as text: what a node is, and behind it its kids, in brackets.
use acsl_trees::{Head, Label, Range, Tree};
use test_lines::Page;
use typed_prog::{Arithmetic, Comparison, Variable};

fn label_word(label: Label) -> &'static str {
    match label {
        Label::Here => "@Here",
        Label::Pre => "@Pre",
        Label::Post => "@Post",
        Label::LoopEntry => "@LoopEntry",
    }
}

fn arithmetic_word(op: Arithmetic) -> &'static str {
    match op {
        Arithmetic::Mul => "*",
        Arithmetic::Div => "/",
        Arithmetic::Rem => "%",
        Arithmetic::Add => "+",
        Arithmetic::Sub => "-",
        Arithmetic::Shl => "<<",
        Arithmetic::Shr => ">>",
        Arithmetic::And => "&",
        Arithmetic::Xor => "^",
        Arithmetic::Or => "|",
    }
}

fn comparison_word(op: Comparison) -> &'static str {
    match op {
        Comparison::Less => "<",
        Comparison::AtMost => "<=",
        Comparison::Greater => ">",
        Comparison::AtLeast => ">=",
        Comparison::Equal => "==",
        Comparison::NotEqual => "!=",
    }
}

// Which ends are left out, as brackets.
fn range_word(range: Range) -> &'static str {
    match range {
        Range::Kind(_, _) => " kind",
        Range::Between {
            low_out,
            high_out,
            place: _,
        } => match (low_out, high_out) {
            (false, false) => "[]",
            (false, true) => "[)",
            (true, false) => "(]",
            (true, true) => "()",
        },
    }
}

// What a head without a number is.
fn plain_word(head: Head) -> &'static str {
    match head {
        Head::Null => "null",
        Head::Result => "result",
        Head::Pointed => "pointed",
        Head::Element { size: _, count: _ } => "element",
        Head::Elements { size: _, count: _ } => "elements",
        Head::Behind { size: _ } => "behind",
        Head::Address => "address",
        Head::Moved { minus, size: _ } => { if minus { "back" } else { "moved" } }
        Head::Difference { size: _ } => "difference",
        Head::Negate => "negate",
        Head::Complement => "~",
        Head::Convert(_) => "convert",
        Head::Not => "not",
        Head::And => "and",
        Head::Or => "or",
        Head::Xor => "xor",
        Head::Implies => "implies",
        Head::Iff => "iff",
        Head::Choose => "choose",
        Head::Chain => "chain",
        Head::Let => "let",
        Head::Separated => "separated",
        Head::Region(_) => "region",
        _ => "",
    }
}

fn put_variable(page: &mut Page, variable: Variable) {
    match variable {
        Variable::Global(number) => {
            page.put("g");
            page.put_number(number);
        }
        Variable::Local(number) => {
            page.put("l");
            page.put_number(number);
        }
    }
}

fn put_numbered(page: &mut Page, word: &str, number: u32) {
    page.put(word);
    page.put_number(number);
}

fn put_head(page: &mut Page, head: Head) {
    match head {
        Head::Number(number) => page.put_number(number),
        Head::Name(number) => put_numbered(page, "#", number),
        Head::Call(number) => put_numbered(page, "call ", number),
        Head::At(label) => page.put(label_word(label)),
        Head::Variable(variable) => put_variable(page, variable),
        Head::Field { number, offset: _ } => put_numbered(page, "field ", number),
        Head::Read { content: _, label } => {
            page.put("read");
            if let Some(label) = label {
                page.put(label_word(label));
            }
        }
        Head::Arithmetic(op) => page.put(arithmetic_word(op)),
        Head::Compare(op) | Head::Link(op) => page.put(comparison_word(op)),
        Head::ComparePointers(op) | Head::LinkPointers(op) => {
            page.put(comparison_word(op));
            page.put("p");
        }
        Head::Every(range) => {
            page.put("every");
            page.put(range_word(range));
        }
        Head::Some(range) => {
            page.put("some");
            page.put(range_word(range));
        }
        Head::Valid {
            content: _,
            writable,
        } => page.put(if writable { "valid" } else { "valid_read" }),
        other => page.put(plain_word(other)),
    }
}

#[cycle(trees)]
pub(crate) fn put_tree(page: &mut Page, tree: &Tree) {
    if tree.kids.len() == 0 {
        return put_head(page, tree.head);
    }
    page.put("(");
    put_head(page, tree.head);
    put_kids(page, tree.kids.as_slice());
    page.put(")");
}

/// Each behind a blank.
#[cycle(trees)]
pub(crate) fn put_kids(page: &mut Page, trees: &[Tree]) {
    for tree in trees {
        page.put(" ");
        put_tree(page, tree);
    }
}
