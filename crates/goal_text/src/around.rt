// A term or a formula as its text is put together: what stands around its kids.
ghost use Rattle.std.specs.Prelude.{◌≡◌};
ghost use Rattle.qed_terms.specs.Nodes.{node_tree};
ghost use Rattle.qed_terms.specs.declared.head.Head.TheVariants as h;
ghost use Rattle.goal_text.specs.Writer.{LooksLike, LooksLikeTree};

use goal_words::{cell_text, kind_text};
use qed_terms::{FormOp, Formula, Node, Shape, Term, TermOp};
use wp_base::Layout;

/// The text of a node without its kids.
#[derive(Clone, Copy)]
pub enum Around<'a> {
    Number(i128),
    /// A name or a truth value, without brackets.
    Word(&'a [u8]),
    /// A word and the kids.
    Plain(&'a [u8]),
    /// A word, another one, and the kids.
    Named(&'a [u8], &'a [u8]),
    /// A word, the kids, and a layout.
    Laid(&'a [u8], &'a Layout),
    /// Two memories and regions of these shapes.
    Frame(&'a [Shape]),
}

fn look_at_op(op: &TermOp) -> Around<'_>
    ensures { LooksLike result (h.Term op.now) }
{
    match op {
        TermOp::Add => Around::Plain(b"+"),
        TermOp::Sub => Around::Plain(b"-"),
        TermOp::Mul => Around::Plain(b"*"),
        TermOp::Neg => Around::Plain(b"neg"),
        TermOp::Div => Around::Plain(b"div"),
        TermOp::Mod => Around::Plain(b"mod"),
        TermOp::Wrap(kind) => Around::Named(b"wrap", kind_text(*kind)),
        TermOp::ShiftLeft => Around::Plain(b"shl"),
        TermOp::ShiftRight => Around::Plain(b"shr"),
        TermOp::BitAnd => Around::Plain(b"band"),
        TermOp::BitOr => Around::Plain(b"bor"),
        TermOp::BitXor => Around::Plain(b"bxor"),
        TermOp::BitNot => Around::Plain(b"bnot"),
        TermOp::Load => Around::Plain(b"load"),
        TermOp::Count => Around::Plain(b"count"),
        TermOp::Len => Around::Plain(b"len"),
        TermOp::Store => Around::Plain(b"store"),
        TermOp::Alloc(layout) => Around::Laid(b"alloc", layout),
        TermOp::Grow => Around::Plain(b"grow"),
    }
}

fn look_at_relation(op: &FormOp) -> Around<'_>
    ensures { LooksLike result (h.Form op.now) }
{
    match op {
        FormOp::Equal => Around::Plain(b"="),
        FormOp::AtMost => Around::Plain(b"<="),
        FormOp::Less => Around::Plain(b"<"),
        FormOp::Same => Around::Plain(b"same"),
        FormOp::Read(cell) => Around::Named(b"read", cell_text(*cell)),
        FormOp::Write(cell) => Around::Named(b"write", cell_text(*cell)),
        FormOp::Live => Around::Plain(b"live"),
        FormOp::Has(layout) => Around::Laid(b"has", layout),
        FormOp::WellFormed(cell) => Around::Named(b"wf", cell_text(*cell)),
        FormOp::Frame(shapes) => Around::Frame(shapes.as_slice()),
    }
}

/// What stands around the kids of a node.
#[tactic(auto, using(qed_terms::proofs::Equations::tree_laws, crate::proofs::Writing::look_laws))]
pub fn look(node: Node<'_>) -> Around<'_>
    ensures { LooksLikeTree result (node_tree node.entry) }
{
    match node {
        Node::Term(term) => match term {
            Term::Num(value) => Around::Number(*value),
            Term::Var(name, _) => Around::Word(name.bytes()),
            Term::Op(op, _) => look_at_op(op),
            Term::Ite(_, _, _) => Around::Plain(b"ite"),
            Term::App(name, _) => Around::Named(b"app", name.bytes()),
        },
        Node::Formula(formula) => match formula {
            Formula::True => Around::Word(b"true"),
            Formula::False => Around::Word(b"false"),
            Formula::Rel(op, _) => look_at_relation(op),
            Formula::Not(_) => Around::Plain(b"not"),
            Formula::And(_) => Around::Plain(b"and"),
            Formula::Or(_) => Around::Plain(b"or"),
            Formula::Imp(_, _) => Around::Plain(b"imp"),
            Formula::Iff(_, _) => Around::Plain(b"iff"),
            Formula::Forall(name, _, _, _) => Around::Named(b"forall", name.bytes()),
            Formula::Exists(name, _, _, _) => Around::Named(b"exists", name.bytes()),
        },
    }
}
