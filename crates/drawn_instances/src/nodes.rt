// What stands at a node, as far as rows ask.
ghost use Rattle.std.specs.Prelude.{◌≡◌};
ghost use Rattle.drawn_instances.specs.Heads.{seen_at, seen_form, seen_head, seen_term};

use qed_terms::{FormOp, Head, TermOp, TermStore};
use wp_base::{CellKind, Kind};

/// The heads at which a row gives formulas, or looks for another one below.
#[derive(Clone, Copy)]
pub enum Seen {
    Not,
    Ite,
    Equal,
    Read(CellKind),
    Write(CellKind),
    Live,
    Length,
    Load,
    Store,
    Wrap(Kind),
    Div,
    Mod,
    ShiftRight,
    BitAnd,
    Other,
}

fn look_at_term(op: &TermOp) -> Seen
    ensures { result ≡ seen_term op.now }
{
    match op {
        TermOp::Load => Seen::Load,
        TermOp::Store => Seen::Store,
        TermOp::Len => Seen::Length,
        TermOp::Wrap(kind) => Seen::Wrap(*kind),
        TermOp::Div => Seen::Div,
        TermOp::Mod => Seen::Mod,
        TermOp::ShiftRight => Seen::ShiftRight,
        TermOp::BitAnd => Seen::BitAnd,
        TermOp::Add
        | TermOp::Sub
        | TermOp::Mul
        | TermOp::Neg
        | TermOp::ShiftLeft
        | TermOp::BitOr
        | TermOp::BitXor
        | TermOp::BitNot
        | TermOp::Count
        | TermOp::Alloc(_)
        | TermOp::Grow => Seen::Other,
    }
}

fn look_at_form(op: &FormOp) -> Seen
    ensures { result ≡ seen_form op.now }
{
    match op {
        FormOp::Equal => Seen::Equal,
        FormOp::Read(kind) => Seen::Read(*kind),
        FormOp::Write(kind) => Seen::Write(*kind),
        FormOp::Live => Seen::Live,
        FormOp::AtMost
        | FormOp::Less
        | FormOp::Same
        | FormOp::Has(_)
        | FormOp::WellFormed(_)
        | FormOp::Frame(_) => Seen::Other,
    }
}

fn look_at_head(head: &Head) -> Seen
    ensures { result ≡ seen_head head.now }
{
    match head {
        Head::Term(op) => look_at_term(op),
        Head::Form(op) => look_at_form(op),
        Head::Not => Seen::Not,
        Head::Ite => Seen::Ite,
        Head::Num(_)
        | Head::Var(_, _)
        | Head::App(_)
        | Head::True
        | Head::False
        | Head::And
        | Head::Or
        | Head::Imp
        | Head::Iff
        | Head::Forall(_)
        | Head::Exists(_) => Seen::Other,
    }
}

/// What stands at the node of an id.
#[tactic(auto, unfolding(crate::specs::Heads::seen_at))]
pub fn look<S: TermStore>(store: &S, id: S::Id) -> Seen
    requires { S.held store.now id }
    ensures { result ≡ seen_at (S.tree store.now id) }
{
    look_at_head(store.head(id))
}
