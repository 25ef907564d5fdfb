// The kinds of formulas that wait in a branch.
ghost use Rattle.std.specs.Prelude.{◌≡◌, map, All};
ghost use Rattle.branches.specs.Firsts.{IsFirst};
ghost use Rattle.branches.specs.Branch.{IsKind, is_kind};

use qed_terms::{Head, TermStore};

/// A literal, or what is taken apart: a conjunction, a disjunction, an existence.
#[derive(Clone, Copy, Debug, PartialEq, Eq)]
pub enum Kind {
    Literal,
    And,
    Or,
    Exists,
}

/// Whether a formula with this head is of the kind.
pub fn has_kind(kind: Kind, head: &Head) -> bool
    ensures { result ≡ is_kind kind head.now }
{
    match kind {
        Kind::Literal => !matches!(head, Head::And | Head::Or | Head::Exists(_)),
        Kind::And => matches!(head, Head::And),
        Kind::Or => matches!(head, Head::Or),
        Kind::Exists => matches!(head, Head::Exists(_)),
    }
}

/// The place of the first formula of a kind.
pub fn first_of<S: TermStore>(store: &S, ids: &[S::Id], kind: Kind) -> Option<usize>
    requires { All (S.held store.now) ids.now }
    ensures { IsFirst (IsKind kind) (map (S.tree store.now) ids.now) result }
{
    for at in 0..ids.len() {
        if has_kind(kind, store.head(ids[at])) {
            return Some(at);
        }
    }
    None
}
