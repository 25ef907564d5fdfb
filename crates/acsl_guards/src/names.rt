// Names, and terms that are names (ACSL 2.2).
ghost use Rattle.std.specs.Prelude.{◌≡◌, map};
ghost use Rattle.std.specs.Option.{option_copied};
ghost use Rattle.std.specs.Str.{bytes_eq};
ghost use Rattle.c_syntax.specs.View.{view_term, view_var};
ghost use Rattle.acsl_guards.specs.Mentions as spec;

use c_syntax::{Term, TermLeaf, TermShape, VarDecl};
use wp_base::Str;

pub(crate) fn same(left: &Str, right: &Str) -> bool
    ensures { result ≡ bytes_eq left.now right.now }
{
    left.bytes() == right.bytes()
}

/// The plain name that a term is, if it is one.
#[tactic(auto, using(c_syntax::proofs::Equations::term_laws))]
pub(crate) fn name_of(term: &Term) -> Option<&Str>
    ensures { option_copied result ≡ spec.name_of (view_term term.now) }
{
    match term.node.look() {
        TermShape::Leaf(TermLeaf::Name(name)) => Some(name),
        TermShape::Leaf(TermLeaf::Number(_)) => None,
        TermShape::Leaf(TermLeaf::Char(_)) => None,
        TermShape::Leaf(TermLeaf::Result) => None,
        TermShape::Leaf(TermLeaf::Null) => None,
        TermShape::One(_, _) => None,
        TermShape::Two(_, _, _) => None,
        TermShape::Cond(_, _, _) => None,
        TermShape::Call(_, _) => None,
    }
}

/// Whether a name is that of one of these binders.
pub(crate) fn is_among(binders: &[VarDecl], name: &Str) -> bool
    ensures { result ≡ spec.is_among (spec.names_of (map view_var binders.now)) name.now }
{
    for binder in binders {
        if same(name, &binder.name) {
            return true;
        }
    }
    false
}

/// Whether a term is a plain name, that of one of these binders.
pub(crate) fn is_one_of(binders: &[VarDecl], term: &Term) -> bool
    ensures { result ≡ spec.is_one_of (spec.names_of (map view_var binders.now)) (view_term term.now) }
{
    match name_of(term) {
        Some(name) => is_among(binders, name),
        None => false,
    }
}

/// Whether a term is this name.
pub(crate) fn is_name(name: &Str, term: &Term) -> bool
    ensures { result ≡ spec.is_name name.now (view_term term.now) }
{
    match name_of(term) {
        Some(other) => same(name, other),
        None => false,
    }
}
