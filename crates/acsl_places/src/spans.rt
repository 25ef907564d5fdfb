// Ranges in the last place of an address (ACSL 2.3.4, 2.7).
ghost use Rattle.std.specs.Prelude.{◌≡◌, option_map};
ghost use Rattle.acsl_places.specs.Spans as spec;
ghost use Rattle.c_syntax.specs.View.{view_term};

use c_syntax::{BinOp, Term, TermOne, TermShape, TermTwo, UnOp};
use wp_base::Line;

/// The ends of a range, and the line of its `..`.
#[derive(Clone, Copy)]
pub(crate) struct Span<'a> {
    pub(crate) line: Line,
    pub(crate) low: &'a Term,
    pub(crate) high: &'a Term,
}

/// What a range stands behind, with the line of the `[` or `+` between.
#[derive(Clone, Copy)]
pub(crate) struct Ranged<'a> {
    pub(crate) line: Line,
    pub(crate) base: &'a Term,
    pub(crate) span: Span<'a>,
}

#[tactic(auto, using(c_syntax::proofs::Equations::term_laws))]
fn span_of(term: &Term) -> Option<Span<'_>>
    ensures { option_map spec.view_span result ≡ spec.span_of (view_term term.now) }
{
    match term.node.look() {
        TermShape::Two(TermTwo::Range, low, high) => Some(Span {
            line: term.line,
            low: low.get(),
            high: high.get(),
        }),
        TermShape::Two(TermTwo::Binary(_), _, _) => None,
        TermShape::Two(TermTwo::Index, _, _) => None,
        TermShape::Leaf(_) => None,
        TermShape::One(_, _) => None,
        TermShape::Cond(_, _, _) => None,
        TermShape::Call(_, _) => None,
    }
}

fn range_behind<'a>(line: Line, base: &'a Term, at: &'a Term) -> Option<Ranged<'a>>
    ensures { option_map spec.view_ranged result ≡ option_map (spec.ranged line (view_term base.now)) (spec.span_of (view_term at.now)) }
{
    match span_of(at) {
        Some(span) => Some(Ranged { line, base, span }),
        None => None,
    }
}

/// `a[lo .. hi]`.
#[tactic(auto, using(c_syntax::proofs::Equations::term_laws))]
pub(crate) fn indexed_range(term: &Term) -> Option<Ranged<'_>>
    ensures { option_map spec.view_ranged result ≡ spec.indexed_range (view_term term.now) }
{
    match term.node.look() {
        TermShape::Two(TermTwo::Index, base, at) => range_behind(term.line, base.get(), at.get()),
        TermShape::Two(TermTwo::Binary(_), _, _) => None,
        TermShape::Two(TermTwo::Range, _, _) => None,
        TermShape::Leaf(_) => None,
        TermShape::One(_, _) => None,
        TermShape::Cond(_, _, _) => None,
        TermShape::Call(_, _) => None,
    }
}

fn added<'a>(line: Line, op: BinOp, base: &'a Term, at: &'a Term) -> Option<Ranged<'a>>
    ensures { option_map spec.view_ranged result ≡ spec.if_plus op (option_map (spec.ranged line (view_term base.now)) (spec.span_of (view_term at.now))) }
{
    if matches!(op, BinOp::Add) {
        range_behind(line, base, at)
    } else {
        None
    }
}

/// `p + (lo .. hi)`.
#[tactic(auto, using(c_syntax::proofs::Equations::term_laws))]
pub(crate) fn added_range(term: &Term) -> Option<Ranged<'_>>
    ensures { option_map spec.view_ranged result ≡ spec.added_range (view_term term.now) }
{
    match term.node.look() {
        TermShape::Two(TermTwo::Binary(op), base, at) => added(term.line, op, base.get(), at.get()),
        TermShape::Two(TermTwo::Index, _, _) => None,
        TermShape::Two(TermTwo::Range, _, _) => None,
        TermShape::Leaf(_) => None,
        TermShape::One(_, _) => None,
        TermShape::Cond(_, _, _) => None,
        TermShape::Call(_, _) => None,
    }
}

fn starred(op: UnOp, of: &Term) -> Option<Ranged<'_>>
    ensures { option_map spec.view_ranged result ≡ spec.if_star op (spec.added_range (view_term of.now)) }
{
    if matches!(op, UnOp::Deref) {
        added_range(of)
    } else {
        None
    }
}

/// `*(p + (lo .. hi))`, without the `*`.
#[tactic(auto, using(c_syntax::proofs::Equations::term_laws))]
pub(crate) fn starred_range(term: &Term) -> Option<Ranged<'_>>
    ensures { option_map spec.view_ranged result ≡ spec.starred_range (view_term term.now) }
{
    match term.node.look() {
        TermShape::One(TermOne::Unary(op), of) => starred(op, of.get()),
        TermShape::One(TermOne::Field { name: _, arrow: _ }, _) => None,
        TermShape::One(TermOne::Cast(_), _) => None,
        TermShape::One(TermOne::Old, _) => None,
        TermShape::One(TermOne::At(_), _) => None,
        TermShape::Leaf(_) => None,
        TermShape::Two(_, _, _) => None,
        TermShape::Cond(_, _, _) => None,
        TermShape::Call(_, _) => None,
    }
}
