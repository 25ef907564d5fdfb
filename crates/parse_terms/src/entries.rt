// The entries of sets (ACSL 2.3.4): where ranges stand in a term.
ghost use Rattle.std.specs.Prelude.{◌≡◌, map};
ghost use Rattle.c_grammar.specs.Terms.{is_entry as is_entry_of};
ghost use Rattle.c_syntax.specs.Term as t;
ghost use Rattle.c_syntax.specs.View.{view_term};
ghost use Rattle.parse_terms.specs.Sets as spec;

use c_syntax::{BinOp, Term, TermNode, UnOp};
use wp_base::List;

/// Where indices and ranges stand in a term.
#[derive(Clone, Copy)]
pub struct Ranges {
    /// An index stands in it.
    pub index: bool,
    /// A range does.
    pub range: bool,
    /// No range, or one in its last pair of square brackets.
    pub last: bool,
    /// It is a range, of bounds without ranges.
    pub bare: bool,
    /// It is a sum of a term without ranges and such a range.
    pub sum: bool,
    /// It may stand in a set.
    pub entry: bool,
}

fn no_ranges() -> Ranges
    ensures { result ≡ spec.no_ranges }
{
    Ranges {
        index: false,
        range: false,
        last: true,
        bare: false,
        sum: false,
        entry: true,
    }
}

// Those of a part are those of the whole.
fn passed(of: Ranges) -> Ranges
    ensures { result ≡ spec.passed of }
{
    Ranges {
        index: of.index,
        range: of.range,
        last: of.last,
        bare: false,
        sum: false,
        entry: of.last,
    }
}

// Of two parts, one behind the other: a range of the first stands in the last brackets of both where the second has no index.
fn is_last(first: Ranges, second: Ranges) -> bool
    ensures { result ≡ (spec.joined first second).last }
{
    if first.range {
        first.last && !second.range && !second.index
    } else {
        second.last
    }
}

fn joined(first: Ranges, second: Ranges) -> Ranges
    ensures { result ≡ spec.joined first second }
{
    let last = is_last(first, second);
    Ranges {
        index: first.index || second.index,
        range: first.range || second.range,
        last,
        bare: false,
        sum: false,
        entry: last,
    }
}

fn prefixed(op: UnOp, of: Ranges) -> Ranges
    ensures { result ≡ spec.prefixed op of }
{
    let is_deref = match op {
        UnOp::Deref => true,
        _ => false,
    };
    Ranges {
        index: of.index,
        range: of.range,
        last: of.last,
        bare: false,
        sum: false,
        entry: of.last || is_deref && of.sum,
    }
}

fn summed(op: BinOp, left: Ranges, right: Ranges) -> Ranges
    ensures { result ≡ spec.summed op left right }
{
    let last = is_last(left, right);
    let is_add = match op {
        BinOp::Add => true,
        _ => false,
    };
    Ranges {
        index: left.index || right.index,
        range: left.range || right.range,
        last,
        bare: false,
        sum: is_add && !left.range && right.bare,
        entry: last,
    }
}

fn indexed(of: Ranges, at: Ranges) -> Ranges
    ensures { result ≡ spec.indexed of at }
{
    let last = !of.range && (at.bare || !at.range);
    Ranges {
        index: true,
        range: of.range || at.range,
        last,
        bare: false,
        sum: false,
        entry: last,
    }
}

fn spanned(low: Ranges, high: Ranges) -> Ranges
    ensures { result ≡ spec.spanned low high }
{
    Ranges {
        index: low.index || high.index,
        range: true,
        last: false,
        bare: !low.range && !high.range,
        sum: false,
        entry: false,
    }
}

#[cycle(ranges)]
#[tactic(auto, using(c_syntax::proofs::Equations::term_laws, crate::proofs::Ranging::ranges_laws))]
fn ranges_of(term: &Term) -> Ranges
    ensures { result ≡ spec.ranges_of (view_term term.now) }
{
    match &term.node {
        TermNode::Number(_)
        | TermNode::Char(_)
        | TermNode::Name(_)
        | TermNode::Result
        | TermNode::Null => no_ranges(),
        TermNode::Unary(op, of) => prefixed(*op, ranges_of(of.get())),
        TermNode::Binary(op, left, right) => {
            summed(*op, ranges_of(left.get()), ranges_of(right.get()))
        }
        TermNode::Cond(test, first, second) => {
            let arms = joined(ranges_of(first.get()), ranges_of(second.get()));
            joined(ranges_of(test.get()), arms)
        }
        TermNode::Call(_, args) => args_ranges(args),
        TermNode::Index(of, at) => indexed(ranges_of(of.get()), ranges_of(at.get())),
        TermNode::Field { of, .. } => passed(ranges_of(of.get())),
        TermNode::Cast(_, of) => passed(ranges_of(of.get())),
        TermNode::Old(of) => passed(ranges_of(of.get())),
        TermNode::At(of, _) => passed(ranges_of(of.get())),
        TermNode::Range(low, high) => spanned(ranges_of(low.get()), ranges_of(high.get())),
    }
}

#[cycle(ranges)]
#[tactic(auto, using(crate::proofs::Ranging::args_first))]
fn args_ranges(args: &List<Term>) -> Ranges
    ensures { result ≡ spec.args_ranges (t.terms_of (map view_term args.now)) }
{
    let mut ranges = no_ranges();
    for arg in args.as_slice() {
        ranges = joined(ranges, ranges_of(arg));
    }
    joined(ranges, no_ranges())
}

/// Whether the term may stand in a set: a range in its last pair of square brackets, or
/// `*(p + (lo .. hi))`.
#[tactic(auto, unfolding(crate::specs::Sets::ranges_of))]
pub fn is_entry(term: &Term) -> bool
    ensures { result ≡ is_entry_of (view_term term.now) }
{
    ranges_of(term).entry
}
