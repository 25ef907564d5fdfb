// Terms with a range in the last place, typed (ACSL 2.3.4, 2.7).
ghost use Rattle.std.specs.Prelude.{◌≡◌};
ghost use Rattle.acsl_names.specs.Names.{view_around};
ghost use Rattle.acsl_places.specs.Places as spec;
ghost use Rattle.acsl_places.specs.Spans.{view_ranged, view_span};
ghost use Rattle.acsl_trees.specs.Operands.{view_operand};
ghost use Rattle.c_answers.specs.Answers.{Gives};
ghost use Rattle.c_syntax.specs.View.{view_term};

use crate::spans::{Ranged, Span};
use acsl_names::{Around, Bound, Count, Reading};
use acsl_rules::{behind, elements};
use acsl_terms::{closed, typed_term};
use acsl_trees::{Operand, Sort};
use c_answers::refused;
use c_syntax::Term;
use std::alloc::Global;
use wp_base::{Line, Rule, Stop};

fn may_end(sort: &Sort) -> bool
    ensures { result ≡ spec.may_end sort.now }
{
    match sort {
        Sort::Integer(_) => true,
        Sort::Unknown => true,
        Sort::Object(ty, _) => ty.kind().is_some(),
        Sort::Pointer(_, _) => false,
    }
}

fn end_checked(line: Line, end: Operand) -> Result<Operand, Stop>
    ensures { Gives view_operand result (spec.end_checked line (view_operand end)) }
{
    if may_end(&end.sort) {
        Ok(end)
    } else {
        Err(refused(Rule::Typing, line))
    }
}

#[tactic(auto, using(c_answers::proofs::After::after_laws, c_syntax::proofs::Lines::term_line_is))]
fn end_typed(
    alloc: Global,
    around: &Around<'_>,
    names: &Bound,
    reading: Reading,
    count: &mut Count,
    term: &Term,
) -> Result<Operand, Stop>
    ensures { Gives (λ x. (view_operand x, count.new)) result (spec.end_typed (view_around around.now) names.now reading count.old (view_term term.now)) }
{
    let before = count.limit;
    let end = typed_term(alloc, around, names, reading, count, term)?;
    let end = end_checked(term.line, end);
    closed(before, before, count, end)
}

#[tactic(auto, using(c_answers::proofs::After::after_laws))]
fn ends_typed(
    alloc: Global,
    around: &Around<'_>,
    names: &Bound,
    reading: Reading,
    count: &mut Count,
    span: &Span<'_>,
) -> Result<(Operand, Operand), Stop>
    ensures { Gives (λ x. ((view_operand x.0, view_operand x.1), count.new)) result (spec.ends_typed (view_around around.now) names.now reading count.old (view_span span.now)) }
{
    let low = end_typed(alloc, around, names, reading, count, span.low)?;
    count.add_node(span.line);
    let high = end_typed(alloc, around, names, reading, count, span.high)?;
    Ok((low, high))
}

#[tactic(auto, using(c_syntax::proofs::Lines::term_line_is))]
fn reach(
    alloc: Global,
    around: &Around<'_>,
    is_index: bool,
    range: &Ranged<'_>,
    base: Operand,
    low: Operand,
    high: Operand,
) -> Result<Operand, Stop>
    ensures { Gives view_operand result (spec.reach (view_around around.now) is_index (view_ranged range.now) (view_operand base) (view_operand low) (view_operand high)) }
{
    let line = range.line;
    let low_line = range.span.low.line;
    let high_line = range.span.high.line;
    if is_index {
        elements(
            alloc,
            around.sizes,
            line,
            low_line,
            high_line,
            base,
            low,
            high,
        )
    } else {
        behind(
            alloc,
            around.sizes,
            line,
            low_line,
            high_line,
            base,
            low,
            high,
        )
    }
}

/// The objects that a range reaches, behind `[` or behind `+`.
#[tactic(auto, using(c_answers::proofs::After::after_laws))]
pub(crate) fn range_typed(
    alloc: Global,
    around: &Around<'_>,
    names: &Bound,
    reading: Reading,
    count: &mut Count,
    is_index: bool,
    range: &Ranged<'_>,
) -> Result<Operand, Stop>
    ensures { Gives (λ x. (view_operand x, count.new)) result (spec.range_typed (view_around around.now) names.now reading count.old is_index (view_ranged range.now)) }
{
    let base = typed_term(alloc, around, names, reading, count, range.base)?;
    let before = count.limit;
    count.add_node(range.line);
    let at = count.limit;
    let (low, high) = ends_typed(alloc, around, names, reading, count, &range.span)?;
    let reached = reach(alloc, around, is_index, range, base, low, high);
    closed(before, at, count, reached)
}
