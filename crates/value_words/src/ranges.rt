// Formulas that say where numbers lie, and the items of operators on integers (C11 6.5.3.3, 6.5.5 to 6.5.12).
ghost use Rattle.std.specs.Prelude.{◌≡◌, ◌∷◌, [], ◌&&◌, pos};
ghost use Rattle.c_kinds.specs.Models.{high as high_of, low as low_of};
ghost use Rattle.c_kinds.specs.Numbers.{bits as bits_of};
ghost use Rattle.c_runs.specs.Operators.{divzero, overflow, shift};
ghost use Rattle.qed_terms.specs.Tree.{Tree, and_of, at_most as at_most_of, equal as equal_of, not_of, num};
ghost use Rattle.qed_terms.specs.View.{term_tree};
ghost use Rattle.c_runs.specs.Checks.{here, may_be_minus_one as may_be_minus_one_of, may_be_zero as may_be_zero_of};
ghost use Rattle.term_drafts.specs.Drafts.{FormulaIs, TermIs};
ghost use Rattle.value_terms.specs.Readings.{number_term, term_at};
ghost use Rattle.value_terms.specs.Terms.{exact_term};
ghost use Rattle.value_terms.specs.Words as spec;
ghost use Rattle.value_words.specs.Drafts.{Pushes};
ghost use Rattle.value_words.specs.OverSlots.{is_minus_one as is_minus_one_of};
ghost use Rattle.value_words.specs.View.{view_terms};
ghost use Rattle.wp_base.specs.Kinds.{is_signed as is_signed_of};

use crate::drafts::{at_most, equal, less};
use crate::integers::{exact, is_signed};
use crate::items::{Item, push_asked, push_known};
use crate::terms::{ValueTerm, operand_number};
use c_kinds::{Machdep, bits, range};
use check_lists::Undefined;
use qed_terms::{Term, TermOp};
use std::alloc::Global;
use term_drafts::{FormulaDraft, TermDraft, conjunction, copied, negation, number, over};
use typed_prog::Arithmetic;
use value_facts::{may_be_minus_one, may_be_zero};
use wp_base::{Kind, Line, NoMemory};

// ---- formulas

// A number isn't below the least one of the kind.
fn from_low(alloc: Global, model: Machdep, kind: Kind, term: &Term) -> FormulaDraft
    ensures { FormulaIs result (at_most_of (num (low_of model kind)) (term_tree term.now)) }
{
    at_most(alloc, number(range(model, kind).low), copied(alloc, term))
}

// Nor above the greatest one.
fn up_to_high(alloc: Global, model: Machdep, kind: Kind, term: &Term) -> FormulaDraft
    ensures { FormulaIs result (at_most_of (term_tree term.now) (num (high_of model kind))) }
{
    at_most(alloc, copied(alloc, term), number(range(model, kind).high))
}

// The kind holds the number.
#[tactic(auto, using(term_drafts::proofs::Drafted::no_formula))]
fn held(alloc: Global, model: Machdep, kind: Kind, term: TermDraft) -> FormulaDraft
    ensures { (t : Tree) → TermIs term t → FormulaIs result (spec.held_term model kind t) }
{
    let term = term?;
    let low = from_low(alloc, model, kind, &term);
    let high = up_to_high(alloc, model, kind, &term);
    conjunction(alloc, low, high)
}

/// An operand is a number from 0 up to below this one.
pub(crate) fn is_below(alloc: Global, terms: &[ValueTerm], at: usize, count: u32) -> FormulaDraft
    ensures { FormulaIs result (spec.is_below_term (number_term (term_at (view_terms terms.now) at)) count) }
{
    let low = at_most(alloc, number(0), operand_number(alloc, terms, at));
    let high = less(
        alloc,
        operand_number(alloc, terms, at),
        number(i128::from(count)),
    );
    conjunction(alloc, low, high)
}

// An operand is this number.
fn is_number(alloc: Global, terms: &[ValueTerm], at: usize, value: i128) -> FormulaDraft
    ensures { FormulaIs result (equal_of (number_term (term_at (view_terms terms.now) at)) (num value)) }
{
    equal(alloc, operand_number(alloc, terms, at), number(value))
}

// An operand isn't this number.
fn is_not(alloc: Global, terms: &[ValueTerm], at: usize, value: i128) -> FormulaDraft
    ensures { FormulaIs result (not_of (equal_of (number_term (term_at (view_terms terms.now) at)) (num value))) }
{
    negation(alloc, is_number(alloc, terms, at, value))
}

// The two operands aren't these numbers both.
fn are_not(alloc: Global, terms: &[ValueTerm], first: i128, second: i128) -> FormulaDraft
    ensures { let ts = view_terms terms.now in FormulaIs result (not_of (and_of (equal_of (number_term (term_at ts 0)) (num first) ∷ equal_of (number_term (term_at ts 1)) (num second) ∷ []))) }
{
    let first = is_number(alloc, terms, 0, first);
    let second = is_number(alloc, terms, 1, second);
    negation(alloc, conjunction(alloc, first, second))
}

// The divisor is -1 as spelled.
fn is_minus_one(divisor: Option<i128>) -> bool
    ensures { result ≡ is_minus_one_of divisor }
{
    match divisor {
        Some(number) => number == -1,
        None => false,
    }
}

// The dividend isn't the least number of the kind, or the divisor isn't -1.
#[tactic(auto, using(crate::proofs::Dividing::by_minus_one, crate::proofs::Dividing::by_another))]
fn quotient_fits(
    alloc: Global,
    model: Machdep,
    kind: Kind,
    divisor: Option<i128>,
    terms: &[ValueTerm],
) -> FormulaDraft
    ensures { let ts = view_terms terms.now in FormulaIs result (spec.quotient_fits_term model kind divisor (number_term (term_at ts 0)) (number_term (term_at ts 1))) }
{
    let low = range(model, kind).low;
    if is_minus_one(divisor) {
        is_not(alloc, terms, 0, low)
    } else {
        are_not(alloc, terms, low, -1)
    }
}

// A number from 0 up is shifted to the left, and the kind holds the result.
fn shift_fits(alloc: Global, model: Machdep, kind: Kind, terms: &[ValueTerm]) -> FormulaDraft
    ensures { let ts = view_terms terms.now in FormulaIs result (spec.shift_fits_term model kind (number_term (term_at ts 0)) (number_term (term_at ts 1))) }
{
    let low = at_most(alloc, number(0), operand_number(alloc, terms, 0));
    let left = operand_number(alloc, terms, 0);
    let right = operand_number(alloc, terms, 1);
    let shifted = over(alloc, TermOp::ShiftLeft, left, right);
    let high = at_most(alloc, shifted, number(range(model, kind).high));
    conjunction(alloc, low, high)
}

// ---- items

/// An overflow is asked.
pub(crate) fn push_held(
    alloc: Global,
    model: Machdep,
    kind: Kind,
    line: Line,
    term: TermDraft,
    out: &mut Vec<Item>,
) -> Result<(), NoMemory>
    ensures { (t : Tree) → TermIs term t → Pushes result out.old.items out.new.items (spec.asked (here overflow line) (spec.held_term model kind t) ∷ []) }
{
    let held = held(alloc, model, kind, term);
    push_asked(Undefined::Overflow, line, held, out)
}

// The ends of the kind around a number are known.
#[tactic(auto, using(crate::proofs::Adding::one_before, crate::proofs::Adding::wants))]
fn push_ends(
    alloc: Global,
    model: Machdep,
    kind: Kind,
    term: &Term,
    out: &mut Vec<Item>,
) -> Result<(), NoMemory>
    ensures { Pushes result out.old.items out.new.items (spec.range_facts model kind (term_tree term.now)) }
{
    push_known(from_low(alloc, model, kind, term), out)?;
    push_known(up_to_high(alloc, model, kind, term), out)
}

/// It is known that the kind holds the number.
#[tactic(auto, using(crate::proofs::Adding::wants))]
pub(crate) fn push_range(
    alloc: Global,
    model: Machdep,
    kind: Kind,
    term: TermDraft,
    out: &mut Vec<Item>,
) -> Result<(), NoMemory>
    ensures { (t : Tree) → TermIs term t → Pushes result out.old.items out.new.items (spec.range_facts model kind t) }
{
    let term = term?;
    push_ends(alloc, model, kind, &term, out)
}

// The divisor isn't 0, where it may be.
#[tactic(auto, using(crate::proofs::Adding::asked_laws))]
fn push_divisor(
    alloc: Global,
    line: Line,
    divisor: Option<i128>,
    terms: &[ValueTerm],
    out: &mut Vec<Item>,
) -> Result<(), NoMemory>
    ensures { Pushes result out.old.items out.new.items (spec.asked_if (may_be_zero_of divisor) divzero line (not_of (equal_of (number_term (term_at (view_terms terms.now) 1)) (num (pos 0))))) }
{
    if may_be_zero(divisor) {
        push_asked(Undefined::DivZero, line, is_not(alloc, terms, 1, 0), out)
    } else {
        Ok(())
    }
}

// Whether a quotient may leave the kind.
fn may_leave(kind: Kind, divisor: Option<i128>) -> bool
    ensures { result ≡ (is_signed_of kind && may_be_minus_one_of divisor) }
{
    is_signed(kind) && may_be_minus_one(divisor)
}

// The quotient is one of the kind, where it may not be.
#[tactic(auto, using(crate::proofs::Adding::asked_laws))]
fn push_quotient(
    alloc: Global,
    model: Machdep,
    kind: Kind,
    line: Line,
    divisor: Option<i128>,
    terms: &[ValueTerm],
    out: &mut Vec<Item>,
) -> Result<(), NoMemory>
    ensures { let ts = view_terms terms.now in Pushes result out.old.items out.new.items (spec.asked_if (is_signed_of kind && may_be_minus_one_of divisor) overflow line (spec.quotient_fits_term model kind divisor (number_term (term_at ts 0)) (number_term (term_at ts 1)))) }
{
    if may_leave(kind, divisor) {
        let fits = quotient_fits(alloc, model, kind, divisor, terms);
        push_asked(Undefined::Overflow, line, fits, out)
    } else {
        Ok(())
    }
}

#[tactic(auto, using(crate::proofs::Adding::both_push, crate::proofs::Adding::wants))]
fn push_division(
    alloc: Global,
    model: Machdep,
    kind: Kind,
    line: Line,
    divisor: Option<i128>,
    terms: &[ValueTerm],
    out: &mut Vec<Item>,
) -> Result<(), NoMemory>
    ensures { let ts = view_terms terms.now in Pushes result out.old.items out.new.items (spec.division_items model kind line divisor (number_term (term_at ts 0)) (number_term (term_at ts 1))) }
{
    push_divisor(alloc, line, divisor, terms, out)?;
    push_quotient(alloc, model, kind, line, divisor, terms, out)
}

// The amount of a shift.
fn push_amount(
    alloc: Global,
    model: Machdep,
    kind: Kind,
    line: Line,
    terms: &[ValueTerm],
    out: &mut Vec<Item>,
) -> Result<(), NoMemory>
    ensures { Pushes result out.old.items out.new.items (spec.asked (here shift line) (spec.is_below_term (number_term (term_at (view_terms terms.now) 1)) (bits_of model kind)) ∷ []) }
{
    let count = bits(model, kind);
    push_asked(
        Undefined::Shift,
        line,
        is_below(alloc, terms, 1, count),
        out,
    )
}

// A shift to the left of a kind with a sign.
#[tactic(auto, using(crate::proofs::Adding::asked_laws))]
fn push_shifted(
    alloc: Global,
    model: Machdep,
    kind: Kind,
    line: Line,
    terms: &[ValueTerm],
    out: &mut Vec<Item>,
) -> Result<(), NoMemory>
    ensures { let ts = view_terms terms.now in Pushes result out.old.items out.new.items (spec.asked_if (is_signed_of kind) overflow line (spec.shift_fits_term model kind (number_term (term_at ts 0)) (number_term (term_at ts 1)))) }
{
    if is_signed(kind) {
        let fits = shift_fits(alloc, model, kind, terms);
        push_asked(Undefined::Overflow, line, fits, out)
    } else {
        Ok(())
    }
}

#[tactic(auto, using(crate::proofs::Adding::one_before, crate::proofs::Adding::wants))]
fn push_left_shift(
    alloc: Global,
    model: Machdep,
    kind: Kind,
    line: Line,
    terms: &[ValueTerm],
    out: &mut Vec<Item>,
) -> Result<(), NoMemory>
    ensures { let ts = view_terms terms.now in Pushes result out.old.items out.new.items (spec.asked (here shift line) (spec.is_below_term (number_term (term_at ts 1)) (bits_of model kind)) ∷ spec.asked_if (is_signed_of kind) overflow line (spec.shift_fits_term model kind (number_term (term_at ts 0)) (number_term (term_at ts 1)))) }
{
    push_amount(alloc, model, kind, line, terms, out)?;
    push_shifted(alloc, model, kind, line, terms, out)
}

// The exact result of an operator on the operands.
fn exact_of(alloc: Global, op: Arithmetic, terms: &[ValueTerm]) -> TermDraft
    ensures { let ts = view_terms terms.now in TermIs result (exact_term op (number_term (term_at ts 0)) (number_term (term_at ts 1))) }
{
    let left = operand_number(alloc, terms, 0);
    let right = operand_number(alloc, terms, 1);
    exact(alloc, op, left, right)
}

// The exact result is one of the kind, where this has a sign.
#[tactic(auto, using(crate::proofs::Adding::asked_laws))]
fn push_exact(
    alloc: Global,
    model: Machdep,
    kind: Kind,
    line: Line,
    op: Arithmetic,
    terms: &[ValueTerm],
    out: &mut Vec<Item>,
) -> Result<(), NoMemory>
    ensures { let ts = view_terms terms.now in Pushes result out.old.items out.new.items (spec.asked_if (is_signed_of kind) overflow line (spec.held_term model kind (exact_term op (number_term (term_at ts 0)) (number_term (term_at ts 1))))) }
{
    if is_signed(kind) {
        let exact = exact_of(alloc, op, terms);
        push_held(alloc, model, kind, line, exact, out)
    } else {
        Ok(())
    }
}

// The result is known to be one of the kind.
fn push_bits(
    alloc: Global,
    model: Machdep,
    kind: Kind,
    op: Arithmetic,
    terms: &[ValueTerm],
    out: &mut Vec<Item>,
) -> Result<(), NoMemory>
    ensures { let ts = view_terms terms.now in Pushes result out.old.items out.new.items (spec.range_facts model kind (exact_term op (number_term (term_at ts 0)) (number_term (term_at ts 1)))) }
{
    push_range(alloc, model, kind, exact_of(alloc, op, terms), out)
}

/// The items of an operator on two integers.
pub(crate) fn push_arithmetic(
    alloc: Global,
    model: Machdep,
    kind: Kind,
    line: Line,
    op: Arithmetic,
    divisor: Option<i128>,
    terms: &[ValueTerm],
    out: &mut Vec<Item>,
) -> Result<(), NoMemory>
    ensures { let ts = view_terms terms.now in Pushes result out.old.items out.new.items (spec.arithmetic_items model kind line op divisor (number_term (term_at ts 0)) (number_term (term_at ts 1))) }
{
    match op {
        Arithmetic::Mul => push_exact(alloc, model, kind, line, Arithmetic::Mul, terms, out),
        Arithmetic::Add => push_exact(alloc, model, kind, line, Arithmetic::Add, terms, out),
        Arithmetic::Sub => push_exact(alloc, model, kind, line, Arithmetic::Sub, terms, out),
        Arithmetic::And => push_bits(alloc, model, kind, Arithmetic::And, terms, out),
        Arithmetic::Xor => push_bits(alloc, model, kind, Arithmetic::Xor, terms, out),
        Arithmetic::Or => push_bits(alloc, model, kind, Arithmetic::Or, terms, out),
        Arithmetic::Div => push_division(alloc, model, kind, line, divisor, terms, out),
        Arithmetic::Rem => push_division(alloc, model, kind, line, divisor, terms, out),
        Arithmetic::Shl => push_left_shift(alloc, model, kind, line, terms, out),
        Arithmetic::Shr => push_amount(alloc, model, kind, line, terms, out),
    }
}
