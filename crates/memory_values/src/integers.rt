// Terms of integers (C11 6.5.3.3, 6.5.5 to 6.5.12).
ghost use Rattle.std.specs.Prelude.{◌≡◌};
ghost use Rattle.c_kinds.specs.Conversions.{holds_all as holds_all_of};
ghost use Rattle.c_runs.specs.Values.{kind_at as kind_at_of};
ghost use Rattle.qed_terms.specs.Tree.{Tree, equal as equal_of, not_of};
ghost use Rattle.term_drafts.specs.Drafts.{FormulaIs, TermIs};
ghost use Rattle.typed_prog.specs.Tree.{values_of};
ghost use Rattle.typed_prog.specs.View.{view_values};
ghost use Rattle.value_terms.specs.Terms as spec;
ghost use Rattle.memory_values.specs.OverSlots.{is_bool as is_bool_of};
ghost use Rattle.wp_base.specs.Kinds.{is_signed as is_signed_of};
ghost use Rattle.wp_base.specs.declared.kinds.Kind.TheVariants as kinds;

use crate::drafts::{at_most, equal, less};
use crate::terms::is_zero;
use c_kinds::{Machdep, range};
use qed_terms::TermOp;
use std::alloc::Global;
use term_drafts::{FormulaDraft, TermDraft, chosen, negation, number, over, over_one};
use typed_prog::{Arithmetic, Comparison, CoreType, Value};
use wp_base::Kind;

// ---- kinds

pub(crate) fn is_signed(kind: Kind) -> bool
    ensures { result ≡ is_signed_of kind }
{
    matches!(
        kind,
        Kind::Char | Kind::SChar | Kind::Short | Kind::Int | Kind::Long | Kind::LLong
    )
}

/// The kind of an integer; what is none has no use for it.
pub(crate) fn kind_at(ty: &CoreType) -> Kind
    ensures { result ≡ kind_at_of ty.now }
{
    match ty.kind() {
        Some(kind) => kind,
        None => Kind::Int,
    }
}

/// What an expression is converted from.
pub(crate) fn first_kind(operands: &[Value]) -> Kind
    ensures { result ≡ spec.first_kind (values_of (view_values operands.now)) }
{
    match operands.split_first() {
        Some((first, _)) => kind_at(&first.ty),
        None => Kind::Int,
    }
}

// Whether each number of the second kind is one of the first.
fn holds_all(model: Machdep, kind: Kind, other: Kind) -> bool
    ensures { result ≡ holds_all_of model kind other }
{
    let (all, some) = (range(model, kind), range(model, other));
    all.low <= some.low && some.high <= all.high
}

// ---- operators

// An unsigned result is wrapped (C11 6.2.5p9).
fn within(alloc: Global, kind: Kind, term: TermDraft) -> TermDraft
    ensures { (t : Tree) → TermIs term t → TermIs result (spec.within_term kind t) }
{
    if is_signed(kind) {
        term
    } else {
        over_one(alloc, TermOp::Wrap(kind), term)
    }
}

fn operator(op: Arithmetic) -> TermOp
    ensures { (t u : Tree) → spec.of_two result t u ≡ spec.exact_term op t u }
{
    match op {
        Arithmetic::Mul => TermOp::Mul,
        Arithmetic::Div => TermOp::Div,
        Arithmetic::Rem => TermOp::Mod,
        Arithmetic::Add => TermOp::Add,
        Arithmetic::Sub => TermOp::Sub,
        Arithmetic::Shl => TermOp::ShiftLeft,
        Arithmetic::Shr => TermOp::ShiftRight,
        Arithmetic::And => TermOp::BitAnd,
        Arithmetic::Xor => TermOp::BitXor,
        Arithmetic::Or => TermOp::BitOr,
    }
}

/// The result of an operator whatever the kind is.
#[tactic(auto, using(term_drafts::proofs::Drafted::term_as))]
pub(crate) fn exact(alloc: Global, op: Arithmetic, left: TermDraft, right: TermDraft) -> TermDraft
    ensures { (t u : Tree) → TermIs left t → TermIs right u → TermIs result (spec.exact_term op t u) }
{
    let op = operator(op);
    over(alloc, op, left, right)
}

// Whether the exact result may lie outside of the kind.
fn may_leave(op: Arithmetic) -> bool
    ensures { result ≡ spec.may_leave op }
{
    match op {
        Arithmetic::Mul | Arithmetic::Add | Arithmetic::Sub | Arithmetic::Shl => true,
        Arithmetic::Div | Arithmetic::Rem | Arithmetic::Shr => false,
        Arithmetic::And | Arithmetic::Xor | Arithmetic::Or => false,
    }
}

/// The term of an operator on two integers.
pub(crate) fn arithmetic(
    alloc: Global,
    kind: Kind,
    op: Arithmetic,
    left: TermDraft,
    right: TermDraft,
) -> TermDraft
    ensures { (t u : Tree) → TermIs left t → TermIs right u → TermIs result (spec.arithmetic_term kind op t u) }
{
    let made = exact(alloc, op, left, right);
    if may_leave(op) {
        within(alloc, kind, made)
    } else {
        made
    }
}

/// Unary `-` and `~`, wrapped where the kind is unsigned.
pub(crate) fn unary(alloc: Global, kind: Kind, op: TermOp, term: TermDraft) -> TermDraft
    ensures { (t : Tree) → TermIs term t → TermIs result (spec.within_term kind (spec.of_one op t)) }
{
    let made = over_one(alloc, op, term);
    within(alloc, kind, made)
}

// The two differ.
fn different(alloc: Global, left: TermDraft, right: TermDraft) -> FormulaDraft
    ensures { (t u : Tree) → TermIs left t → TermIs right u → FormulaIs result (not_of (equal_of t u)) }
{
    negation(alloc, equal(alloc, left, right))
}

/// A comparison of two integers.
pub(crate) fn comparison(
    alloc: Global,
    how: Comparison,
    left: TermDraft,
    right: TermDraft,
) -> FormulaDraft
    ensures { (t u : Tree) → TermIs left t → TermIs right u → FormulaIs result (spec.comparison how t u) }
{
    match how {
        Comparison::Less => less(alloc, left, right),
        Comparison::AtMost => at_most(alloc, left, right),
        Comparison::Greater => less(alloc, right, left),
        Comparison::AtLeast => at_most(alloc, right, left),
        Comparison::Equal => equal(alloc, left, right),
        Comparison::NotEqual => different(alloc, left, right),
    }
}

// ---- conversions

// 0 for 0, and else 1 (C11 6.3.1.2).
fn as_bool(alloc: Global, term: TermDraft) -> TermDraft
    ensures { (t : Tree) → TermIs term t → TermIs result (spec.narrowed kinds.Bool t) }
{
    chosen(alloc, is_zero(alloc, term), number(0), number(1))
}

fn is_bool(kind: Kind) -> bool
    ensures { result ≡ is_bool_of kind }
{
    matches!(kind, Kind::Bool)
}

// To a kind that doesn't hold all numbers of the other one (C11 6.3.1.3).
#[tactic(auto, using(crate::proofs::Narrowing::to_bool, crate::proofs::Narrowing::wrapped))]
fn narrowed(alloc: Global, kind: Kind, term: TermDraft) -> TermDraft
    ensures { (t : Tree) → TermIs term t → TermIs result (spec.narrowed kind t) }
{
    if is_bool(kind) {
        as_bool(alloc, term)
    } else {
        over_one(alloc, TermOp::Wrap(kind), term)
    }
}

/// A conversion between kinds.
pub(crate) fn converted(
    alloc: Global,
    model: Machdep,
    to: Kind,
    from: Kind,
    term: TermDraft,
) -> TermDraft
    ensures { (t : Tree) → TermIs term t → TermIs result (spec.converted_term model to from t) }
{
    if holds_all(model, to, from) {
        term
    } else {
        narrowed(alloc, to, term)
    }
}
