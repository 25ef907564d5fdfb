// What the rules make of an operator over terms in normal form. Each function is a rule, or the rules of an operator in their order.
ghost use Rattle.std.specs.Prelude.{◌≡◌, pos, Some, None, map, option_map, IfOk};
ghost use Rattle.qed_terms.specs.Tree.{one, two, trees_of};
ghost use Rattle.qed_terms.specs.View.{term_tree};
ghost use Rattle.qed_terms.specs.declared.head.Head.TheVariants as h;
ghost use Rattle.qed_terms.specs.declared.head.TermOp.TheVariants as op;
ghost use Rattle.qed_numbers.specs.Numbers.{number_at, number_step, long_number, long_rule, of_one, of_two, fitted, converted, power_by, is_of_one_width, is_num, integer_where, first_some};
ghost use Rattle.qed_terms.specs.Operators as spec;

use crate::bits::{both_bits, either_bit, one_bit, turned_bits};
use crate::terms::{
    as_num, integer_where, is_converted, is_num, number_at, times_number, zero_where,
};
use crate::values::{power_of_two, quotient, remainder, shifted_right};
use c_kinds::{Machdep, convert};
use qed_terms::{Term, TermOp};
use std::alloc::Global;
use wp_base::{Kind, List, NoMemory};

// ---- operators over numbers

fn quotient_of(left: Option<i128>, right: Option<i128>) -> Option<i128>
    ensures { result ≡ fitted (of_two spec.quotient left right) }
{
    match (left, right) {
        (Some(left), Some(right)) => quotient(left, right),
        _ => None,
    }
}

#[tactic(auto, using(crate::proofs::Fitting::fitted_some))]
fn remainder_of(left: Option<i128>, right: Option<i128>) -> Option<i128>
    ensures { result ≡ fitted (of_two spec.remainder left right) }
{
    match (left, right) {
        (Some(left), Some(right)) => Some(remainder(left, right)),
        _ => None,
    }
}

#[tactic(auto, using(crate::proofs::Fitting::fitted_some))]
fn shifted_right_of(left: Option<i128>, right: Option<i128>) -> Option<i128>
    ensures { result ≡ fitted (of_two spec.shifted_right left right) }
{
    match (left, right) {
        (Some(left), Some(right)) => Some(shifted_right(left, right)),
        _ => None,
    }
}

#[tactic(auto, using(crate::proofs::Fitting::fitted_some))]
fn both_bits_of(left: Option<i128>, right: Option<i128>) -> Option<i128>
    ensures { result ≡ fitted (of_two spec.both_bits left right) }
{
    match (left, right) {
        (Some(left), Some(right)) => Some(both_bits(left, right)),
        _ => None,
    }
}

#[tactic(auto, using(crate::proofs::Fitting::fitted_some))]
fn either_bit_of(left: Option<i128>, right: Option<i128>) -> Option<i128>
    ensures { result ≡ fitted (of_two spec.either_bit left right) }
{
    match (left, right) {
        (Some(left), Some(right)) => Some(either_bit(left, right)),
        _ => None,
    }
}

#[tactic(auto, using(crate::proofs::Fitting::fitted_some))]
fn one_bit_of(left: Option<i128>, right: Option<i128>) -> Option<i128>
    ensures { result ≡ fitted (of_two spec.one_bit left right) }
{
    match (left, right) {
        (Some(left), Some(right)) => Some(one_bit(left, right)),
        _ => None,
    }
}

#[tactic(auto, using(crate::proofs::Fitting::fitted_some))]
fn turned_bits_of(number: Option<i128>) -> Option<i128>
    ensures { result ≡ fitted (of_one spec.turned_bits number) }
{
    match number {
        Some(number) => Some(turned_bits(number)),
        None => None,
    }
}

fn is_of_one_width(kind: Kind) -> bool
    ensures { result ≡ is_of_one_width kind }
{
    !matches!(kind, Kind::Long | Kind::ULong)
}

fn converted(kind: Kind, number: Option<i128>) -> Option<i128>
    ensures { result ≡ converted kind number }
{
    match number {
        Some(number) if is_of_one_width(kind) => Some(convert(Machdep::X86_64, kind, number)),
        _ => None,
    }
}

fn long_number(long_bits: u8, kind: Kind, number: i128) -> Option<i128>
    ensures { result ≡ long_number long_bits kind (Some number) }
{
    if is_of_one_width(kind) {
        return None;
    }
    if long_bits == 64 {
        return Some(convert(Machdep::X86_64, kind, number));
    }
    if long_bits == 32 {
        return Some(convert(Machdep::X86_32, kind, number));
    }
    None
}

fn power_by(by: Option<i128>) -> Option<i128>
    ensures { result ≡ power_by by }
{
    match by {
        Some(by) => power_of_two(by),
        None => None,
    }
}

// ---- the rules of each operator

fn normal_quotient(alloc: Global, left: &Term, right: &Term) -> Result<Option<Term>, NoMemory>
    ensures { IfOk result (λ term. option_map term_tree term ≡ number_step (h.Term op.Div) (two (term_tree left.now) (term_tree right.now))) }
{
    if let Some(number) = quotient_of(number_at(left), number_at(right)) {
        return Ok(Some(Term::number(number)));
    }
    if let Some(term) = integer_where(alloc, is_num(1, right), left)? {
        return Ok(Some(term));
    }
    Ok(zero_where(is_num(0, right) || is_num(0, left)))
}

fn normal_remainder(left: &Term, right: &Term) -> Option<Term>
    ensures { option_map term_tree result ≡ number_step (h.Term op.Mod) (two (term_tree left.now) (term_tree right.now)) }
{
    if let Some(number) = remainder_of(number_at(left), number_at(right)) {
        return Some(Term::number(number));
    }
    zero_where(is_num(1, right) || is_num(0, right) || is_num(0, left))
}

fn normal_conversion(alloc: Global, kind: Kind, term: &Term) -> Result<Option<Term>, NoMemory>
    ensures { IfOk result (λ normal. option_map term_tree normal ≡ number_step (h.Term (op.Wrap kind)) (one (term_tree term.now))) }
{
    if let Some(number) = converted(kind, number_at(term)) {
        return Ok(Some(Term::number(number)));
    }
    if is_converted(kind, term) {
        return Ok(Some(term.copy(alloc)?));
    }
    Ok(None)
}

fn normal_left_shift(alloc: Global, left: &Term, right: &Term) -> Result<Option<Term>, NoMemory>
    ensures { IfOk result (λ term. option_map term_tree term ≡ number_step (h.Term op.ShiftLeft) (two (term_tree left.now) (term_tree right.now))) }
{
    match power_by(number_at(right)) {
        Some(power) => Ok(Some(times_number(alloc, power, left)?)),
        None => Ok(None),
    }
}

fn normal_right_shift(alloc: Global, left: &Term, right: &Term) -> Result<Option<Term>, NoMemory>
    ensures { IfOk result (λ term. option_map term_tree term ≡ number_step (h.Term op.ShiftRight) (two (term_tree left.now) (term_tree right.now))) }
{
    if let Some(term) = integer_where(alloc, is_num(0, right), left)? {
        return Ok(Some(term));
    }
    Ok(as_num(shifted_right_of(number_at(left), number_at(right))))
}

fn normal_both_bits(left: &Term, right: &Term) -> Option<Term>
    ensures { option_map term_tree result ≡ number_step (h.Term op.BitAnd) (two (term_tree left.now) (term_tree right.now)) }
{
    if let Some(number) = both_bits_of(number_at(left), number_at(right)) {
        return Some(Term::number(number));
    }
    zero_where(is_num(0, left) || is_num(0, right))
}

// The other operand of a 0.
fn beside_zero(alloc: Global, left: &Term, right: &Term) -> Result<Option<Term>, NoMemory>
    ensures { IfOk result (λ term. option_map term_tree term ≡ first_some (integer_where (is_num (pos 0) (term_tree right.now)) (term_tree left.now)) (integer_where (is_num (pos 0) (term_tree left.now)) (term_tree right.now))) }
{
    if let Some(term) = integer_where(alloc, is_num(0, right), left)? {
        return Ok(Some(term));
    }
    integer_where(alloc, is_num(0, left), right)
}

fn normal_either_bit(alloc: Global, left: &Term, right: &Term) -> Result<Option<Term>, NoMemory>
    ensures { IfOk result (λ term. option_map term_tree term ≡ number_step (h.Term op.BitOr) (two (term_tree left.now) (term_tree right.now))) }
{
    if let Some(number) = either_bit_of(number_at(left), number_at(right)) {
        return Ok(Some(Term::number(number)));
    }
    beside_zero(alloc, left, right)
}

fn normal_one_bit(alloc: Global, left: &Term, right: &Term) -> Result<Option<Term>, NoMemory>
    ensures { IfOk result (λ term. option_map term_tree term ≡ number_step (h.Term op.BitXor) (two (term_tree left.now) (term_tree right.now))) }
{
    if let Some(number) = one_bit_of(number_at(left), number_at(right)) {
        return Ok(Some(Term::number(number)));
    }
    beside_zero(alloc, left, right)
}

fn normal_turned_bits(term: &Term) -> Option<Term>
    ensures { option_map term_tree result ≡ number_step (h.Term op.BitNot) (one (term_tree term.now)) }
{
    as_num(turned_bits_of(number_at(term)))
}

// A conversion of a number to `long` or `unsigned long`.
fn long_conversion(long_bits: u8, kind: Kind, term: &Term) -> Option<Term>
    ensures { option_map term_tree result ≡ long_rule long_bits (h.Term (op.Wrap kind)) (one (term_tree term.now)) }
{
    match number_at(term) {
        Some(number) => as_num(long_number(long_bits, kind, number)),
        None => None,
    }
}

// ---- all of them

fn at_one(alloc: Global, op: &TermOp, term: &Term) -> Result<Option<Term>, NoMemory>
    ensures { IfOk result (λ normal. option_map term_tree normal ≡ number_step (h.Term op.now) (one (term_tree term.now))) }
{
    match op {
        TermOp::Wrap(kind) => normal_conversion(alloc, *kind, term),
        TermOp::BitNot => Ok(normal_turned_bits(term)),
        TermOp::Add
        | TermOp::Sub
        | TermOp::Mul
        | TermOp::Neg
        | TermOp::Div
        | TermOp::Mod
        | TermOp::ShiftLeft
        | TermOp::ShiftRight
        | TermOp::BitAnd
        | TermOp::BitOr
        | TermOp::BitXor
        | TermOp::Load
        | TermOp::Count
        | TermOp::Len
        | TermOp::Store
        | TermOp::Alloc(_)
        | TermOp::Grow => Ok(None),
    }
}

fn at_two(alloc: Global, op: &TermOp, left: &Term, right: &Term) -> Result<Option<Term>, NoMemory>
    ensures { IfOk result (λ normal. option_map term_tree normal ≡ number_step (h.Term op.now) (two (term_tree left.now) (term_tree right.now))) }
{
    match op {
        TermOp::Div => normal_quotient(alloc, left, right),
        TermOp::Mod => Ok(normal_remainder(left, right)),
        TermOp::ShiftLeft => normal_left_shift(alloc, left, right),
        TermOp::ShiftRight => normal_right_shift(alloc, left, right),
        TermOp::BitAnd => Ok(normal_both_bits(left, right)),
        TermOp::BitOr => normal_either_bit(alloc, left, right),
        TermOp::BitXor => normal_one_bit(alloc, left, right),
        TermOp::Add
        | TermOp::Sub
        | TermOp::Mul
        | TermOp::Neg
        | TermOp::Wrap(_)
        | TermOp::BitNot
        | TermOp::Load
        | TermOp::Count
        | TermOp::Len
        | TermOp::Store
        | TermOp::Alloc(_)
        | TermOp::Grow => Ok(None),
    }
}

/// What the first rule that changes an operator over terms in normal form makes of it.
pub fn number_step(alloc: Global, op: &TermOp, kids: &[Term]) -> Result<Option<Term>, NoMemory>
    ensures { IfOk result (λ normal. option_map term_tree normal ≡ number_step (h.Term op.now) (trees_of (map term_tree kids.now))) }
{
    if kids.len() == 1 {
        return at_one(alloc, op, &kids[0]);
    }
    if kids.len() == 2 {
        return at_two(alloc, op, &kids[0], &kids[1]);
    }
    Ok(None)
}

/// What becomes of a conversion of a number to `long` or `unsigned long`, which have so many bits.
pub fn long_step(long_bits: u8, op: &TermOp, kids: &[Term]) -> Option<Term>
    ensures { option_map term_tree result ≡ long_rule long_bits (h.Term op.now) (trees_of (map term_tree kids.now)) }
{
    match op {
        TermOp::Wrap(kind) => {
            if kids.len() != 1 {
                return None;
            }
            long_conversion(long_bits, *kind, &kids[0])
        }
        TermOp::Add
        | TermOp::Sub
        | TermOp::Mul
        | TermOp::Neg
        | TermOp::Div
        | TermOp::Mod
        | TermOp::ShiftLeft
        | TermOp::ShiftRight
        | TermOp::BitAnd
        | TermOp::BitOr
        | TermOp::BitXor
        | TermOp::BitNot
        | TermOp::Load
        | TermOp::Count
        | TermOp::Len
        | TermOp::Store
        | TermOp::Alloc(_)
        | TermOp::Grow => None,
    }
}
