// Numbers among terms, and what takes the place of a term.
ghost use Rattle.std.specs.Prelude.{◌≡◌, ℤ, option_map, IfOk};
ghost use Rattle.qed_terms.specs.View.{term_tree};
ghost use Rattle.qed_numbers.specs.Numbers.{number_at, is_num, integer_where, as_num, then_some, zero_tree, times_number, is_conversion, is_converted};

use qed_linear::is_integer;
use qed_terms::{Term, TermOp};
use std::alloc::Global;
use wp_base::{Kind, NoMemory};

/// The number that a term is.
#[tactic(auto, using(qed_terms::proofs::Equations::tree_laws))]
pub fn number_at(term: &Term) -> Option<i128>
    ensures { result ≡ number_at (term_tree term.now) }
{
    match term {
        Term::Num(value) => Some(*value),
        Term::Var(_, _) => None,
        Term::Op(_, _) => None,
        Term::Ite(_, _, _) => None,
        Term::App(_, _) => None,
    }
}

/// Whether a term is this number.
pub fn is_num(value: i128, term: &Term) -> bool
    ensures { result ≡ is_num value (term_tree term.now) }
{
    match number_at(term) {
        Some(number) => number == value,
        None => false,
    }
}

/// A copy of the term, where the test is so and it is an integer.
pub fn integer_where(alloc: Global, holds: bool, term: &Term) -> Result<Option<Term>, NoMemory>
    ensures { IfOk result (λ copy. option_map term_tree copy ≡ integer_where holds (term_tree term.now)) }
{
    if holds && is_integer(term) {
        return Ok(Some(term.copy(alloc)?));
    }
    Ok(None)
}

/// The number as a term.
#[tactic(auto, using(qed_terms::proofs::Equations::tree_laws))]
pub fn as_num(value: Option<i128>) -> Option<Term>
    ensures { option_map term_tree result ≡ as_num value }
{
    match value {
        Some(value) => Some(Term::number(value)),
        None => None,
    }
}

/// 0, where the test is so.
pub fn zero_where(holds: bool) -> Option<Term>
    ensures { option_map term_tree result ≡ then_some holds zero_tree }
{
    if holds { Some(Term::number(0)) } else { None }
}

/// The product of a number and a term.
pub fn times_number(alloc: Global, number: i128, term: &Term) -> Result<Term, NoMemory>
    ensures { IfOk result (λ product. term_tree product ≡ times_number number (term_tree term.now)) }
{
    let term = term.copy(alloc)?;
    Term::over(alloc, TermOp::Mul, Term::number(number), term)
}

fn is_conversion(kind: Kind, op: &TermOp) -> bool
    ensures { result ≡ is_conversion kind op.now }
{
    match op {
        TermOp::Wrap(other) => *other == kind,
        TermOp::Add
        | TermOp::Sub
        | TermOp::Mul
        | TermOp::Neg
        | TermOp::Div
        | TermOp::Mod
        | TermOp::ShiftLeft
        | TermOp::ShiftRight
        | TermOp::BitAnd
        | TermOp::BitOr
        | TermOp::BitXor
        | TermOp::BitNot
        | TermOp::Load
        | TermOp::Count
        | TermOp::Len
        | TermOp::Store
        | TermOp::Alloc(_)
        | TermOp::Grow => false,
    }
}

/// Whether a term is a conversion to this kind, of one term.
#[tactic(auto, using(qed_terms::proofs::Equations::tree_laws))]
pub fn is_converted(kind: Kind, term: &Term) -> bool
    ensures { result ≡ is_converted kind (term_tree term.now) }
{
    match term {
        Term::Op(op, kids) => {
            if kids.len() != 1 {
                return false;
            }
            is_conversion(kind, op)
        }
        Term::Num(_) => false,
        Term::Var(_, _) => false,
        Term::Ite(_, _, _) => false,
        Term::App(_, _) => false,
    }
}
