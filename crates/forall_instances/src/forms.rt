// The form for which a name makes one form another.
ghost use Rattle.std.specs.Prelude.{◌≡◌, ◌&&◌, true, false, int_div, int_rem, pos, option_map, Some, IfOk, MatchOption};
ghost use Rattle.std.specs.Str.{bytes_eq};
ghost use Rattle.qed_terms.specs.declared.head.Sort.TheVariants as sorts;
ghost use Rattle.qed_terms.specs.Operators.{is_equal, is_zero};
ghost use Rattle.qed_terms.specs.View.{term_tree};
ghost use Rattle.qed_terms.specs.WellFormed.{same_sort};
ghost use Rattle.qed_linear.specs.Linear.{fits};
ghost use Rattle.qed_linear.specs.View.{lin_of, part_of, parts_of};
ghost use Rattle.forall_instances.specs.Forms.{ArePartsOver, IsApart, IsPartOver, may_pass, place_in, solved_by};
ghost use Rattle.instance_rows.specs.Triggers.{divided, goes_into, goes_into_parts, is_nonzero, is_variable};

use qed_linear::{LinForm, LinPart, is_integer, subtract};
use qed_terms::{Sort, Term};
use std::alloc::Global;
use wp_base::NoMemory;

/// Which coefficients of the name pass.
#[derive(Clone, Copy)]
pub enum Passes {
    Nonzero,
    One,
}

/// A form with a name, taken apart: the coefficient of the name, and what stands beside it.
#[derive(Drop)]
pub struct Beside {
    pub times: i128,
    pub others: LinForm,
}

// ---- the part of the name

/// Whether two names are one.
pub fn is_same_name(name: &[u8], other: &[u8]) -> bool
    ensures { result ≡ bytes_eq name.now other.now }
{
    name == other
}

fn is_integer_name(name: &[u8], other: &[u8], sort: Sort) -> bool
    ensures { result ≡ (bytes_eq name.now other.now && same_sort sorts.Int sort) }
{
    match sort {
        Sort::Int => is_same_name(name, other),
        Sort::Memory | Sort::Table => false,
    }
}

#[tactic(auto, using(qed_terms::proofs::Equations::tree_laws))]
fn is_variable(name: &[u8], term: &Term) -> bool
    ensures { result ≡ is_variable name.now (term_tree term.now) }
{
    match term {
        Term::Var(other, sort) => is_integer_name(name, other.bytes(), *sort),
        Term::Num(_) => false,
        Term::Op(_, _) => false,
        Term::Ite(_, _, _) => false,
        Term::App(_, _) => false,
    }
}

fn place_in(name: &[u8], parts: &[LinPart]) -> usize
    ensures { result ≡ place_in name.now (parts_of parts.now) }
{
    for at in 0..parts.len() {
        if is_variable(name, &parts[at].atom) {
            return at;
        }
    }
    parts.len()
}

/// Takes a form apart at a name.
pub fn taken_apart(name: &[u8], form: LinForm) -> Beside
    ensures { IsApart name.now (lin_of form) result }
{
    let mut form = form;
    let at = place_in(name, form.parts.as_slice());
    if at == form.parts.len() {
        return Beside {
            times: 0,
            others: form,
        };
    }
    let part = form.parts.remove(at);
    Beside {
        times: part.times,
        others: form,
    }
}

// ---- forms divided by a number

fn is_zero(value: i128) -> bool
    ensures { result ≡ is_zero value }
{
    value == 0
}

fn is_one(value: i128) -> bool
    ensures { result ≡ is_equal value (pos 1) }
{
    value == 1
}

/// Whether a coefficient passes.
pub fn may_pass(which: Passes, times: i128) -> bool
    ensures { result ≡ may_pass which times }
{
    match which {
        Passes::Nonzero => !is_zero(times),
        Passes::One => is_one(times),
    }
}

fn remainder(by: i128, value: i128) -> i128
    requires { is_nonzero by ≡ true }
    ensures { result ≡ int_rem value by }
{
    value.wrapping_rem(by)
}

fn goes_into(by: i128, value: i128) -> bool
    requires { is_nonzero by ≡ true }
    ensures { result ≡ goes_into by value }
{
    is_zero(remainder(by, value))
}

fn goes_into_parts(by: i128, parts: &[LinPart]) -> bool
    requires { is_nonzero by ≡ true }
    ensures { result ≡ goes_into_parts by (parts_of parts.now) }
{
    for at in 0..parts.len() {
        if !goes_into(by, parts[at].times) {
            return false;
        }
    }
    true
}

fn quotient(by: i128, value: i128) -> Option<i128>
    requires { is_nonzero by ≡ true }
    ensures { MatchOption result (fits (int_div value by) ≡ false) (λ q. (q ≡ int_div value by) × (fits q ≡ true)) }
{
    value.checked_div(by)
}

fn part_over(by: i128, part: LinPart) -> Option<LinPart>
    requires { is_nonzero by ≡ true }
    ensures { IsPartOver by (part_of part) (option_map part_of result) }
{
    if !is_integer(&part.atom) {
        return None;
    }
    match quotient(by, part.times) {
        Some(times) => Some(LinPart {
            atom: part.atom,
            times,
        }),
        None => None,
    }
}

fn parts_over(
    alloc: Global,
    by: i128,
    parts: Vec<LinPart>,
) -> Result<Option<Vec<LinPart>>, NoMemory>
    requires { is_nonzero by ≡ true }
    ensures { IfOk result (λ made. ArePartsOver by (parts_of parts.items) (option_map (λ v. parts_of v.items) made)) }
{
    let mut made = Vec::new(alloc);
    for part in parts {
        match part_over(by, part) {
            Some(part) => made.push(part)?,
            None => return Ok(None),
        }
    }
    Ok(Some(made))
}

// The form divided by a number, where the number goes into all of it, and where it fits.
fn divided(alloc: Global, by: i128, form: LinForm) -> Result<Option<LinForm>, NoMemory>
    requires { is_nonzero by ≡ true }
    ensures { IfOk result (λ made. option_map lin_of made ≡ divided by (lin_of form)) }
{
    if !goes_into_parts(by, form.parts.as_slice()) {
        return Ok(None);
    }
    if !goes_into(by, form.constant) {
        return Ok(None);
    }
    match quotient(by, form.constant) {
        None => Ok(None),
        Some(constant) => {
            let parts = parts_over(alloc, by, form.parts)?;
            match parts {
                None => Ok(None),
                Some(parts) => Ok(Some(LinForm { parts, constant })),
            }
        }
    }
}

/// The form for which the name makes the form that was taken apart the other one, where its coefficient passes, and where the form fits.
pub fn solved(
    alloc: Global,
    which: Passes,
    with_name: &Beside,
    other: &LinForm,
) -> Result<Option<LinForm>, NoMemory>
    ensures { IfOk result (λ made. option_map lin_of made ≡ solved_by (may_pass which with_name.now.times) with_name.now.times (lin_of with_name.now.others) (lin_of other.now)) }
{
    if !may_pass(which, with_name.times) {
        return Ok(None);
    }
    let difference = subtract(alloc, other, &with_name.others)?;
    match difference {
        None => Ok(None),
        Some(difference) => {
            let made = divided(alloc, with_name.times, difference)?;
            Ok(made)
        }
    }
}
