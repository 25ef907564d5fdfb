// Division of forms by the common divisor of their coefficients.
ghost use Rattle.std.specs.Prelude.{◌≡◌, pos, int_div, map, IfOk};
ghost use Rattle.qed_linear.specs.Linear.{gcd, common_divisor, divide_parts, rounded_up, divides, tighten, divide_exact, make_lead_positive, lead_is_negative};
ghost use Rattle.qed_linear.specs.View.{parts_of, lin_of};

use crate::forms::{LinForm, LinPart};
use crate::sums::{negate, push_part};
use std::alloc::Global;
use wp_base::NoMemory;

fn gcd(left: u128, right: u128) -> u128
    ensures { result ≡ gcd left right }
{
    let mut kept = left;
    let mut rest = right;
    while rest != 0 {
        let next = kept % rest;
        kept = rest;
        rest = next;
    }
    kept
}

/// The greatest common divisor of the coefficients.
pub fn common_divisor(parts: &[LinPart]) -> u128
    ensures { result ≡ common_divisor (parts_of parts.now) }
{
    let mut common = 0;
    let mut left = parts.len();
    while left > 0 {
        left -= 1;
        common = gcd(parts[left].times.unsigned_abs(), common);
    }
    common
}

// The quotient, rounded toward 0; 0 where the divisor is.
fn quotient(value: i128, by: u128) -> i128
    ensures { result ≡ int_div value (pos by) }
{
    if by == 1 {
        return value;
    }
    match value.unsigned_abs().checked_div(by) {
        Some(size) => {
            if value < 0 {
                -(size as i128)
            } else {
                size as i128
            }
        }
        None => 0,
    }
}

/// Whether a number is a multiple of the divisor.
pub fn divides(by: u128, value: i128) -> bool
    ensures { result ≡ divides by value }
{
    match value.unsigned_abs().checked_rem(by) {
        Some(rest) => rest == 0,
        None => value == 0,
    }
}

fn rounded_up(value: i128, by: u128) -> i128
    ensures { result ≡ rounded_up by value }
{
    let down = quotient(value, by);
    if value > 0 && by > 0 && !divides(by, value) {
        down + 1
    } else {
        down
    }
}

fn divide_parts(alloc: Global, by: u128, parts: Vec<LinPart>) -> Result<Vec<LinPart>, NoMemory>
    ensures { IfOk result (λ quotients. parts_of quotients.items ≡ divide_parts by (parts_of parts.items)) }
{
    let mut quotients = Vec::new(alloc);
    for part in parts {
        push_part(&mut quotients, part.atom, quotient(part.times, by))?;
    }
    Ok(quotients)
}

/// For a form that is at most 0: the coefficients divided by their common divisor, and the constant, rounded up.
pub fn tighten(alloc: Global, form: LinForm) -> Result<LinForm, NoMemory>
    ensures { IfOk result (λ tight_form. lin_of tight_form ≡ tighten (lin_of form)) }
{
    let by = common_divisor(form.parts.as_slice());
    let parts = divide_parts(alloc, by, form.parts)?;
    Ok(LinForm {
        parts,
        constant: rounded_up(form.constant, by),
    })
}

/// For a form that is 0, whose constant the common divisor of the coefficients divides.
pub fn divide_exact(alloc: Global, form: LinForm, by: u128) -> Result<LinForm, NoMemory>
    requires { by ≡ common_divisor (parts_of form.parts.items) }
    ensures { IfOk result (λ exact_form. lin_of exact_form ≡ divide_exact (lin_of form)) }
{
    let parts = divide_parts(alloc, by, form.parts)?;
    Ok(LinForm {
        parts,
        constant: quotient(form.constant, by),
    })
}

fn lead_is_negative(parts: &[LinPart]) -> bool
    ensures { result ≡ lead_is_negative (parts_of parts.now) }
{
    match parts.first() {
        Some(part) => part.times < 0,
        None => false,
    }
}

/// The form times -1 where its first coefficient is negative and its numbers then fit.
pub fn make_lead_positive(alloc: Global, form: LinForm) -> Result<LinForm, NoMemory>
    ensures { IfOk result (λ turned_form. lin_of turned_form ≡ make_lead_positive (lin_of form)) }
{
    if lead_is_negative(form.parts.as_slice()) {
        if let Some(opposite) = negate(alloc, &form)? {
            return Ok(opposite);
        }
    }
    Ok(form)
}
