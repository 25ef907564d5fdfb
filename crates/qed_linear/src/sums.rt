// Sums of linear forms, with numbers of any size on the way.
ghost use Rattle.std.specs.Prelude.{◌≡◌, true, ◌+◌, ◌<◌, ◌≤◌, Bool, pos, negsuc, ◌+ℤ◌, List, ◌∷◌, ◌++◌, [], map, length, take, drop, get_or, option_map, IfOk, OnOk};
ghost use Rattle.qed_terms.specs.View.{term_tree};
ghost use Rattle.qed_linear.specs.Linear.{part, number, add, subtract, add_all, cons_nonzero, add_part, add_parts, scale, checked, fitting};
ghost use Rattle.qed_linear.specs.Totals.{are_ordered, total_lin};
ghost use Rattle.qed_linear.specs.View.{lin_of, parts_of, signed, signed_value, IsAddedAt, wide_value, wide_parts, wide_lin};

use crate::forms::{LinForm, LinPart, is_integer, number};
use crate::totals::{add_to_total, are_ordered, no_total, summed};
use crate::wide::Wide;
use qed_terms::Term;
use std::alloc::Global;
use std::cmp::Ordering;
use wp_base::NoMemory;

/// A number of any size times an atom.
#[derive(Drop)]
pub struct WidePart {
    pub atom: Term,
    pub times: Wide,
}

/// A sum of forms on the way.
#[derive(Drop)]
pub struct WideForm {
    pub parts: Vec<WidePart>,
    pub constant: Wide,
}

// ---- one part more

// A part at this index, but none for 0.
fn insert(parts: &mut Vec<WidePart>, at: usize, atom: Term, times: Wide) -> Result<(), NoMemory>
    requires { at ≤ length parts.old.items }
    ensures { OnOk result (wide_parts parts.new.items ≡ wide_parts (take at parts.old.items) ++ cons_nonzero (term_tree atom) (wide_value times) (wide_parts (drop at parts.old.items))) }
{
    if !times.is_zero() {
        parts.insert(at, WidePart { atom, times })?;
    }
    Ok(())
}

// More of the atom at this index.
fn add_at(parts: &mut Vec<WidePart>, at: usize, times: Wide) -> Result<(), NoMemory>
    requires { at < length parts.old.items }
    ensures { OnOk result (IsAddedAt parts.old.items at (wide_value times) parts.new.items) }
{
    let part = parts.remove(at);
    let sum = times.plus(part.times)?;
    insert(parts, at, part.atom, sum)
}

// One part more, in the order of atoms.
fn add_part(parts: &mut Vec<WidePart>, atom: Term, times: Wide) -> Result<(), NoMemory>
    ensures { OnOk result (wide_parts parts.new.items ≡ add_part (term_tree atom) (wide_value times) (wide_parts parts.old.items)) }
{
    let mut at = 0;
    while at < parts.len() {
        match atom.compare(&parts[at].atom) {
            Ordering::Less => return insert(parts, at, atom, times),
            Ordering::Equal => return add_at(parts, at, times),
            Ordering::Greater => at += 1,
        }
    }
    insert(parts, at, atom, times)
}

// ---- forms

/// One part more, behind the others.
pub fn push_wide(parts: &mut Vec<WidePart>, atom: Term, times: Wide) -> Result<(), NoMemory>
    ensures { OnOk result (wide_parts parts.new.items ≡ wide_parts parts.old.items ++ part (term_tree atom) (wide_value times) ∷ []) }
{
    parts.push(WidePart { atom, times })?;
    Ok(())
}

/// One part more, behind the others.
pub fn push_part(parts: &mut Vec<LinPart>, atom: Term, times: i128) -> Result<(), NoMemory>
    ensures { OnOk result (parts_of parts.new.items ≡ parts_of parts.old.items ++ part (term_tree atom) times ∷ []) }
{
    parts.push(LinPart { atom, times })?;
    Ok(())
}

/// A number, or its negative.
pub fn widen(value: i128, negative: bool) -> Wide
    ensures { wide_value result ≡ signed_value negative value }
{
    if negative {
        Wide::negative_of(value)
    } else {
        Wide::of(value)
    }
}

// A form, or a form times -1.
fn widen_form(alloc: Global, form: &LinForm, negative: bool) -> Result<WideForm, NoMemory>
    ensures { IfOk result (λ sum. wide_lin sum ≡ signed negative (lin_of form.now)) }
{
    let mut parts = Vec::new(alloc);
    for part in &form.parts {
        let times = widen(part.times, negative);
        push_wide(&mut parts, part.atom.copy(alloc)?, times)?;
    }
    Ok(WideForm {
        parts,
        constant: widen(form.constant, negative),
    })
}

fn add_form(alloc: Global, sum: WideForm, form: &LinForm) -> Result<WideForm, NoMemory>
    ensures { IfOk result (λ more. wide_lin more ≡ add (lin_of form.now) (wide_lin sum)) }
{
    let mut parts = sum.parts;
    let mut left = form.parts.len();
    while left > 0 {
        left -= 1;
        let part = &form.parts[left];
        add_part(&mut parts, part.atom.copy(alloc)?, Wide::of(part.times))?;
    }
    let constant = Wide::of(form.constant).plus(sum.constant)?;
    Ok(WideForm { parts, constant })
}

// The form, where its atoms are integers and its numbers fit.
fn narrow(alloc: Global, sum: WideForm) -> Result<Option<LinForm>, NoMemory>
    ensures { IfOk result (λ form. option_map lin_of form ≡ checked (wide_lin sum)) }
{
    let mut parts = Vec::new(alloc);
    for part in sum.parts {
        if !is_integer(&part.atom) {
            return Ok(None);
        }
        match part.times.narrow() {
            Some(times) => push_part(&mut parts, part.atom, times)?,
            None => return Ok(None),
        }
    }
    match sum.constant.narrow() {
        Some(constant) => Ok(Some(LinForm { parts, constant })),
        None => Ok(None),
    }
}

// The form, where its numbers fit.
fn fitting(alloc: Global, sum: WideForm) -> Result<Option<LinForm>, NoMemory>
    ensures { IfOk result (λ form. option_map lin_of form ≡ fitting (wide_lin sum)) }
{
    let mut parts = Vec::new(alloc);
    for part in sum.parts {
        match part.times.narrow() {
            Some(times) => push_part(&mut parts, part.atom, times)?,
            None => return Ok(None),
        }
    }
    match sum.constant.narrow() {
        Some(constant) => Ok(Some(LinForm { parts, constant })),
        None => Ok(None),
    }
}

// The sum of two forms that are in order.
fn sum_in_order<'a>(
    alloc: Global,
    form: &'a LinForm,
    other: &'a LinForm,
    negative: bool,
) -> Result<WideForm, NoMemory>
    requires { are_ordered (parts_of other.now.parts.items) ≡ true }
    ensures { IfOk result (λ sum. wide_lin sum ≡ add (lin_of form.now) (signed negative (lin_of other.now))) }
{
    let mut total = no_total(alloc);
    add_to_total(&mut total, other, negative)?;
    add_to_total(&mut total, form, false)?;
    let sum = summed(alloc, &total)?;
    Ok(sum)
}

// A form, and another or its multiple by -1. Parts in order go through a table, others are put in one by one.
fn signed_sum(
    alloc: Global,
    form: &LinForm,
    other: &LinForm,
    negative: bool,
) -> Result<WideForm, NoMemory>
    ensures { IfOk result (λ sum. wide_lin sum ≡ add (lin_of form.now) (signed negative (lin_of other.now))) }
{
    if are_ordered(other.parts.as_slice()) {
        return sum_in_order(alloc, form, other, negative);
    }
    let sum = widen_form(alloc, other, negative)?;
    add_form(alloc, sum, form)
}

// The sum of forms.
fn sum_of<'a>(alloc: Global, forms: &'a [LinForm]) -> Result<WideForm, NoMemory>
    ensures { IfOk result (λ sum. wide_lin sum ≡ add_all (map lin_of forms.now)) }
{
    let mut total = no_total(alloc);
    let mut left = forms.len();
    while left > 0 {
        left -= 1;
        add_to_total(&mut total, &forms[left], false)?;
    }
    let sum = summed(alloc, &total)?;
    Ok(sum)
}

/// The sum of two forms, where its numbers fit.
pub fn fitting_sum(
    alloc: Global,
    left: &LinForm,
    right: &LinForm,
) -> Result<Option<LinForm>, NoMemory>
    ensures { IfOk result (λ form. option_map lin_of form ≡ fitting (add (lin_of left.now) (lin_of right.now))) }
{
    let sum = signed_sum(alloc, left, right, false)?;
    fitting(alloc, sum)
}

/// The sum of forms, where its atoms are integers and its numbers fit.
pub fn add_all(alloc: Global, forms: &[LinForm]) -> Result<Option<LinForm>, NoMemory>
    ensures { IfOk result (λ form. option_map lin_of form ≡ checked (add_all (map lin_of forms.now))) }
{
    let sum = sum_of(alloc, forms)?;
    narrow(alloc, sum)
}

/// The difference of two forms, where its numbers fit.
pub fn subtract(alloc: Global, form: &LinForm, less: &LinForm) -> Result<Option<LinForm>, NoMemory>
    ensures { IfOk result (λ difference. option_map lin_of difference ≡ checked (subtract (lin_of form.now) (lin_of less.now))) }
{
    let sum = signed_sum(alloc, form, less, true)?;
    narrow(alloc, sum)
}

/// The form times -1, where its numbers fit.
pub fn negate(alloc: Global, form: &LinForm) -> Result<Option<LinForm>, NoMemory>
    ensures { IfOk result (λ opposite. option_map lin_of opposite ≡ checked (scale (negsuc 0) (lin_of form.now))) }
{
    let sum = widen_form(alloc, form, true)?;
    narrow(alloc, sum)
}

/// The form times a number, where its numbers fit.
pub fn scaled(alloc: Global, by: i128, form: &LinForm) -> Result<Option<LinForm>, NoMemory>
    ensures { IfOk result (λ product. option_map lin_of product ≡ checked (scale by (lin_of form.now))) }
{
    if by == 0 {
        return Ok(Some(number(alloc, 0)));
    }
    let mut parts = Vec::new(alloc);
    for part in &form.parts {
        if !is_integer(&part.atom) {
            return Ok(None);
        }
        match by.checked_mul(part.times) {
            Some(times) => push_part(&mut parts, part.atom.copy(alloc)?, times)?,
            None => return Ok(None),
        }
    }
    match by.checked_mul(form.constant) {
        Some(constant) => Ok(Some(LinForm { parts, constant })),
        None => Ok(None),
    }
}
