// The forms of literals over classes, with numbers put in, where they are within the limit.
ghost use Rattle.std.specs.Prelude.{◌≡◌, ◌+◌, ◌<◌, ◌+ℤ◌, ◌*ℤ◌, ℕ, ℤ, pos, neg_ℤ, map, OnOk, IfOk, IfSome, MatchOption};
ghost use Rattle.linear_chains.specs.Links.{turned};
ghost use Rattle.linear_chains.specs.Sums.{with_part};
ghost use Rattle.linear_chains.specs.View.{link_of};
ghost use Rattle.std.specs.Ordering.{int_eq};
ghost use Rattle.same_places.specs.Same.{at};
ghost use Rattle.branch_links.specs.BranchLinks.{IsWithin};
ghost use Rattle.wide_sums.specs.Sums.{wide_value};
ghost use Rattle.class_links.specs.ClassForms.{number_for, number_part, numbers_of, part_at, times_of, AreWithin, IsClassLink, IsNext, IsAtomOf, IsFormOf, opposite_link};

use crate::limits::within;
use crate::numbers::number_for;
use linear_chains::LinkForm;
use same_places::Part;
use std::alloc::Global;
use std::collections::HashMap;
use term_forms::Form;
use wide_sums::{Wide, product};
use wp_base::NoMemory;

fn class_of(classes: &[usize], place: usize) -> usize
    ensures { result ≡ at classes.now place }
{
    if place < classes.len() {
        classes[place]
    } else {
        0
    }
}

// ---- what numbers come to

fn times_number(part: &Part, number: &i128) -> Result<Wide, NoMemory>
    ensures { IfOk result (λ p. wide_value p ≡ part.now.1 *ℤ number.now) }
{
    let made = product(part.1, *number)?;
    Ok(made)
}

fn with_number(
    sum: Wide,
    part: &Part,
    classes: &[usize],
    numbers: &HashMap<usize, i128>,
) -> Result<Wide, NoMemory>
    ensures { IfOk result (λ more. wide_value more ≡ wide_value sum +ℤ number_part (number_for numbers.now.entries (at classes.now part.now.0)) part.now.1) }
{
    match number_for(numbers, class_of(classes, part.0)) {
        None => Ok(sum),
        Some(number) => {
            let more = sum.plus(times_number(part, &number)?)?;
            Ok(more)
        }
    }
}

/// The constant with what the parts of numbers come to.
fn constant_with(
    constant: &i128,
    parts: &[Part],
    classes: &[usize],
    numbers: &HashMap<usize, i128>,
) -> Result<Wide, NoMemory>
    ensures { IfOk result (λ sum. wide_value sum ≡ constant.now +ℤ numbers_of (at classes.now) (number_for numbers.now.entries) parts.now) }
{
    let mut sum = Wide::of(*constant);
    for part in parts {
        sum = with_number(sum, part, classes, numbers)?;
    }
    Ok(sum)
}

// ---- coefficients

/// The class of a part that isn't a number.
fn atom_class(part: &Part, classes: &[usize], numbers: &HashMap<usize, i128>) -> Option<usize>
    ensures class { IsAtomOf (part_at (at classes.now) (number_for numbers.now.entries) part.now) result }
    ensures times { IfSome result (λ d. part_at (at classes.now) (number_for numbers.now.entries) part.now d ≡ part.now.1) }
{
    let class = class_of(classes, part.0);
    match number_for(numbers, class) {
        Some(_) => None,
        None => Some(class),
    }
}

fn wide_times(part: &Part) -> Wide
    ensures { wide_value result ≡ part.now.1 }
{
    Wide::of(part.1)
}

fn with_atom(
    sum: Wide,
    part: &Part,
    class: usize,
    classes: &[usize],
    numbers: &HashMap<usize, i128>,
) -> Result<Wide, NoMemory>
    ensures { IfOk result (λ more. wide_value more ≡ wide_value sum +ℤ part_at (at classes.now) (number_for numbers.now.entries) part.now class) }
{
    let Some(own) = atom_class(part, classes, numbers) else {
        return Ok(sum)
    };
    if own != class {
        return Ok(sum);
    }
    let more = sum.plus(wide_times(part))?;
    Ok(more)
}

/// The coefficient of a class.
fn times_of(
    parts: &[Part],
    class: usize,
    classes: &[usize],
    numbers: &HashMap<usize, i128>,
) -> Result<Wide, NoMemory>
    ensures { IfOk result (λ sum. wide_value sum ≡ times_of (at classes.now) (number_for numbers.now.entries) parts.now class) }
{
    let mut sum = Wide::of(0);
    for part in parts {
        sum = with_atom(sum, part, class, classes, numbers)?;
    }
    Ok(sum)
}

/// The lesser of two, from a class on.
fn nearer(best: Option<usize>, class: Option<usize>, from: usize) -> Option<usize>
    ensures { (f g : ℕ → ℤ) → IsNext f from best → IsAtomOf g class → IsNext (λ c. f c +ℤ g c) from result }
{
    let Some(class) = class else { return best };
    if class < from {
        return best;
    }
    let Some(other) = best else {
        return Some(class)
    };
    if class < other {
        return Some(class);
    }
    Some(other)
}

/// The first class from one on that a part that isn't a number has.
fn next_class(
    parts: &[Part],
    from: usize,
    classes: &[usize],
    numbers: &HashMap<usize, i128>,
) -> Option<usize>
    ensures { IsNext (times_of (at classes.now) (number_for numbers.now.entries) parts.now) from result }
{
    let mut best = None;
    for part in parts {
        best = nearer(best, atom_class(part, classes, numbers), from);
    }
    best
}

// ---- links

fn is_zero(value: &i128) -> bool
    ensures { result ≡ int_eq value.now (pos 0) }
{
    *value == 0
}

fn put_part(form: &mut Vec<Part>, class: usize, times: &i128) -> Result<(), NoMemory>
    ensures { OnOk result (form.new.items ≡ with_part form.old.items class times.now) }
{
    if !is_zero(times) {
        form.push((class, *times))?;
    }
    Ok(())
}

/// The classes with their coefficients in order, where these are within the limit.
fn class_form(
    alloc: Global,
    parts: &[Part],
    classes: &[usize],
    numbers: &HashMap<usize, i128>,
) -> Result<Option<Vec<Part>>, NoMemory>
    ensures { IfOk result (λ o. MatchOption o (((c : ℕ) → IsWithin (times_of (at classes.now) (number_for numbers.now.entries) parts.now c)) → ⊥) (λ form. IsFormOf (times_of (at classes.now) (number_for numbers.now.entries) parts.now) form.items)) }
{
    let mut form = Vec::new(alloc);
    let mut from = 0;
    while let Some(class) = next_class(parts, from, classes, numbers) {
        let sum = times_of(parts, class, classes, numbers)?;
        let Some(times) = within(&sum) else {
            return Ok(None)
        };
        put_part(&mut form, class, &times)?;
        // A class is the number of a place, so there is one above it.
        match class.checked_add(1) {
            Some(next) => from = next,
            None => return Err(NoMemory),
        }
    }
    Ok(Some(form))
}

// Numbers within the limit can be turned.
fn turned_number(value: &i128) -> Result<i128, NoMemory>
    ensures { IfOk result (λ z. z ≡ neg_ℤ value.now) }
{
    match value.checked_neg() {
        Some(turned) => Ok(turned),
        None => Err(NoMemory),
    }
}

fn bounded(form: Vec<Part>, bound: i128) -> LinkForm
    ensures form { result.form.items ≡ form.items }
    ensures bound { result.bound ≡ bound }
{
    LinkForm { form, bound }
}

/// The link that says of a form that it is at most 0, where it is within the limit.
pub fn link_of(
    alloc: Global,
    form: &Form,
    classes: &[usize],
    numbers: &HashMap<usize, i128>,
) -> Result<Option<LinkForm>, NoMemory>
    ensures { IfOk result (λ o. MatchOption o (AreWithin (at classes.now) (number_for numbers.now.entries) form.now.parts.items form.now.constant → ⊥) (λ l. IsClassLink (at classes.now) (number_for numbers.now.entries) form.now.parts.items form.now.constant (link_of l))) }
{
    let sum = constant_with(&form.constant, form.parts.as_slice(), classes, numbers)?;
    let Some(constant) = within(&sum) else {
        return Ok(None)
    };
    let Some(made) = class_form(alloc, form.parts.as_slice(), classes, numbers)? else {
        return Ok(None)
    };
    let bound = turned_number(&constant)?;
    Ok(Some(bounded(made, bound)))
}

fn turned_part(part: &Part) -> Result<Part, NoMemory>
    ensures { IfOk result (λ p. p ≡ turned part.now) }
{
    let times = turned_number(&part.1)?;
    Ok((part.0, times))
}

fn turned_parts(alloc: Global, parts: &[Part]) -> Result<Vec<Part>, NoMemory>
    ensures { IfOk result (λ made. made.items ≡ map turned parts.now) }
{
    let mut made = Vec::new(alloc);
    for part in parts {
        made.push(turned_part(part)?)?;
    }
    Ok(made)
}

/// The link of the opposite form.
pub fn opposite(alloc: Global, link: &LinkForm) -> Result<LinkForm, NoMemory>
    ensures { IfOk result (λ l. link_of l ≡ opposite_link (link_of link.now)) }
{
    let form = turned_parts(alloc, link.form.as_slice())?;
    let bound = turned_number(&link.bound)?;
    Ok(bounded(form, bound))
}
