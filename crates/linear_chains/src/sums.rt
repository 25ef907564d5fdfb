// Sums of three links: the form that two of them lack is looked up in a table of the least bounds.
ghost use Rattle.std.specs.Prelude.{◌≡◌, ℕ, ◌+◌, ◌<◌, ◌+ℤ◌, ◌≤ℤ◌, pos, neg_ℤ, map, drop, length, OnOk, IfOk, IfSome, MatchOption};
ghost use Rattle.std.specs.Bool.{MatchBool};
ghost use Rattle.std.specs.Prelude.{[], ◌∷◌, ◌⊎◌, false, option_map};
ghost use Rattle.linear_chains.specs.Links.{Form, IsOrdered};
ghost use Rattle.linear_chains.specs.Chains.{AllDiffer, AreOrdered, IsShortSum, bounds_of};
ghost use Rattle.linear_chains.specs.Sums.{IsOpposite, Begins, IsFrom, IsFirst, Takes, with_part, IsLeast, NoThird, NoSumOfThree, ThreeMake, HasPlaces, Has, Lacks, first_of, BeginApart};
ghost use Rattle.linear_chains.specs.Tables.{place_in};
ghost use Rattle.linear_chains.specs.View.{link_of, same_link, total_of, MakeAt};

use crate::checks::place_of;
use crate::links::{LinkForm, Part, Refutation};
use std::alloc::Global;
use std::collections::HashMap;
use wp_base::NoMemory;

// ---- the form that two forms lack

fn class_at(form: &[Part], at: usize) -> Option<usize>
    ensures { MatchOption result (drop at form.now ≡ []) (λ c. Begins c (drop at form.now)) }
{
    if at < form.len() {
        Some(form[at].0)
    } else {
        None
    }
}

/// The least class of two forms from these places on.
fn first_class(left: &[Part], i: usize, right: &[Part], j: usize) -> Option<usize>
    ensures { MatchOption result ((drop i left.now ≡ []) × (drop j right.now ≡ [])) (IsFirst (drop i left.now) (drop j right.now)) }
{
    match class_at(left, i) {
        None => class_at(right, j),
        Some(one) => match class_at(right, j) {
            None => Some(one),
            Some(other) => { if one <= other { Some(one) } else { Some(other) } }
        },
    }
}

/// The coefficient of a class, and the place behind it.
#[derive(Clone, Copy)]
struct Taken {
    times: i128,
    next: usize,
}

fn taken_part(part: &Part, next: usize) -> Taken
    ensures times { result.times ≡ part.now.1 }
    ensures next { result.next ≡ next }
{
    Taken {
        times: part.1,
        next,
    }
}

fn take_class(form: &[Part], at: usize, class: usize) -> Taken
    requires from { IsFrom class (drop at form.now) }
    requires ordered { IsOrdered (drop at form.now) }
    ensures { Takes (drop at form.now) class result.times (drop result.next form.now) }
{
    if at >= form.len() {
        return Taken { times: 0, next: at };
    }
    let part = &form[at];
    if part.0 == class {
        taken_part(part, at + 1)
    } else {
        Taken { times: 0, next: at }
    }
}

fn lacking(left: &Taken, right: &Taken) -> Option<Taken>
    ensures { IfSome result (λ less. less.times ≡ neg_ℤ (left.now.times +ℤ right.now.times)) }
{
    let sum = left.times.checked_add(right.times)?;
    let times = sum.checked_neg()?;
    Some(Taken { times, next: 0 })
}

// There is no memory for a coefficient beyond 128 bits.
fn put_lacking(
    form: &mut Vec<Part>,
    class: usize,
    left: &Taken,
    right: &Taken,
) -> Result<(), NoMemory>
    ensures { OnOk result (form.new.items ≡ with_part form.old.items class (neg_ℤ (left.now.times +ℤ right.now.times))) }
{
    let Some(less) = lacking(left, right) else {
        return Err(NoMemory)
    };
    if less.times != 0 {
        form.push((class, less.times))?;
    }
    Ok(())
}

/// The form that, added to these two, leaves nothing.
fn opposite(alloc: Global, left: &[Part], right: &[Part]) -> Result<Vec<Part>, NoMemory>
    requires left { IsOrdered left.now }
    requires right { IsOrdered right.now }
    ensures { IfOk result (λ form. IsOpposite left.now right.now form.items) }
{
    let mut form = Vec::new(alloc);
    let mut i = 0;
    let mut j = 0;
    while let Some(class) = first_class(left, i, right, j) {
        let from_left = take_class(left, i, class);
        let from_right = take_class(right, j, class);
        put_lacking(&mut form, class, &from_left, &from_right)?;
        i = from_left.next;
        j = from_right.next;
    }
    Ok(form)
}

// ---- the least bound of each form

fn is_no_larger(link: &LinkForm, than: &LinkForm) -> bool
    ensures { MatchBool result (link.now.bound ≤ℤ than.now.bound) (than.now.bound ≤ℤ link.now.bound) }
{
    link.bound <= than.bound
}

/// The table has a link of this form whose bound is no larger.
fn has_least(table: &HashMap<Vec<Part>, usize>, links: &[LinkForm], link: &LinkForm) -> bool
    requires { HasPlaces (map link_of links.now) (place_in table.now.entries) }
    ensures { MatchBool result (Has (map link_of links.now) (place_in table.now.entries) (link_of link.now)) (Lacks (map link_of links.now) (place_in table.now.entries) (link_of link.now)) }
{
    match place_of(table, link.form.as_slice()) {
        Some(other) => is_no_larger(&links[other], link),
        None => false,
    }
}

fn put_place(
    alloc: Global,
    table: &mut HashMap<Vec<Part>, usize>,
    form: &[Part],
    place: usize,
) -> Result<(), NoMemory>
    ensures new { OnOk result (place_in table.new.entries form.now ≡ Some place) }
    ensures others { OnOk result ((f : Form) → (f ≡ form.now) ⊎ (place_in table.new.entries f ≡ place_in table.old.entries f)) }
{
    let form = Vec::from_slice(alloc, form)?;
    table.insert(form, place)?;
    Ok(())
}

/// One link more in the table.
fn note(
    alloc: Global,
    table: &mut HashMap<Vec<Part>, usize>,
    links: &[LinkForm],
    place: usize,
) -> Result<(), NoMemory>
    requires place { place < length links.now }
    requires table { IsLeast (map link_of links.now) place (place_in table.old.entries) }
    ensures { OnOk result (IsLeast (map link_of links.now) (place + 1) (place_in table.new.entries)) }
{
    let link = &links[place];
    if has_least(table, links, link) {
        return Ok(());
    }
    put_place(alloc, table, link.form.as_slice(), place)?;
    Ok(())
}

fn least_bounds(alloc: Global, links: &[LinkForm]) -> Result<HashMap<Vec<Part>, usize>, NoMemory>
    ensures { IfOk result (λ table. IsLeast (map link_of links.now) (length links.now) (place_in table.entries)) }
{
    let mut table = HashMap::new(alloc);
    for place in 0..links.len() {
        note(alloc, &mut table, links, place)?;
    }
    Ok(table)
}

// ---- three links

fn same_link(left: &LinkForm, right: &LinkForm) -> bool
    ensures { result ≡ same_link (link_of left.now) (link_of right.now) }
{
    left.form.as_slice() == right.form.as_slice() && left.bound == right.bound
}

fn all_differ(first: &LinkForm, second: &LinkForm, third: &LinkForm) -> bool
    ensures { MatchBool result (AllDiffer (link_of first.now ∷ link_of second.now ∷ link_of third.now ∷ [])) (AllDiffer (link_of first.now ∷ link_of second.now ∷ link_of third.now ∷ []) → ⊥) }
{
    if same_link(first, second) {
        return false;
    }
    if same_link(first, third) {
        return false;
    }
    !same_link(second, third)
}

/// A sum of bounds.
#[derive(Clone, Copy)]
pub struct Sum {
    total: i128,
}

fn sum_of(first: &LinkForm, second: &LinkForm, third: &LinkForm) -> Option<Sum>
    ensures { IfSome result (λ sum. sum.total ≡ bounds_of (link_of first.now ∷ link_of second.now ∷ link_of third.now ∷ [])) }
{
    let two = second.bound.checked_add(third.bound)?;
    let total = first.bound.checked_add(two)?;
    Some(Sum { total })
}

/// The sum of the bounds of three links, where they differ and it is below 0. There is no memory for one beyond 128 bits.
fn sum_of_three(
    first: &LinkForm,
    second: &LinkForm,
    third: &LinkForm,
) -> Result<Option<Sum>, NoMemory>
    ensures { IfOk result (λ o. ThreeMake (link_of first.now) (link_of second.now) (link_of third.now) (option_map total_of o)) }
{
    if !all_differ(first, second, third) {
        return Ok(None);
    }
    let Some(sum) = sum_of(first, second, third) else {
        return Err(NoMemory)
    };
    if sum.total >= 0 {
        Ok(None)
    } else {
        Ok(Some(sum))
    }
}

fn at_places(alloc: Global, sum: &Sum, i: usize, j: usize, k: usize) -> Result<Refutation, NoMemory>
    ensures { IfOk result (λ r. (r.places.items ≡ i ∷ j ∷ k ∷ []) × (r.total ≡ sum.now.total)) }
{
    let mut places = Vec::new(alloc);
    places.push(i)?;
    places.push(j)?;
    places.push(k)?;
    Ok(Refutation {
        places,
        total: sum.total,
    })
}

/// What the links at three places make.
fn sum_at(
    alloc: Global,
    links: &[LinkForm],
    i: usize,
    j: usize,
    k: usize,
) -> Result<Option<Refutation>, NoMemory>
    requires first { i < length links.now }
    requires second { j < length links.now }
    requires third { k < length links.now }
    ensures { IfOk result (λ o. MakeAt (map link_of links.now) i j k o) }
{
    match sum_of_three(&links[i], &links[j], &links[k])? {
        None => Ok(None),
        Some(sum) => {
            let made = at_places(alloc, &sum, i, j, k)?;
            Ok(Some(made))
        }
    }
}

/// Whether two forms begin with one class, or one of them has none. Of three forms that leave nothing two begin with one class.
fn begin_alike(left: &[Part], right: &[Part]) -> bool
    ensures { result ≡ false → first_of left.now ≡ first_of right.now → ⊥ }
{
    if left.is_empty() || right.is_empty() {
        return true;
    }
    left[0].0 == right[0].0
}

/// Whether two links begin with one class, or one of them has none.
fn may_sum(links: &[LinkForm], i: usize, j: usize) -> bool
    requires first { i < length links.now }
    requires second { j < length links.now }
    ensures { result ≡ false → BeginApart (map link_of links.now) i j }
{
    begin_alike(links[i].form.as_slice(), links[j].form.as_slice())
}

/// The short sum that two links make with a third one.
fn third(
    alloc: Global,
    links: &[LinkForm],
    table: &HashMap<Vec<Part>, usize>,
    i: usize,
    j: usize,
) -> Result<Option<Refutation>, NoMemory>
    requires first { i < length links.now }
    requires second { j < length links.now }
    requires ordered { AreOrdered (map link_of links.now) }
    requires table { IsLeast (map link_of links.now) (length links.now) (place_in table.now.entries) }
    ensures { IfOk result (λ o. MatchOption o (NoThird (map link_of links.now) (place_in table.now.entries) i j) (λ r. IsShortSum (map link_of links.now) r.places.items r.total)) }
{
    if !may_sum(links, i, j) {
        return Ok(None);
    }
    let form = opposite(alloc, links[i].form.as_slice(), links[j].form.as_slice())?;
    match place_of(table, form.as_slice()) {
        None => Ok(None),
        Some(k) => {
            let made = sum_at(alloc, links, i, j, k)?;
            Ok(made)
        }
    }
}

/// A short sum of a link, one behind it and a third one.
fn sum_with(
    alloc: Global,
    links: &[LinkForm],
    table: &HashMap<Vec<Part>, usize>,
    i: usize,
) -> Result<Option<Refutation>, NoMemory>
    requires first { i < length links.now }
    requires ordered { AreOrdered (map link_of links.now) }
    requires table { IsLeast (map link_of links.now) (length links.now) (place_in table.now.entries) }
    ensures { IfOk result (λ o. MatchOption o ((j : ℕ) → i < j → j < length links.now → NoThird (map link_of links.now) (place_in table.now.entries) i j) (λ r. IsShortSum (map link_of links.now) r.places.items r.total)) }
{
    for j in i + 1..links.len() {
        if let Some(made) = third(alloc, links, table, i, j)? {
            return Ok(Some(made));
        }
    }
    Ok(None)
}

/// A sum of three links, where there is one.
pub fn short_sum(alloc: Global, links: &[LinkForm]) -> Result<Option<Refutation>, NoMemory>
    requires { AreOrdered (map link_of links.now) }
    ensures { IfOk result (λ o. MatchOption o (NoSumOfThree (map link_of links.now)) (λ r. IsShortSum (map link_of links.now) r.places.items r.total)) }
{
    let table = least_bounds(alloc, links)?;
    for i in 0..links.len() {
        if let Some(made) = sum_with(alloc, links, &table, i)? {
            return Ok(Some(made));
        }
    }
    Ok(None)
}
