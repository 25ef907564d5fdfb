// Whether numbers for the sides meet all links, and whether links make a negative chain.
ghost use Rattle.std.specs.Prelude.{◌≡◌, true, ◌<◌, length, map, ◌+ℤ◌, ◌≤ℤ◌, IfSome, IfOk, MatchOption};
ghost use Rattle.linear_chains.specs.Chains.{Meets, IsChain, NotAmong, AllDiffer};
ghost use Rattle.linear_chains.specs.Tables.{place_in, number_in, from_at, WalkAt};
ghost use Rattle.linear_chains.specs.View.{side_step, same_form, vec_items};

use crate::links::{Part, Refutation, Sides};
use std::alloc::Global;
use std::collections::HashMap;
use wp_base::NoMemory;

// ---- numbers for the sides

/// The place of a side in a table.
pub fn place_of(table: &HashMap<Vec<Part>, usize>, side: &[Part]) -> Option<usize>
    ensures { result ≡ place_in table.now.entries side.now }
{
    table.get(side).copied()
}

/// A number of a side, or a sum of bounds.
#[derive(Clone, Copy)]
struct Sum {
    total: i128,
}

/// The number of a side: 0 where the table or the row of numbers has none.
fn number_of(table: &HashMap<Vec<Part>, usize>, numbers: &[i128], side: &[Part]) -> Sum
    ensures { result.total ≡ number_in table.now.entries numbers.now side.now }
{
    match place_of(table, side) {
        Some(place) => match numbers.get(place) {
            Some(number) => Sum { total: *number },
            None => Sum { total: 0 },
        },
        None => Sum { total: 0 },
    }
}

fn with_bound(sum: &Sum, step: &Sides) -> Option<Sum>
    ensures { IfSome result (λ more. more.total ≡ sum.now.total +ℤ step.now.bound) }
{
    match sum.total.checked_add(step.bound) {
        Some(total) => Some(Sum { total }),
        None => None,
    }
}

/// The link holds of the numbers of its sides.
fn meets(step: &Sides, from: &Sum, to: &Sum) -> bool
    ensures { result ≡ true → from.now.total ≤ℤ (to.now.total +ℤ step.now.bound) }
{
    match with_bound(to, step) {
        Some(most) => from.total <= most.total,
        None => false,
    }
}

/// The numbers meet all links.
pub fn all_meet(steps: &[Sides], table: &HashMap<Vec<Part>, usize>, numbers: &[i128]) -> bool
    ensures { result ≡ true → Meets (map side_step steps.now) (number_in table.now.entries numbers.now) }
{
    for i in 0..steps.len() {
        let step = &steps[i];
        let from = number_of(table, numbers, step.from.as_slice());
        let to = number_of(table, numbers, step.to.as_slice());
        if !meets(step, &from, &to) {
            return false;
        }
    }
    true
}

// ---- chains

fn same_sides(left: &[Part], right: &[Part]) -> bool
    ensures { result ≡ same_form left.now right.now }
{
    left == right
}

/// The sum of the bounds of links that follow each other from `start` back to it.
fn closed_total(steps: &[Sides], places: &[usize], start: &[Part]) -> Option<Sum>
    ensures { IfSome result (λ sum. WalkAt (map side_step steps.now) start.now places.now start.now sum.total) }
{
    let mut at = start;
    let mut sum = Sum { total: 0 };
    for i in 0..places.len() {
        let place = places[i];
        if place >= steps.len() {
            return None;
        }
        let step = &steps[place];
        if !same_sides(at, step.from.as_slice()) {
            return None;
        }
        match with_bound(&sum, step) {
            Some(more) => sum = more,
            None => return None,
        }
        at = step.to.as_slice();
    }
    if same_sides(at, start) {
        Some(sum)
    } else {
        None
    }
}

fn is_new(side: &[Part], sides: &[Vec<Part>]) -> bool
    ensures { result ≡ true → NotAmong side.now (map vec_items sides.now) }
{
    for other in sides {
        if same_sides(side, other.as_slice()) {
            return false;
        }
    }
    true
}

fn all_differ(sides: &[Vec<Part>]) -> bool
    ensures { result ≡ true → AllDiffer (map vec_items sides.now) }
{
    for i in 0..sides.len() {
        if !is_new(sides[i].as_slice(), &sides[i + 1..]) {
            return false;
        }
    }
    true
}

/// The sides that links begin with, where all these are links.
fn starts(
    alloc: Global,
    steps: &[Sides],
    places: &[usize],
) -> Result<Option<Vec<Vec<Part>>>, NoMemory>
    ensures { IfOk result (λ o. IfSome o (λ sides. map vec_items sides.items ≡ map (from_at (map side_step steps.now)) places.now)) }
{
    let mut sides = Vec::new(alloc);
    for i in 0..places.len() {
        let place = places[i];
        if place >= steps.len() {
            return Ok(None);
        }
        sides.push(Vec::from_slice(alloc, steps[place].from.as_slice())?)?;
    }
    Ok(Some(sides))
}

/// The links as a refutation, where they are a negative chain.
pub fn chain_of(
    alloc: Global,
    steps: &[Sides],
    places: Vec<usize>,
) -> Result<Option<Refutation>, NoMemory>
    ensures { IfOk result (λ o. IfSome o (λ r. IsChain (map side_step steps.now) r.places.items r.total)) }
{
    let Some(sides) = starts(alloc, steps, places.as_slice())? else {
        return Ok(None)
    };
    if sides.is_empty() || !all_differ(sides.as_slice()) {
        return Ok(None);
    }
    let Some(sum) = closed_total(steps, places.as_slice(), sides[0].as_slice()) else {
        return Ok(None)
    };
    if sum.total >= 0 {
        return Ok(None);
    }
    Ok(Some(Refutation {
        places,
        total: sum.total,
    }))
}
