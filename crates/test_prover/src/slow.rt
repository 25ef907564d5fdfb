// Whether literals clash or are refuted by their links, the slow way.
use crate::forms::{Sum, sum_of};
use crate::links::LIMIT;
use crate::refuted::{Plain, are_refuted};
use crate::same::{are_same, class_at};
use crate::trees::{Item, Word, item_at};
use std::alloc::Global;
use wp_base::NoMemory;

// The coefficients of one class in a sum, added up.
fn times_in(classes: &[usize], sum: &Sum, class: usize) -> i128 {
    let mut total: i128 = 0;
    for part in sum.parts.as_slice() {
        if class_at(classes, part.0) == class {
            total = total.wrapping_add(part.1);
        }
    }
    total
}

// The literal is the `not` of an equality whose sides don't differ.
fn is_no_difference(
    alloc: Global,
    trees: &[Item],
    classes: &[usize],
    literal: &Item,
) -> Result<bool, NoMemory> {
    let formula = item_at(trees, literal.kids[0]);
    if literal.word != Word::Not || formula.word != Word::Equal {
        return Ok(false);
    }
    let left = sum_of(alloc, trees, formula.kids[0])?;
    let right = sum_of(alloc, trees, formula.kids[1])?;
    for class in 0..trees.len() {
        if times_in(classes, &left, class) != times_in(classes, &right, class) {
            return Ok(false);
        }
    }
    Ok(left.constant == right.constant)
}

/// Whether literals clash.
pub fn do_clash(
    alloc: Global,
    trees: &[Item],
    classes: &[usize],
    literals: &[usize],
) -> Result<bool, NoMemory> {
    for literal in literals {
        let item = item_at(trees, *literal);
        if item.word == Word::False || is_no_difference(alloc, trees, classes, &item)? {
            return Ok(true);
        }
        for other in literals {
            if item.word == Word::Not && are_same(classes, *other, item.kids[0]) {
                return Ok(true);
            }
        }
    }
    for first in 0..trees.len() {
        for second in 0..first {
            if item_at(trees, first).word == Word::Number
                && item_at(trees, second).word == Word::Number
                && are_same(classes, first, second)
            {
                return Ok(true);
            }
        }
    }
    Ok(false)
}

// The least number of a class.
fn number_of(trees: &[Item], classes: &[usize], class: usize) -> Option<i128> {
    let mut least: Option<i128> = None;
    for at in 0..trees.len() {
        let item = item_at(trees, at);
        if item.word == Word::Number && class_at(classes, at) == class {
            let other = least.unwrap_or(item.number);
            least = Some(if item.number < other {
                item.number
            } else {
                other
            });
        }
    }
    least
}

// That the sum times 1 or -1 is at most 0, as a link over classes, where it is within the limit.
fn put_link(
    alloc: Global,
    trees: &[Item],
    classes: &[usize],
    sum: &Sum,
    by: i128,
    links: &mut Vec<Plain>,
) -> Result<(), NoMemory> {
    let mut all = Vec::new(alloc);
    let mut total = sum.constant;
    let mut largest: u128 = 0;
    for class in 0..trees.len() {
        let times = times_in(classes, sum, class);
        match number_of(trees, classes, class) {
            Some(number) => total = total.wrapping_add(times.wrapping_mul(number)),
            None => {
                largest = largest.max(times.unsigned_abs());
                all.push(times.wrapping_mul(by))?;
            }
        }
    }
    if largest.max(total.unsigned_abs()) <= LIMIT.unsigned_abs() {
        let bound = total.wrapping_mul(by).wrapping_neg();
        links.push(Plain::new(alloc, all.as_slice(), bound)?)?;
    }
    Ok(())
}

/// Whether the links of the literals can't all hold.
pub fn do_refute(
    alloc: Global,
    trees: &[Item],
    classes: &[usize],
    literals: &[usize],
) -> Result<bool, NoMemory> {
    let mut links = Vec::new(alloc);
    for literal in literals {
        let item = item_at(trees, *literal);
        let right = item_at(trees, item.kids[1]);
        if right.word == Word::Number && right.number == 0 {
            let sum = sum_of(alloc, trees, item.kids[0])?;
            if item.word == Word::AtMost || item.word == Word::Equal {
                put_link(alloc, trees, classes, &sum, 1, &mut links)?;
            }
            if item.word == Word::Equal {
                put_link(alloc, trees, classes, &sum, -1, &mut links)?;
            }
        }
    }
    are_refuted(alloc, links.as_slice())
}
