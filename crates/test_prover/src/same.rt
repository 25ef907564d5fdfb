// Which terms of a branch are same, the slow way: pass after pass over all pairs of terms.
use crate::forms::{Sum, rest_term, sum_of};
use crate::trees::{Item, NONE, Word, item_at, put};
use std::alloc::Global;
use wp_base::NoMemory;

/// The class of a tree: none of one that isn't in the branch.
pub fn class_at(classes: &[usize], at: usize) -> usize {
    classes.get(at).copied().unwrap_or(NONE)
}

/// Two trees of the branch are same.
pub fn are_same(classes: &[usize], first: usize, second: usize) -> bool {
    class_at(classes, first) != NONE && class_at(classes, first) == class_at(classes, second)
}

// Of a literal L = 0: each atom with coefficient 1 or -1, and the rest that it equals.
fn put_rests(
    alloc: Global,
    trees: &mut Vec<Item>,
    literal: usize,
    pairs: &mut Vec<(usize, usize)>,
) -> Result<(), NoMemory> {
    let item = item_at(trees.as_slice(), literal);
    let nothing = put(trees, Word::Number, 0, &[])?;
    if item.word != Word::Equal || item.kids[1] != nothing {
        return Ok(());
    }
    let sum = sum_of(alloc, trees.as_slice(), item.kids[0])?;
    for place in 0..sum.parts.len() {
        let (atom, times) = sum.parts[place];
        if times == 1 || times == -1 {
            let rest = rest_term(alloc, trees, &sum, place, times.wrapping_neg())?;
            pairs.push((atom, rest))?;
        }
    }
    Ok(())
}

// Each tree that stands at the roots outside of quantifiers is its own class. Kids have lower places.
fn first_classes(alloc: Global, trees: &[Item], roots: &[usize]) -> Result<Vec<usize>, NoMemory> {
    let mut classes = Vec::new(alloc);
    for _ in 0..trees.len() {
        classes.push(NONE)?;
    }
    for root in roots {
        if *root < classes.len() {
            classes[*root] = *root;
        }
    }
    for at in (0..trees.len()).rev() {
        let item = item_at(trees, at);
        if class_at(classes.as_slice(), at) != NONE && item.word != Word::Forall {
            for place in 0..4 {
                let kid = item.kids[place];
                if kid < classes.len() {
                    classes[kid] = kid;
                }
            }
        }
    }
    Ok(classes)
}

fn join(classes: &mut Vec<usize>, first: usize, second: usize) {
    let from = class_at(classes.as_slice(), first);
    let to = class_at(classes.as_slice(), second);
    for at in 0..classes.len() {
        if classes[at] == from {
            classes[at] = to;
        }
    }
}

// One head over same kids.
fn are_alike(classes: &[usize], first: &Item, second: &Item) -> bool {
    for place in 0..4 {
        if class_at(classes, first.kids[place]) != class_at(classes, second.kids[place]) {
            return false;
        }
    }
    first.word == second.word && first.number == second.number && first.word != Word::Forall
}

// One constant, and each part as often in the one as in the other.
fn pair_off(classes: &[usize], first: &Sum, second: &Sum) -> bool {
    for part in first.parts.as_slice() {
        let mut more: i64 = 0;
        for other in first.parts.as_slice() {
            if other.1 == part.1 && are_same(classes, other.0, part.0) {
                more = more.wrapping_add(1);
            }
        }
        for other in second.parts.as_slice() {
            if other.1 == part.1 && are_same(classes, other.0, part.0) {
                more = more.wrapping_sub(1);
            }
        }
        if more != 0 {
            return false;
        }
    }
    first.constant == second.constant && first.parts.len() == second.parts.len()
}

// One pass over all pairs of terms: whether some were joined.
fn pass(alloc: Global, trees: &[Item], classes: &mut Vec<usize>) -> Result<bool, NoMemory> {
    let mut joined = false;
    for i in 0..trees.len() {
        let first = item_at(trees, i);
        let left = sum_of(alloc, trees, i)?;
        for j in 0..i {
            let second = item_at(trees, j);
            let of = classes.as_slice();
            if class_at(of, i) == NONE || class_at(of, j) == NONE || are_same(of, i, j) {
                continue;
            }
            if are_alike(of, &first, &second)
                || first.word == Word::Sum
                    && second.word == Word::Sum
                    && pair_off(of, &left, &sum_of(alloc, trees, j)?)
            {
                join(classes, i, j);
                joined = true;
            }
        }
    }
    Ok(joined)
}

/// The classes of the branch of these literals.
pub fn classes_of(
    alloc: Global,
    trees: &mut Vec<Item>,
    literals: &[usize],
) -> Result<Vec<usize>, NoMemory> {
    let mut pairs = Vec::new(alloc);
    let mut roots = Vec::from_slice(alloc, literals)?;
    for literal in literals {
        put_rests(alloc, trees, *literal, &mut pairs)?;
    }
    for pair in pairs.as_slice() {
        roots.push(pair.1)?;
    }
    let mut classes = first_classes(alloc, trees.as_slice(), roots.as_slice())?;
    for pair in pairs.as_slice() {
        join(&mut classes, pair.0, pair.1);
    }
    for _ in 0..trees.len() {
        if !pass(alloc, trees.as_slice(), &mut classes)? {
            break;
        }
    }
    Ok(classes)
}
