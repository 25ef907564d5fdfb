// Random branches: some literals over few terms, and pairs of terms.
use crate::dice::Dice;
use crate::links::LIMIT;
use crate::trees::{Item, NONE, Word, item_at, put};
use std::alloc::Global;
use wp_base::NoMemory;

/// Literals, and pairs of terms of which is asked whether they are same.
#[derive(Drop)]
pub struct Literals {
    pub trees: Vec<Item>,
    pub literals: Vec<usize>,
    pub asked: Vec<(usize, usize)>,
}

fn random_constant(dice: &mut Dice) -> i128 {
    let small = dice.number(-2, 5);
    match dice.roll(16) {
        0 => LIMIT.wrapping_add(small),
        1 => small.wrapping_sub(LIMIT),
        _ => small,
    }
}

fn random_sum(
    alloc: Global,
    trees: &mut Vec<Item>,
    dice: &mut Dice,
    terms: &[usize],
) -> Result<usize, NoMemory> {
    let mut kids = Vec::new(alloc);
    let count = match dice.roll(6) {
        0 => 1,
        1 => 3,
        _ => 2,
    };
    for _ in 0..count {
        let times = match dice.roll(8) {
            0 | 1 | 2 => 1,
            3 | 4 | 5 => -1,
            6 => 2,
            _ => -2,
        };
        let atom = dice.pick(terms);
        if times == 1 {
            kids.push(atom)?;
        } else {
            let number = put(trees, Word::Number, times, &[])?;
            kids.push(put(trees, Word::Product, 0, &[number, atom])?)?;
        }
    }
    let constant = random_constant(dice);
    if constant != 0 {
        kids.push(put(trees, Word::Number, constant, &[])?)?;
    }
    match kids.as_slice() {
        [only] => Ok(*only),
        several => put(trees, Word::Sum, 0, several),
    }
}

// Names, maybe a number, and terms over these; some sums of two in both orders.
fn random_terms(
    alloc: Global,
    trees: &mut Vec<Item>,
    dice: &mut Dice,
) -> Result<Vec<usize>, NoMemory> {
    let mut terms = Vec::new(alloc);
    for name in 0..3u8 {
        terms.push(put(trees, Word::Name, i128::from(name), &[])?)?;
    }
    if dice.roll(2) == 0 {
        terms.push(put(trees, Word::Number, dice.number(-1, 4), &[])?)?;
    }
    for _ in 0..dice.roll(6) {
        let first = dice.pick(terms.as_slice());
        let second = dice.pick(terms.as_slice());
        let term = match dice.roll(8) {
            0 | 1 | 2 => {
                let memory = put(trees, Word::Memory, 0, &[])?;
                put(trees, Word::Load, 0, &[memory, first, second])?
            }
            3 => {
                let word = if dice.roll(2) == 0 {
                    Word::Product
                } else {
                    Word::Sum
                };
                put(trees, word, 0, &[first, second])?
            }
            4 => put(trees, Word::Wrap, 0, &[first])?,
            5 => {
                let test = put(trees, Word::AtMost, 0, &[first, second])?;
                put(trees, Word::Ite, 0, &[test, second, first])?
            }
            6 => put(trees, Word::Quotient, 0, &[first, second])?,
            _ => random_sum(alloc, trees, dice, terms.as_slice())?,
        };
        terms.push(term)?;
        let item = item_at(trees.as_slice(), term);
        let has_two = item.kids[1] != NONE && item.kids[2] == NONE;
        if item.word == Word::Sum && has_two && dice.roll(2) == 0 {
            terms.push(put(trees, Word::Sum, 0, &[item.kids[1], item.kids[0]])?)?;
        }
    }
    Ok(terms)
}

// A relation to 0 of a sum, or of a term less another one and maybe a constant.
fn random_relation(
    alloc: Global,
    trees: &mut Vec<Item>,
    dice: &mut Dice,
    terms: &[usize],
    word: Word,
    differs: bool,
) -> Result<usize, NoMemory> {
    let left = if differs {
        let first = dice.pick(terms);
        let second = dice.pick(terms);
        let constant = if dice.roll(2) == 0 {
            random_constant(dice)
        } else {
            0
        };
        let number = put(trees, Word::Number, -1, &[])?;
        let taken = put(trees, Word::Product, 0, &[number, second])?;
        if constant == 0 {
            put(trees, Word::Sum, 0, &[first, taken])?
        } else {
            let last = put(trees, Word::Number, constant, &[])?;
            put(trees, Word::Sum, 0, &[first, taken, last])?
        }
    } else {
        random_sum(alloc, trees, dice, terms)?
    };
    let nothing = put(trees, Word::Number, 0, &[])?;
    put(trees, word, 0, &[left, nothing])
}

// A formula of which the `not` may be a literal too.
fn random_formula(
    alloc: Global,
    trees: &mut Vec<Item>,
    dice: &mut Dice,
    terms: &[usize],
) -> Result<usize, NoMemory> {
    let first = dice.pick(terms);
    let second = dice.pick(terms);
    let kind = dice.roll(8);
    match kind {
        0 => put(trees, Word::Equal, 0, &[first, second]),
        1 | 6 => {
            let name = put(trees, Word::Name, 3, &[])?;
            let most = if kind == 1 { second } else { first };
            let body = put(trees, Word::AtMost, 0, &[name, most])?;
            let nothing = put(trees, Word::Number, 0, &[])?;
            put(trees, Word::Forall, 0, &[nothing, first, body])
        }
        2 => put(trees, Word::AtMost, 0, &[first, second]),
        3 | 4 => {
            let table = put(trees, Word::Table, 0, &[])?;
            put(trees, Word::Live, 0, &[table, first])
        }
        5 => random_relation(alloc, trees, dice, terms, Word::Equal, false),
        _ => match dice.roll(8) {
            0 => put(trees, Word::False, 0, &[]),
            _ => put(trees, Word::Equal, 0, &[second, first]),
        },
    }
}

/// A random branch, without formulas that wait.
pub fn random_branch(alloc: Global, dice: &mut Dice) -> Result<Literals, NoMemory> {
    let mut trees = Vec::new(alloc);
    let terms = random_terms(alloc, &mut trees, dice)?;
    let mut literals = Vec::new(alloc);
    for _ in 0..dice.roll(8).wrapping_add(1) {
        let of = terms.as_slice();
        let literal = match dice.roll(10) {
            0 | 1 => random_relation(alloc, &mut trees, dice, of, Word::Equal, false)?,
            2 | 3 => random_relation(alloc, &mut trees, dice, of, Word::Equal, true)?,
            4 => random_relation(alloc, &mut trees, dice, of, Word::AtMost, false)?,
            5 | 6 => random_relation(alloc, &mut trees, dice, of, Word::AtMost, true)?,
            7 => random_formula(alloc, &mut trees, dice, of)?,
            _ => {
                let formula = random_formula(alloc, &mut trees, dice, of)?;
                put(&mut trees, Word::Not, 0, &[formula])?
            }
        };
        literals.push(literal)?;
    }
    let mut asked = Vec::new(alloc);
    for _ in 0..4 {
        let first = dice.pick(terms.as_slice());
        let second = dice.pick(terms.as_slice());
        asked.push((first, second))?;
    }
    Ok(Literals {
        trees,
        literals,
        asked,
    })
}
