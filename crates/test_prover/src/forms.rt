// Terms as sums, as they are written.
use crate::trees::{Item, NONE, Word, item_at, put};
use std::alloc::Global;
use wp_base::NoMemory;

/// Atoms with their coefficients, and a constant.
#[derive(Drop)]
pub struct Sum {
    pub parts: Vec<(usize, i128)>,
    pub constant: i128,
}

/// The sum that a term is: its last number is the constant, and a part is a number times an atom, or an atom.
pub fn sum_of(alloc: Global, trees: &[Item], term: usize) -> Result<Sum, NoMemory> {
    let whole = item_at(trees, term);
    let terms = if whole.word == Word::Sum {
        whole.kids
    } else {
        [term, NONE, NONE, NONE]
    };
    let mut parts = Vec::new(alloc);
    let mut constant = 0;
    for place in 0..4 {
        let at = terms[place];
        let part = item_at(trees, at);
        let factor = item_at(trees, part.kids[0]);
        let is_last = place == 3 || terms[place + 1] == NONE;
        if at == NONE {
            break;
        } else if is_last && part.word == Word::Number {
            constant = part.number;
        } else if part.word == Word::Product && factor.word == Word::Number {
            parts.push((part.kids[1], factor.number))?;
        } else {
            parts.push((at, 1))?;
        }
    }
    Ok(Sum { parts, constant })
}

/// The term of a sum without the part at a place, times 1 or -1.
pub fn rest_term(
    alloc: Global,
    trees: &mut Vec<Item>,
    sum: &Sum,
    place: usize,
    by: i128,
) -> Result<usize, NoMemory> {
    let mut kids = Vec::new(alloc);
    for at in 0..sum.parts.len() {
        let (atom, times) = sum.parts[at];
        if at != place && times.wrapping_mul(by) == 1 {
            kids.push(atom)?;
        } else if at != place {
            let number = put(trees, Word::Number, times.wrapping_mul(by), &[])?;
            kids.push(put(trees, Word::Product, 0, &[number, atom])?)?;
        }
    }
    if sum.constant != 0 {
        kids.push(put(trees, Word::Number, sum.constant.wrapping_mul(by), &[])?)?;
    }
    match kids.as_slice() {
        [] => put(trees, Word::Number, 0, &[]),
        [only] => Ok(*only),
        several => put(trees, Word::Sum, 0, several),
    }
}
