// Random branches, and what closes them.
use crate::closing::tell;
use crate::dice::Dice;
use crate::random::{Literals, random_branch};
use crate::same::{are_same, classes_of};
use crate::slow::{do_clash, do_refute};
use crate::trees::{Item, put_tree};
use std::alloc::Global;
use test_lines::Page;
use wp_base::NoMemory;

/// Deeper than any tree here.
const DEPTH: usize = 100;

// The branch as a goal: its literals are known, and that the terms of each pair are equal is checked.
fn goal_text(
    alloc: Global,
    trees: &[Item],
    literals: &[usize],
    asked: &[(usize, usize)],
) -> Result<Vec<u8>, NoMemory> {
    let mut page = Page::new(alloc);
    page.put("(imp (and");
    for literal in literals {
        put_tree(&mut page, trees, *literal, DEPTH);
    }
    page.put(") (and");
    for pair in asked {
        page.put(" (=");
        put_tree(&mut page, trees, pair.0, DEPTH);
        put_tree(&mut page, trees, pair.1, DEPTH);
        page.put(")");
    }
    page.put("))");
    page.into_text()
}

// What the prover's calls should tell.
fn slowly_told(
    alloc: Global,
    trees: &mut Vec<Item>,
    literals: &[usize],
    asked: &[(usize, usize)],
) -> Result<Vec<bool>, NoMemory> {
    let classes = classes_of(alloc, trees, literals)?;
    let clash = do_clash(alloc, trees.as_slice(), classes.as_slice(), literals)?;
    let refuted = do_refute(alloc, trees.as_slice(), classes.as_slice(), literals)?;
    let closed = clash || refuted;
    let mut told = Vec::from_slice(alloc, &[clash, refuted, closed, closed])?;
    for pair in asked {
        told.push(are_same(classes.as_slice(), pair.0, pair.1))?;
    }
    Ok(told)
}

/// Tries so many branches, and tells how many clash, how many are refuted by links, how many pairs are same, of how many the slow way tells otherwise,
/// and for how many there is no answer.
pub fn try_branches(alloc: Global, page: &mut Page, branches: u32) -> Result<(), NoMemory> {
    let mut dice = Dice { state: 2 };
    let mut counts: [u32; 5] = [0, 0, 0, 0, 0];
    for _ in 0..branches {
        let Literals {
            mut trees,
            literals,
            asked,
        } = random_branch(alloc, &mut dice)?;
        let text = goal_text(
            alloc,
            trees.as_slice(),
            literals.as_slice(),
            asked.as_slice(),
        )?;
        let slow = slowly_told(alloc, &mut trees, literals.as_slice(), asked.as_slice())?;
        for at in 0..slow.len() {
            let count = if at < 2 { at } else { 2 };
            let so = slow[at] && at != 2 && at != 3;
            counts[count] = counts[count].wrapping_add(u32::from(so));
        }
        match tell(alloc, text.as_slice()) {
            Ok(told) => {
                if told.as_slice() != slow.as_slice() {
                    counts[3] = counts[3].wrapping_add(1);
                    page.put("differ: ");
                    page.put_bytes(text.as_slice());
                    page.put("\n");
                }
            }
            Err(NoMemory) => {
                counts[4] = counts[4].wrapping_add(1);
                page.put("without answer: ");
                page.put_bytes(text.as_slice());
                page.put("\n");
            }
        }
    }
    let words = [
        " branches, ",
        " clash, ",
        " refuted by links, ",
        " pairs same, ",
        " differ, ",
    ];
    page.put("branches: ");
    page.put_number(branches);
    for at in 0..5 {
        page.put(words[at]);
        page.put_number(counts[at]);
    }
    page.put(" without answer\n");
    Ok(())
}
