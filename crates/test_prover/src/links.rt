// Random links, and whether they refute each other.
ghost use Rattle.std.specs.Prelude.{◌+◌, map, OnOk, IfOk};
ghost use Rattle.linear_chains.specs.Links.{IsOrdered};
ghost use Rattle.linear_chains.specs.Sums.{IsBelow};
ghost use Rattle.linear_chains.specs.Chains.{AreOrdered};
ghost use Rattle.linear_chains.specs.View.{link_of};

use crate::dice::Dice;
use crate::refuted::{Plain, are_refuted};
use linear_chains::{LinkForm, Part, refutation};
use std::alloc::Global;
use test_lines::Page;
use wp_base::NoMemory;

/// 2^96, the greatest size of the numbers of a link.
pub const LIMIT: i128 = 79228162514264337593543950336;

// A class less another one, where there are to be such, or any coefficients, some of them near the limit.
fn random_times(
    alloc: Global,
    dice: &mut Dice,
    classes: u64,
    steps: bool,
    near: bool,
) -> Result<Vec<i128>, NoMemory> {
    let mut times = Vec::new(alloc);
    if steps {
        let from = dice.roll(classes);
        let to = from
            .wrapping_add(1)
            .wrapping_add(dice.roll(classes.wrapping_sub(1)))
            .checked_rem(classes)
            .unwrap_or(0);
        for class in 0..classes {
            times.push(if class == from {
                1
            } else if class == to {
                -1
            } else {
                0
            })?;
        }
        return Ok(times);
    }
    for _ in 0..classes {
        let small = match dice.roll(8) {
            0 | 1 => 1,
            2 | 3 => -1,
            4 => dice.number(-2, 5),
            _ => 0,
        };
        let large = near && dice.roll(4) == 0;
        times.push(if large {
            small.wrapping_mul(LIMIT)
        } else {
            small
        })?;
    }
    Ok(times)
}

// One part more, but none of coefficient 0.
#[tactic(auto, using(crate::proofs::Ordered::ordered_more, crate::proofs::Ordered::below_more, crate::proofs::Ordered::below_rises))]
fn put_part(form: &mut Vec<Part>, class: usize, times: i128) -> Result<(), NoMemory>
    requires ordered { IsOrdered form.old.items }
    requires below { IsBelow form.old.items class }
    ensures ordered { OnOk result (IsOrdered form.new.items) }
    ensures below { OnOk result (IsBelow form.new.items (class + 1)) }
{
    if times != 0 {
        form.push((class, times))?;
    }
    Ok(())
}

fn form_of(alloc: Global, times: &[i128]) -> Result<Vec<Part>, NoMemory>
    ensures { IfOk result (λ form. IsOrdered form.items) }
{
    let mut form = Vec::new(alloc);
    for class in 0..times.len() {
        put_part(&mut form, class, times[class])?;
    }
    Ok(form)
}

#[tactic(auto, using(crate::proofs::Ordered::are_more_mapped))]
fn put_link(links: &mut Vec<LinkForm>, form: Vec<Part>, bound: i128) -> Result<(), NoMemory>
    requires form { IsOrdered form.items }
    requires links { AreOrdered (map link_of links.old.items) }
    ensures { OnOk result (AreOrdered (map link_of links.new.items)) }
{
    links.push(LinkForm { form, bound })?;
    Ok(())
}

// Random links, for the slow way, and the same for the prover.
fn random_links(
    alloc: Global,
    dice: &mut Dice,
    forms: &mut Vec<LinkForm>,
) -> Result<Vec<Plain>, NoMemory>
    requires { AreOrdered (map link_of forms.old.items) }
    ensures { OnOk result (AreOrdered (map link_of forms.new.items)) }
{
    let steps = dice.roll(2) == 0;
    let near = dice.roll(4) == 0;
    let classes = dice.roll(4).wrapping_add(2);
    let mut links = Vec::new(alloc);
    for _ in 0..dice.roll(8).wrapping_add(1) {
        let times = random_times(alloc, dice, classes, steps, near)?;
        let small = dice.number(-2, 7);
        let place = if near { dice.roll(3) } else { 2 };
        let bound = match place {
            0 => LIMIT.wrapping_sub(dice.number(0, 3)),
            1 => dice.number(0, 3).wrapping_sub(LIMIT),
            _ => small,
        };
        links.push(Plain::new(alloc, times.as_slice(), bound)?)?;
        let form = form_of(alloc, times.as_slice())?;
        put_link(forms, form, bound)?;
    }
    Ok(links)
}

// Tells links for which the answers differ, or of which there is no answer.
fn put_links(page: &mut Page, told: &str, links: &[LinkForm]) {
    page.put(told);
    for link in links {
        page.put(" [");
        for part in link.form.as_slice() {
            page.put_number(part.1);
            page.put(" of ");
            page.put_number(part.0);
            page.put(", ");
        }
        page.put("at most ");
        page.put_number(link.bound);
        page.put("]");
    }
    page.put("\n");
}

/// Tries so many sets of links, and tells how many are refuted, for how many the slow way tells otherwise, and for how many there is no answer.
pub fn try_links(alloc: Global, page: &mut Page, sets: u32) -> Result<(), NoMemory> {
    let mut dice = Dice { state: 1 };
    let mut counts: [u32; 3] = [0, 0, 0];
    for _ in 0..sets {
        let mut forms = Vec::new(alloc);
        let links = random_links(alloc, &mut dice, &mut forms)?;
        let slow = are_refuted(alloc, links.as_slice())?;
        counts[0] = counts[0].wrapping_add(u32::from(slow));
        match refutation(alloc, forms.as_slice()) {
            Ok(found) => {
                if found.is_some() != slow {
                    counts[1] = counts[1].wrapping_add(1);
                    put_links(page, "differ:", forms.as_slice());
                }
            }
            Err(NoMemory) => {
                counts[2] = counts[2].wrapping_add(1);
                put_links(page, "without answer:", forms.as_slice());
            }
        }
    }
    page.put("links: ");
    page.put_number(sets);
    page.put(" sets, ");
    page.put_number(counts[0]);
    page.put(" refuted, ");
    page.put_number(counts[1]);
    page.put(" differ, ");
    page.put_number(counts[2]);
    page.put(" without answer\n");
    Ok(())
}
