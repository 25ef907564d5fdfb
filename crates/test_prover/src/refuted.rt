// Whether links refute each other, the slow way: all walks without a side twice, and all sums of up to three links.
use std::alloc::Global;
use wp_base::NoMemory;

/// A link, class by class: what it adds, what it takes away, and the bound of the one less the other.
#[derive(Drop)]
pub struct Plain {
    pub from: Vec<i128>,
    pub to: Vec<i128>,
    pub bound: i128,
}

impl Plain {
    /// By the coefficients of the classes.
    pub fn new(alloc: Global, times: &[i128], bound: i128) -> Result<Plain, NoMemory> {
        let mut from = Vec::new(alloc);
        let mut to = Vec::new(alloc);
        for one in times {
            from.push(if *one > 0 { *one } else { 0 })?;
            to.push(if *one < 0 { one.wrapping_neg() } else { 0 })?;
        }
        Ok(Plain { from, to, bound })
    }
}

// Whether a link begins where the walk ends, with what no link of the walk begins with.
fn goes_on(links: &[Plain], walk: &[usize], next: &Plain) -> bool {
    let mut fits = true;
    for at in walk {
        if let Some(link) = links.get(*at) {
            if link.from.as_slice() == next.from.as_slice() {
                return false;
            }
            fits = link.to.as_slice() == next.from.as_slice();
        }
    }
    fits
}

// Whether the walk from the first link goes on to a negative circle, by so many links more at most.
fn goes_round(
    links: &[Plain],
    first: Option<&Plain>,
    walk: &mut Vec<usize>,
    total: i128,
    room: usize,
) -> Result<bool, NoMemory> {
    if room == 0 {
        return Ok(false);
    }
    for next in 0..links.len() {
        let link = &links[next];
        if goes_on(links, walk.as_slice(), link) {
            let start = first.unwrap_or(link);
            let sum = total.wrapping_add(link.bound);
            if sum < 0 && link.to.as_slice() == start.from.as_slice() {
                return Ok(true);
            }
            walk.push(next)?;
            if goes_round(links, Some(start), walk, sum, room - 1)? {
                return Ok(true);
            }
            let _ = walk.pop();
        }
    }
    Ok(false)
}

// Whether these links, of which one that is repeated counts once, add up to nothing and their bounds to below 0.
fn is_short_sum(first: &Plain, second: &Plain, third: &Plain) -> bool {
    let picked = [first, second, third];
    let mut bounds: i128 = 0;
    let mut counts = [true, true, true];
    for i in 0..3 {
        for j in 0..i {
            if picked[i].bound == picked[j].bound
                && picked[i].from.as_slice() == picked[j].from.as_slice()
                && picked[i].to.as_slice() == picked[j].to.as_slice()
            {
                counts[i] = false;
            }
        }
        if counts[i] {
            bounds = bounds.wrapping_add(picked[i].bound);
        }
    }
    for class in 0..first.from.len() {
        let mut left: i128 = 0;
        for i in 0..3 {
            if counts[i] {
                left = left
                    .wrapping_add(picked[i].from.get(class).copied().unwrap_or(0))
                    .wrapping_sub(picked[i].to.get(class).copied().unwrap_or(0));
            }
        }
        if left != 0 {
            return false;
        }
    }
    bounds < 0
}

/// Whether links have a negative chain or a short sum.
pub fn are_refuted(alloc: Global, links: &[Plain]) -> Result<bool, NoMemory> {
    for i in 0..links.len() {
        for j in i..links.len() {
            for k in j..links.len() {
                if is_short_sum(&links[i], &links[j], &links[k]) {
                    return Ok(true);
                }
            }
        }
    }
    let mut walk = Vec::new(alloc);
    goes_round(links, None, &mut walk, 0, links.len())
}
