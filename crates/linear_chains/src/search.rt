// A search for a negative chain: for each side the least sum of a walk from it, lowered link by link.
use crate::checks::place_of;
use crate::links::{Part, Sides};
use std::alloc::Global;
use std::collections::HashMap;
use wp_base::NoMemory;

/// A link between numbered sides.
#[derive(Clone, Copy)]
struct Numbered {
    from: usize,
    to: usize,
    bound: i128,
}

/// What the search comes to: a number for each side of the table, or links that may go in a circle.
#[derive(Drop)]
pub struct Found {
    pub table: HashMap<Vec<Part>, usize>,
    pub numbers: Vec<i128>,
    pub circle: Vec<usize>,
}

fn place_for(
    alloc: Global,
    table: &mut HashMap<Vec<Part>, usize>,
    side: &[Part],
) -> Result<usize, NoMemory> {
    match place_of(table, side) {
        Some(place) => Ok(place),
        None => {
            let place = table.len();
            table.insert(Vec::from_slice(alloc, side)?, place)?;
            Ok(place)
        }
    }
}

fn number_sides(
    alloc: Global,
    table: &mut HashMap<Vec<Part>, usize>,
    steps: &[Sides],
) -> Result<Vec<Numbered>, NoMemory> {
    let mut links = Vec::new(alloc);
    for step in steps {
        let from = place_for(alloc, table, step.from.as_slice())?;
        let to = place_for(alloc, table, step.to.as_slice())?;
        let bound = step.bound;
        links.push(Numbered { from, to, bound })?;
    }
    Ok(links)
}

fn row_of<T: Copy>(alloc: Global, item: T, count: usize) -> Result<Vec<T>, NoMemory> {
    let mut row = Vec::new(alloc);
    for _ in 0..count {
        row.push(item)?;
    }
    Ok(row)
}

/// The sum of a walk over this link and on, where it is less than what its first side has.
fn lower_sum(link: &Numbered, numbers: &[i128]) -> Option<i128> {
    let from = *numbers.get(link.from)?;
    let to = *numbers.get(link.to)?;
    let sum = to.checked_add(link.bound)?;
    if sum < from { Some(sum) } else { None }
}

/// One look at each link; it tells the last side whose number fell.
fn lower(links: &[Numbered], numbers: &mut Vec<i128>, by: &mut Vec<usize>) -> Option<usize> {
    let mut lowered = None;
    for i in 0..links.len() {
        let link = &links[i];
        if let Some(sum) = lower_sum(link, numbers.as_slice()) {
            if link.from < numbers.len() && link.from < by.len() {
                numbers[link.from] = sum;
                by[link.from] = i;
                lowered = Some(link.from);
            }
        }
    }
    lowered
}

/// The side behind the link by which this one was lowered last.
fn after(links: &[Numbered], by: &[usize], side: usize) -> Option<usize> {
    let link = links.get(*by.get(side)?)?;
    Some(link.to)
}

/// The links from a side on, up to where a side comes again.
fn circle(
    alloc: Global,
    links: &[Numbered],
    by: &[usize],
    side: usize,
) -> Result<Vec<usize>, NoMemory> {
    let mut start = side;
    for _ in 0..by.len() {
        if let Some(next) = after(links, by, start) {
            start = next;
        }
    }
    let mut at = start;
    let mut places = Vec::new(alloc);
    for _ in 0..by.len() {
        if at < by.len() {
            places.push(by[at])?;
        }
        match after(links, by, at) {
            Some(next) => at = next,
            None => return Ok(places),
        }
        if at == start {
            return Ok(places);
        }
    }
    Ok(places)
}

/// The least sums of walks, or a circle behind a side that is still lowered after as many looks as there are sides.
pub fn search(alloc: Global, steps: &[Sides]) -> Result<Found, NoMemory> {
    let mut table = HashMap::new(alloc);
    let links = number_sides(alloc, &mut table, steps)?;
    let sides = table.len();
    let mut numbers = row_of(alloc, 0, sides)?;
    let mut by = row_of(alloc, usize::MAX, sides)?;
    let mut places = Vec::new(alloc);
    for turn in 0..=sides {
        match lower(links.as_slice(), &mut numbers, &mut by) {
            None => break,
            Some(side) => {
                if turn == sides {
                    places = circle(alloc, links.as_slice(), by.as_slice(), side)?;
                }
            }
        }
    }
    Ok(Found {
        table,
        numbers,
        circle: places,
    })
}
