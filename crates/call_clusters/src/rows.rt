// Tables of tests on two functions, row by row.
ghost use Rattle.std.specs.Prelude.{◌≡◌, ◌||◌, ◌&&◌, [], true, false, if◌then◌else◌, nat_lt, length, slice_index_or, slice_set, IfOk};
ghost use Rattle.call_clusters.specs.Rows as spec;

use std::alloc::Global;
use wp_base::{List, NoMemory};

fn test_at(row: &[bool], place: usize) -> bool
    ensures { result ≡ slice_index_or row.now place false }
{
    match row.get(place) {
        Some(test) => *test,
        None => false,
    }
}

/// An entry of a table; none is one that fails.
pub(crate) fn entry(rows: &[List<bool>], row: usize, place: usize) -> bool
    ensures { result ≡ spec.entry rows.now row place }
{
    match rows.get(row) {
        Some(row) => test_at(row.as_slice(), place),
        None => false,
    }
}

fn mark(row: &mut Vec<bool>, number: u32)
    ensures { row.new.items ≡ (if nat_lt number (length row.old.items) then slice_set row.old.items number true else row.old.items) }
{
    if (number as usize) < row.len() {
        row[number as usize] = true;
    }
}

/// Of all numbers below a count, whether they are among these.
#[tactic(auto, using(crate::proofs::Tables::mark_laws))]
pub(crate) fn marks(alloc: Global, count: usize, numbers: &[u32]) -> Result<List<bool>, NoMemory>
    ensures { IfOk result (λ row. spec.IsMarked count numbers.now row) }
{
    let mut row = vec![in alloc; false; count]?;
    for i in 0..numbers.len() {
        mark(&mut row, numbers[i]);
    }
    Ok(List::from_vec(row))
}

// What a function reaches, also through this one.
#[tactic(auto, using(crate::proofs::Tables::table_laws))]
fn row_through(
    alloc: Global,
    rows: &[List<bool>],
    function: usize,
    via: usize,
) -> Result<List<bool>, NoMemory>
    ensures { IfOk result (λ row. spec.IsRow (length rows.now) (λ g. spec.entry rows.now function g || (spec.entry rows.now function via && spec.entry rows.now via g)) row) }
{
    let to_it = entry(rows, function, via);
    let mut row = Vec::new(alloc);
    for g in 0..rows.len() {
        let directly = entry(rows, function, g);
        let from_it = entry(rows, via, g);
        row.push(directly || (to_it && from_it))?;
    }
    Ok(List::from_vec(row))
}

/// What functions reach, also through this one.
#[tactic(auto, using(crate::proofs::Tables::table_laws))]
pub(crate) fn rows_through(
    alloc: Global,
    rows: &[List<bool>],
    via: usize,
) -> Result<Vec<List<bool>>, NoMemory>
    ensures { IfOk result (λ made. spec.AreRows (length rows.now) (length rows.now) (λ f g. spec.entry rows.now f g || (spec.entry rows.now f via && spec.entry rows.now via g)) made.items) }
{
    let mut made = Vec::new(alloc);
    for f in 0..rows.len() {
        made.push(row_through(alloc, rows, f, via)?)?;
    }
    Ok(made)
}
