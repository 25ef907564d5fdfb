// Classes of places, joined by passes over the rows until one joins nothing.
ghost use Rattle.std.specs.Prelude.{◌≡◌, ◌+◌, ◌<◌, ◌||◌, ℕ, Bool, false, List, Some, length, map, OnOk, IfOk};
ghost use Rattle.same_places.specs.Same.{Row, Part, Pairs, AreClasses, RowsWithin, PairsWithin};
ghost use Rattle.same_places.specs.Passing.{Sound, Joins, PairsHold, Closed, Passing};
ghost use Rattle.same_places.specs.Members.{class_list, IsKept};
ghost use Rattle.same_places.specs.View.{row_of, place_in};

use crate::joins::{Classes, apart, join};
use crate::keys::{key_of, note, place_at};
use crate::rows::{ClassRow, Part};
use std::alloc::Global;
use std::collections::HashMap;
use wp_base::NoMemory;

/// One row of a pass; it tells whether two classes were joined.
fn visit(
    alloc: Global,
    rows: &[ClassRow],
    n: usize,
    classes: &mut Classes,
    seen: &mut HashMap<Vec<Part>, usize>,
) -> Result<bool, NoMemory>
    requires place { n < length rows.now }
    requires rows { RowsWithin (length (class_list classes.old)) (map row_of rows.now) }
    requires kept { IsKept classes.old }
    requires within { (key : List Part) (k : ℕ) → place_in seen.old.entries key ≡ Some k → k < length (class_list classes.old) }
    ensures kept { OnOk result (IsKept classes.new) }
    ensures step { IfOk result (λ b. (start : List ℕ) (moved : Bool) → Passing (length (class_list classes.old)) (map row_of rows.now) start (class_list classes.old) moved (place_in seen.old.entries) n → Passing (length (class_list classes.old)) (map row_of rows.now) start (class_list classes.new) (moved || b) (place_in seen.new.entries) (n + 1)) }
{
    let row = &rows[n];
    let key = key_of(alloc, row, classes.class_of.as_slice())?;
    match place_at(seen, key.as_slice()) {
        Some(place) => {
            let moved = join(alloc, classes, row.place, place)?;
            Ok(moved)
        }
        None => {
            note(seen, key, row.place)?;
            Ok(false)
        }
    }
}

/// One pass over all rows; it tells whether classes were joined.
fn pass(alloc: Global, rows: &[ClassRow], classes: &mut Classes) -> Result<bool, NoMemory>
    requires rows { RowsWithin (length (class_list classes.old)) (map row_of rows.now) }
    requires kept { IsKept classes.old }
    ensures kept { OnOk result (IsKept classes.new) }
    ensures sound { OnOk result ((pairs : Pairs) → Sound (map row_of rows.now) pairs (class_list classes.old) → Sound (map row_of rows.now) pairs (class_list classes.new)) }
    ensures joins { OnOk result (Joins (class_list classes.old) (class_list classes.new)) }
    ensures closed { IfOk result (λ moved. moved ≡ false → Closed (map row_of rows.now) (class_list classes.new)) }
{
    let mut seen = HashMap::new(alloc);
    let mut moved = false;
    for n in 0..rows.len() {
        if visit(alloc, rows, n, classes, &mut seen)? {
            moved = true;
        }
    }
    Ok(moved)
}

/// The given pairs joined.
fn join_pairs(
    alloc: Global,
    pairs: &[(usize, usize)],
    classes: &mut Classes,
) -> Result<(), NoMemory>
    requires within { PairsWithin (length (class_list classes.old)) pairs.now }
    requires kept { IsKept classes.old }
    ensures kept { OnOk result (IsKept classes.new) }
    ensures all { OnOk result (length (class_list classes.new) ≡ length (class_list classes.old)) }
    ensures sound { OnOk result ((rows : List Row) → Sound rows pairs.now (class_list classes.old) → Sound rows pairs.now (class_list classes.new)) }
    ensures hold { OnOk result (PairsHold pairs.now (class_list classes.new)) }
{
    for pair in pairs {
        let _moved = join(alloc, classes, pair.0, pair.1)?;
    }
    Ok(())
}

/// The class of each place under rows and given pairs: those of two places are one exactly where the places are related.
pub fn close(
    alloc: Global,
    count: usize,
    rows: &[ClassRow],
    pairs: &[(usize, usize)],
) -> Result<Vec<usize>, NoMemory>
    requires rows { RowsWithin count (map row_of rows.now) }
    requires pairs { PairsWithin count pairs.now }
    ensures { IfOk result (λ classes. AreClasses count (map row_of rows.now) pairs.now classes.items) }
{
    let mut classes = apart(alloc, count)?;
    join_pairs(alloc, pairs, &mut classes)?;
    for _ in 0..u64::MAX {
        if !pass(alloc, rows, &mut classes)? {
            return Ok(classes.class_of);
        }
    }
    Err(NoMemory)
}
