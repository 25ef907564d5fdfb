// The key of a row: the classes of its parts in order, and its label.
ghost use Rattle.std.specs.Prelude.{◌≡◌, ◌⊎◌, ◌<◌, Some, List, length, map, OnOk, IfOk, IsSorted, IsPermutation};
ghost use Rattle.same_places.specs.Same.{Part, PartsWithin};
ghost use Rattle.same_places.specs.Passing.{class_part, class_parts, part_cmp, IsKey};
ghost use Rattle.same_places.specs.View.{row_of, place_in};

use crate::rows::{ClassRow, Part};
use std::alloc::Global;
use std::collections::HashMap;
use wp_base::NoMemory;

fn class_part(part: &Part, classes: &[usize]) -> Part
    requires { part.now.0 < length classes.now }
    ensures { result ≡ class_part classes.now part.now }
{
    (classes[part.0], part.1)
}

fn class_parts(alloc: Global, parts: &[Part], classes: &[usize]) -> Result<Vec<Part>, NoMemory>
    requires { PartsWithin (length classes.now) parts.now }
    ensures { IfOk result (λ made. made.items ≡ class_parts classes.now parts.now) }
{
    let mut made = Vec::new(alloc);
    for part in parts {
        made.push(class_part(part, classes))?;
    }
    Ok(made)
}

fn sort(parts: &mut Vec<Part>)
    ensures moved { IsPermutation parts.old.items parts.new.items }
    ensures in_order { IsSorted part_cmp parts.new.items }
{
    parts.sort_unstable();
}

/// The key of a row under these classes.
pub fn key_of(alloc: Global, row: &ClassRow, classes: &[usize]) -> Result<Vec<Part>, NoMemory>
    requires { PartsWithin (length classes.now) row.now.parts.items }
    ensures { IfOk result (λ key. IsKey classes.now (row_of row.now) key.items) }
{
    let mut key = class_parts(alloc, row.parts.as_slice(), classes)?;
    sort(&mut key);
    key.push((row.label, 0))?;
    Ok(key)
}

/// The place that was noted at a key.
pub fn place_at(seen: &HashMap<Vec<Part>, usize>, key: &[Part]) -> Option<usize>
    ensures { result ≡ place_in seen.now.entries key.now }
{
    seen.get(key).copied()
}

/// A place that is the first with this key.
pub fn note(
    seen: &mut HashMap<Vec<Part>, usize>,
    key: Vec<Part>,
    place: usize,
) -> Result<(), NoMemory>
    ensures new { OnOk result (place_in seen.new.entries key.items ≡ Some place) }
    ensures others { OnOk result ((other : List Part) → (other ≡ key.items) ⊎ (place_in seen.new.entries other ≡ place_in seen.old.entries other)) }
{
    seen.insert(key, place)?;
    Ok(())
}
