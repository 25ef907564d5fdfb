// A place for each class, of some places.
ghost use Rattle.std.specs.Prelude.{◌≡◌, ◌⊎◌, ℕ, Some, length, OnOk, IfOk};
ghost use Rattle.same_places.specs.Same.{at};
ghost use Rattle.clashes.specs.Seen.{place_in, AreSeen};

use std::alloc::Global;
use std::collections::HashMap;
use wp_base::NoMemory;

/// The class of a place.
pub fn class_at(classes: &[usize], place: usize) -> usize
    ensures { result ≡ at classes.now place }
{
    match classes.get(place) {
        Some(class) => *class,
        None => 0,
    }
}

/// The place that was noted for a class.
pub fn place_in(seen: &HashMap<usize, usize>, class: usize) -> Option<usize>
    ensures { result ≡ place_in seen.now.entries class }
{
    seen.get(&class).copied()
}

fn note(seen: &mut HashMap<usize, usize>, class: usize, place: usize) -> Result<(), NoMemory>
    ensures new { OnOk result (place_in seen.new.entries class ≡ Some place) }
    ensures others { OnOk result ((other : ℕ) → (other ≡ class) ⊎ (place_in seen.new.entries other ≡ place_in seen.old.entries other)) }
{
    seen.insert(class, place)?;
    Ok(())
}

/// For each class that one of these places has, the last that has it.
pub fn class_places(
    alloc: Global,
    classes: &[usize],
    places: &[usize],
) -> Result<HashMap<usize, usize>, NoMemory>
    ensures { IfOk result (λ seen. AreSeen (at classes.now) places.now (length places.now) (place_in seen.entries)) }
{
    let mut seen = HashMap::new(alloc);
    for place in places {
        note(&mut seen, class_at(classes, *place), *place)?;
    }
    Ok(seen)
}
