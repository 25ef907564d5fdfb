// Classes with their places, and the join of two: the places of the smaller class go into the larger one.
ghost use Rattle.std.specs.Prelude.{◌≡◌, ◌≢◌, ◌++◌, ℕ, ◌<◌, [], ◌∷◌, length, map, slice_set, OnOk, IfOk};
ghost use Rattle.std.specs.Bool.{MatchBool};
ghost use Rattle.same_places.specs.Same.{at};
ghost use Rattle.same_places.specs.Passing.{IsMerged, IsJoined};
ghost use Rattle.same_places.specs.Members.{IsIn, list_at, IsRenamed, place_list, class_list, place_lists, IsKept};

use std::alloc::Global;
use std::mem;
use wp_base::NoMemory;

/// The class of each place, and the places of each class.
#[derive(Drop)]
pub struct Classes {
    pub class_of: Vec<usize>,
    pub places_of: Vec<Vec<usize>>,
}

fn single(alloc: Global, place: usize) -> Result<Vec<usize>, NoMemory>
    ensures { IfOk result (λ list. list.items ≡ place ∷ []) }
{
    let mut list = Vec::new(alloc);
    list.push(place)?;
    Ok(list)
}

/// Each place in a class of its own.
pub fn apart(alloc: Global, count: usize) -> Result<Classes, NoMemory>
    ensures length { IfOk result (λ classes. length (class_list classes) ≡ count) }
    ensures own { IfOk result (λ classes. (i : ℕ) → i < count → at (class_list classes) i ≡ i) }
    ensures kept { IfOk result IsKept }
{
    let mut class_of = Vec::new(alloc);
    let mut places_of = Vec::new(alloc);
    for i in 0..count {
        class_of.push(i)?;
        places_of.push(single(alloc, i)?)?;
    }
    Ok(Classes {
        class_of,
        places_of,
    })
}

/// These places have now this class.
fn rename(class_of: &mut Vec<usize>, places: &[usize], to: usize)
    requires { (i : ℕ) → IsIn i places.now → i < length class_of.old.items }
    ensures { IsRenamed places.now to class_of.old.items class_of.new.items }
{
    for place in places {
        class_of[*place] = to;
    }
}

fn take_places(alloc: Global, places_of: &mut Vec<Vec<usize>>, from: usize) -> Vec<usize>
    requires { from < length places_of.old.items }
    ensures taken { result.items ≡ list_at (map place_list places_of.old.items) from }
    ensures left { map place_list places_of.new.items ≡ slice_set (map place_list places_of.old.items) from [] }
{
    mem::replace(&mut places_of[from], Vec::new(alloc))
}

fn put_behind(list: &mut Vec<usize>, places: &[usize]) -> Result<(), NoMemory>
    ensures { OnOk result (list.new.items ≡ list.old.items ++ places.now) }
{
    list.extend_from_slice(places)?;
    Ok(())
}

fn give_places(places_of: &mut Vec<Vec<usize>>, to: usize, places: &[usize]) -> Result<(), NoMemory>
    requires { to < length places_of.old.items }
    ensures { OnOk result (map place_list places_of.new.items ≡ slice_set (map place_list places_of.old.items) to (list_at (map place_list places_of.old.items) to ++ places.now)) }
{
    put_behind(&mut places_of[to], places)?;
    Ok(())
}

/// One class goes into another.
fn merge(alloc: Global, classes: &mut Classes, from: usize, to: usize) -> Result<(), NoMemory>
    requires from { from < length (class_list classes.old) }
    requires to { to < length (class_list classes.old) }
    requires two { from ≢ to }
    requires kept { IsKept classes.old }
    ensures merged { OnOk result (IsMerged from to (class_list classes.old) (class_list classes.new)) }
    ensures kept { OnOk result (IsKept classes.new) }
{
    let places = take_places(alloc, &mut classes.places_of, from);
    rename(&mut classes.class_of, places.as_slice(), to);
    give_places(&mut classes.places_of, to, places.as_slice())?;
    Ok(())
}

fn is_smaller(places_of: &[Vec<usize>], one: usize, other: usize) -> bool
    requires one { one < length places_of.now }
    requires other { other < length places_of.now }
{
    places_of[one].len() < places_of[other].len()
}

/// The classes of two places become one; it tells whether they were two.
pub fn join(alloc: Global, classes: &mut Classes, i: usize, j: usize) -> Result<bool, NoMemory>
    requires left { i < length (class_list classes.old) }
    requires right { j < length (class_list classes.old) }
    requires kept { IsKept classes.old }
    ensures joined { IfOk result (λ b. MatchBool b (IsJoined i j (class_list classes.old) (class_list classes.new)) ((class_list classes.new ≡ class_list classes.old) × (at (class_list classes.old) i ≡ at (class_list classes.old) j))) }
    ensures kept { OnOk result (IsKept classes.new) }
{
    let left = classes.class_of[i];
    let right = classes.class_of[j];
    if left == right {
        return Ok(false);
    }
    if is_smaller(classes.places_of.as_slice(), left, right) {
        merge(alloc, classes, left, right)?;
    } else {
        merge(alloc, classes, right, left)?;
    }
    Ok(true)
}
