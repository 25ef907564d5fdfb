// Whether two numbers of different values are of one class.
ghost use Rattle.std.specs.Prelude.{◌≡◌, ◌<◌, ◌≤◌, ◌++◌, ◌∷◌, [], if◌then◌else◌, ℕ, List, Some, length, OnOk, IfOk};
ghost use Rattle.std.specs.Bool.{MatchBool};
ghost use Rattle.std.specs.Ordering.{int_eq};
ghost use Rattle.qed_terms.specs.Tree.{Tree};
ghost use Rattle.same_places.specs.Same.{at};
ghost use Rattle.tree_places.specs.View.{nodes_of, IsKept};
ghost use Rattle.term_forms.specs.Forms.{tree_of, count_of};
ghost use Rattle.congruence.specs.Closed.{IsClosed};
ghost use Rattle.clashes.specs.Kinds.{AreApart, HasTwoNumbers};
ghost use Rattle.clashes.specs.Seen.{place_in, IsNumberThere, AreNumbers, DiffersThere};

use crate::seen::{class_at, class_places, place_in};
use congruence::TermClasses;
use std::alloc::Global;
use std::collections::HashMap;
use term_forms::number_at;
use tree_places::TreeTable;
use wp_base::NoMemory;

/// Whether a place is marked and has a number.
fn is_number(table: &TreeTable, marks: &[bool], place: usize) -> bool
    requires kept { IsKept table.now }
    requires below { place < count_of table.now }
    requires within { place < length marks.now }
    ensures { MatchBool result (IsNumberThere (tree_of table.now) marks.now place) (IsNumberThere (tree_of table.now) marks.now place → ⊥) }
{
    if !marks[place] {
        return false;
    }
    match number_at(table, place) {
        Some(_number) => true,
        None => false,
    }
}

fn put_where(places: &mut Vec<usize>, place: usize, so: bool) -> Result<(), NoMemory>
    ensures { OnOk result (places.new.items ≡ (if so then places.old.items ++ place ∷ [] else places.old.items)) }
{
    if so {
        places.push(place)?;
    }
    Ok(())
}

/// The places of numbers among those that are marked.
fn number_places(alloc: Global, table: &TreeTable, marks: &[bool]) -> Result<Vec<usize>, NoMemory>
    requires kept { IsKept table.now }
    requires all { length marks.now ≤ count_of table.now }
    ensures { IfOk result (λ places. AreNumbers (tree_of table.now) marks.now (length marks.now) places.items) }
{
    let mut places = Vec::new(alloc);
    for place in 0..marks.len() {
        let so = is_number(table, marks, place);
        put_where(&mut places, place, so)?;
    }
    Ok(places)
}

fn are_equal(number: i128, other: i128) -> bool
    ensures { result ≡ int_eq number other }
{
    number == other
}

/// Whether two places have numbers of different values.
fn are_apart(table: &TreeTable, first: usize, second: usize) -> bool
    requires kept { IsKept table.now }
    requires first { first < count_of table.now }
    requires second { second < count_of table.now }
    ensures { MatchBool result (AreApart (tree_of table.now first) (tree_of table.now second)) (AreApart (tree_of table.now first) (tree_of table.now second) → ⊥) }
{
    let Some(number) = number_at(table, first) else {
        return false
    };
    let Some(other) = number_at(table, second) else {
        return false
    };
    !are_equal(number, other)
}

/// Whether what was seen of a place's class is another number than the one there.
fn differs(table: &TreeTable, classes: &[usize], seen: &HashMap<usize, usize>, place: usize) -> bool
    requires kept { IsKept table.now }
    requires below { place < count_of table.now }
    requires seen { (c k : ℕ) → place_in seen.now.entries c ≡ Some k → k < count_of table.now }
    ensures { MatchBool result (DiffersThere (tree_of table.now) (at classes.now) (place_in seen.now.entries) place) (DiffersThere (tree_of table.now) (at classes.now) (place_in seen.now.entries) place → ⊥) }
{
    match place_in(seen, class_at(classes, place)) {
        Some(other) => are_apart(table, other, place),
        None => false,
    }
}

/// Whether two numbers of different values are of one class.
pub fn has_two_numbers(
    alloc: Global,
    table: &TreeTable,
    closed: &TermClasses,
) -> Result<bool, NoMemory>
    requires kept { IsKept table.now }
    requires all { length closed.now.marks.items ≤ count_of table.now }
    ensures { IfOk result (λ b. (ls : List Tree) → IsClosed ls (nodes_of table.now) closed.now.marks.items closed.now.classes.items → MatchBool b (HasTwoNumbers ls) (HasTwoNumbers ls → ⊥)) }
{
    let classes = closed.classes.as_slice();
    let places = number_places(alloc, table, closed.marks.as_slice())?;
    let numbers = places.as_slice();
    let seen = class_places(alloc, classes, numbers)?;
    for place in numbers {
        if differs(table, classes, &seen, *place) {
            return Ok(true);
        }
    }
    Ok(false)
}
