// The numbers that classes count as: the least at any place of theirs.
ghost use Rattle.std.specs.Prelude.{◌≡◌, ◌⊎◌, ◌+◌, ◌<◌, ◌≤◌, ◌≤ℤ◌, ℕ, ℤ, Some, length, OnOk, IfOk};
ghost use Rattle.std.specs.Bool.{MatchBool};
ghost use Rattle.same_places.specs.Same.{at};
ghost use Rattle.tree_places.specs.View.{IsKept};
ghost use Rattle.term_forms.specs.Forms.{tree_of, count_of};
ghost use Rattle.class_links.specs.ClassForms.{number_for, AreLeast, HasLess, LacksLess};

use std::alloc::Global;
use std::collections::HashMap;
use term_forms::number_at;
use tree_places::TreeTable;
use wp_base::NoMemory;

/// The number that a class counts as.
pub fn number_for(numbers: &HashMap<usize, i128>, class: usize) -> Option<i128>
    ensures { result ≡ number_for numbers.now.entries class }
{
    numbers.get(&class).copied()
}

fn is_at_most(left: &i128, right: &i128) -> bool
    ensures { MatchBool result (left.now ≤ℤ right.now) (right.now ≤ℤ left.now) }
{
    *left <= *right
}

/// The class has a number that is no larger.
fn has_less(numbers: &HashMap<usize, i128>, class: usize, number: &i128) -> bool
    ensures { MatchBool result (HasLess (number_for numbers.now.entries) class number.now) (LacksLess (number_for numbers.now.entries) class number.now) }
{
    match number_for(numbers, class) {
        Some(least) => is_at_most(&least, number),
        None => false,
    }
}

fn note(numbers: &mut HashMap<usize, i128>, class: usize, number: &i128) -> Result<(), NoMemory>
    ensures new { OnOk result (number_for numbers.new.entries class ≡ Some number.now) }
    ensures others { OnOk result ((c : ℕ) → (c ≡ class) ⊎ (number_for numbers.new.entries c ≡ number_for numbers.old.entries c)) }
{
    numbers.insert(class, *number)?;
    Ok(())
}

/// The number at one place more.
fn note_place(
    table: &TreeTable,
    classes: &[usize],
    place: usize,
    numbers: &mut HashMap<usize, i128>,
) -> Result<(), NoMemory>
    requires kept { IsKept table.now }
    requires within { length classes.now ≤ count_of table.now }
    requires place { place < length classes.now }
    requires least { AreLeast place (tree_of table.now) (at classes.now) (number_for numbers.old.entries) }
    ensures { OnOk result (AreLeast (place + 1) (tree_of table.now) (at classes.now) (number_for numbers.new.entries)) }
{
    let Some(number) = number_at(table, place) else {
        return Ok(())
    };
    let class = classes[place];
    if has_less(numbers, class, &number) {
        return Ok(());
    }
    note(numbers, class, &number)?;
    Ok(())
}

/// The least number of each class that has one.
pub fn class_numbers(
    alloc: Global,
    table: &TreeTable,
    classes: &[usize],
) -> Result<HashMap<usize, i128>, NoMemory>
    requires kept { IsKept table.now }
    requires within { length classes.now ≤ count_of table.now }
    ensures { IfOk result (λ numbers. AreLeast (length classes.now) (tree_of table.now) (at classes.now) (number_for numbers.entries)) }
{
    let mut numbers = HashMap::new(alloc);
    for place in 0..classes.len() {
        note_place(table, classes, place, &mut numbers)?;
    }
    Ok(numbers)
}
