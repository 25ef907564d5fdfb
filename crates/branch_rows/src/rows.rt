// The rows of marked places.
ghost use Rattle.std.specs.Prelude.{◌≡◌, ◌+◌, ◌*◌, ◌<◌, ◌++◌, ◌∷◌, [], true, false, pos, Bool, ℕ, List, Some, All, length, map, OnOk, IfOk};
ghost use Rattle.qed_terms.specs.Tree.{head_of};
ghost use Rattle.same_places.specs.Same.{Row};
ghost use Rattle.same_places.specs.View.{row_of};
ghost use Rattle.same_terms.specs.Stands.{StandsFor, over_atoms, over_kids};
ghost use Rattle.tree_places.specs.Heads.{KeepsNumbers};
ghost use Rattle.tree_places.specs.View.{numbers_of, nodes_of, IsKept};
ghost use Rattle.term_forms.specs.Forms.{tree_of, count_of};
ghost use Rattle.branch_rows.specs.Marks.{mark_at};
ghost use Rattle.branch_rows.specs.Rows.{numbered_places, KidsRowOf, AtomsRowOf, with_row, AreRows};

use crate::marks::node_there;
use qed_terms::Head;
use same_places::{ClassRow, Part};
use std::alloc::Global;
use term_forms::{is_binder, is_sum, written};
use tree_places::{TreeTable, number_of};
use wp_base::NoMemory;

fn numbered_place(place: usize, number: usize) -> Part
    ensures { result ≡ (place, pos number) }
{
    (place, number as i128)
}

/// Places with their numbers in the list.
fn numbered_places(alloc: Global, places: &[usize]) -> Result<Vec<Part>, NoMemory>
    ensures { IfOk result (λ parts. parts.items ≡ numbered_places 0 places.now) }
{
    let mut parts = Vec::new(alloc);
    for i in 0..places.len() {
        parts.push(numbered_place(places[i], i))?;
    }
    Ok(parts)
}

/// Twice a number.
fn twice(number: usize) -> Result<usize, NoMemory>
    ensures { IfOk result (λ label. label ≡ 2 * number) }
{
    match number.checked_mul(2) {
        Some(label) => Ok(label),
        None => Err(NoMemory),
    }
}

/// Twice a number, and one more.
fn twice_and_one(number: usize) -> Result<usize, NoMemory>
    ensures { IfOk result (λ label. label ≡ 2 * number + 1) }
{
    let double = twice(number)?;
    match double.checked_add(1) {
        Some(label) => Ok(label),
        None => Err(NoMemory),
    }
}

fn class_row(place: usize, label: usize, parts: Vec<Part>) -> ClassRow
    ensures place { result.place ≡ place }
    ensures label { result.label ≡ label }
    ensures parts { result.parts.items ≡ parts.items }
{
    ClassRow {
        place,
        label,
        parts,
    }
}

/// The row of a place over its kids.
fn kids_row(alloc: Global, table: &TreeTable, place: usize) -> Result<Option<ClassRow>, NoMemory>
    requires kept { IsKept table.now }
    requires below { place < count_of table.now }
    ensures { IfOk result (KidsRowOf (tree_of table.now) (numbers_of table.now.heads) (count_of table.now) place) }
{
    let node = node_there(table, place);
    if is_binder(&node.head) {
        return Ok(None);
    }
    let label = twice(node.number)?;
    let parts = numbered_places(alloc, node.kids.as_slice())?;
    Ok(Some(class_row(place, label, parts)))
}

/// The label of a sum's constant over its atoms.
fn atoms_label(alloc: Global, table: &mut TreeTable, constant: i128) -> Result<usize, NoMemory>
    requires kept { IsKept table.old }
    ensures kept { OnOk result (IsKept table.new) }
    ensures nodes { OnOk result (nodes_of table.new ≡ nodes_of table.old) }
    ensures older { OnOk result (KeepsNumbers (numbers_of table.old.heads) (numbers_of table.new.heads)) }
    ensures label { IfOk result (λ label. StandsFor (numbers_of table.new.heads) label (over_atoms constant)) }
{
    let number = number_of(alloc, &mut table.heads, &Head::Num(constant))?;
    let label = twice_and_one(number)?;
    Ok(label)
}

/// The row of a place over its atoms.
fn atoms_row(
    alloc: Global,
    table: &mut TreeTable,
    place: usize,
) -> Result<Option<ClassRow>, NoMemory>
    requires kept { IsKept table.old }
    requires below { place < count_of table.old }
    ensures kept { OnOk result (IsKept table.new) }
    ensures nodes { OnOk result (nodes_of table.new ≡ nodes_of table.old) }
    ensures older { OnOk result (KeepsNumbers (numbers_of table.old.heads) (numbers_of table.new.heads)) }
    ensures row { IfOk result (AtomsRowOf (tree_of table.old) (numbers_of table.new.heads) (count_of table.old) place) }
{
    if !is_sum(&node_there(table, place).head) {
        return Ok(None);
    }
    let form = written(alloc, table, place)?;
    let label = atoms_label(alloc, table, form.constant)?;
    Ok(Some(class_row(place, label, form.parts)))
}

fn push_row(rows: &mut Vec<ClassRow>, row: Option<ClassRow>) -> Result<(), NoMemory>
    ensures { OnOk result (map row_of rows.new.items ≡ with_row (map row_of rows.old.items) row) }
{
    if let Some(row) = row {
        rows.push(row)?;
    }
    Ok(())
}

/// The rows of a place, where it is marked, behind those of places before it.
fn put_rows(
    alloc: Global,
    table: &mut TreeTable,
    place: usize,
    mark: bool,
    rows: &mut Vec<ClassRow>,
) -> Result<(), NoMemory>
    requires kept { IsKept table.old }
    requires below { place < count_of table.old }
    ensures kept { OnOk result (IsKept table.new) }
    ensures nodes { OnOk result (nodes_of table.new ≡ nodes_of table.old) }
    ensures older { OnOk result (KeepsNumbers (numbers_of table.old.heads) (numbers_of table.new.heads)) }
    ensures rows { OnOk result ((marked : ℕ → Bool) → marked place ≡ mark → AreRows (tree_of table.old) (numbers_of table.old.heads) (count_of table.old) marked place (map row_of rows.old.items) → AreRows (tree_of table.old) (numbers_of table.new.heads) (count_of table.old) marked (place + 1) (map row_of rows.new.items)) }
{
    if !mark {
        return Ok(());
    }
    let kids = kids_row(alloc, table, place)?;
    let atoms = atoms_row(alloc, table, place)?;
    push_row(rows, kids)?;
    push_row(rows, atoms)?;
    Ok(())
}

/// The rows of all marked places.
pub fn marked_rows(
    alloc: Global,
    table: &mut TreeTable,
    marks: &[bool],
) -> Result<Vec<ClassRow>, NoMemory>
    requires kept { IsKept table.old }
    requires all { length marks.now ≡ count_of table.old }
    ensures kept { OnOk result (IsKept table.new) }
    ensures nodes { OnOk result (nodes_of table.new ≡ nodes_of table.old) }
    ensures older { OnOk result (KeepsNumbers (numbers_of table.old.heads) (numbers_of table.new.heads)) }
    ensures rows { IfOk result (λ rows. AreRows (tree_of table.new) (numbers_of table.new.heads) (count_of table.new) (mark_at marks.now) (count_of table.new) (map row_of rows.items)) }
{
    let mut rows = Vec::new(alloc);
    for place in 0..marks.len() {
        put_rows(alloc, table, place, marks[place], &mut rows)?;
    }
    Ok(rows)
}
