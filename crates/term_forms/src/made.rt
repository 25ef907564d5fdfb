// Trees of forms, put into a table.
ghost use Rattle.std.specs.Prelude.{◌≡◌, ◌<◌, ◌++◌, ◌∷◌, [], map, All, OnOk, IfOk};
ghost use Rattle.std.specs.Ordering.{int_eq};
ghost use Rattle.qed_terms.specs.Tree.{num};
ghost use Rattle.qed_linear.specs.Linear.{of_lin, part_tree, sum_tree, constant_trees};
ghost use Rattle.same_places.specs.Same.{PartsWithin};
ghost use Rattle.same_terms.specs.Stands.{tree_part, tree_parts};
ghost use Rattle.tree_places.specs.Tables.{Grows};
ghost use Rattle.tree_places.specs.View.{nodes_of, IsKept};
ghost use Rattle.term_forms.specs.Forms.{tree_of, count_of, lin_of};

use crate::forms::Form;
use qed_terms::{Head, TermOp};
use same_places::Part;
use std::alloc::Global;
use tree_places::{TreeTable, put};
use wp_base::NoMemory;

/// The place of a number.
fn number_place(alloc: Global, table: &mut TreeTable, number: i128) -> Result<usize, NoMemory>
    requires kept { IsKept table.old }
    ensures kept { OnOk result (IsKept table.new) }
    ensures grows { OnOk result (Grows (nodes_of table.old) (nodes_of table.new)) }
    ensures below { IfOk result (λ place. place < count_of table.new) }
    ensures tree { IfOk result (λ place. tree_of table.new place ≡ num number) }
{
    let place = put(alloc, table, &Head::Num(number), Vec::new(alloc))?;
    Ok(place)
}

fn two(alloc: Global, first: usize, second: usize) -> Result<Vec<usize>, NoMemory>
    ensures { IfOk result (λ list. list.items ≡ first ∷ second ∷ []) }
{
    let mut list = Vec::new(alloc);
    list.push(first)?;
    list.push(second)?;
    Ok(list)
}

fn are_equal(number: i128, other: i128) -> bool
    ensures { result ≡ int_eq number other }
{
    number == other
}

/// The place of a number times an atom.
fn part_place(alloc: Global, table: &mut TreeTable, part: &Part) -> Result<usize, NoMemory>
    requires kept { IsKept table.old }
    requires part { part.now.0 < count_of table.old }
    ensures kept { OnOk result (IsKept table.new) }
    ensures grows { OnOk result (Grows (nodes_of table.old) (nodes_of table.new)) }
    ensures below { IfOk result (λ place. place < count_of table.new) }
    ensures tree { IfOk result (λ place. tree_of table.new place ≡ part_tree (tree_part (tree_of table.old) part.now)) }
{
    if are_equal(part.1, 1) {
        return Ok(part.0);
    }
    let number = number_place(alloc, table, part.1)?;
    let kids = two(alloc, number, part.0)?;
    let place = put(alloc, table, &Head::Term(TermOp::Mul), kids)?;
    Ok(place)
}

/// The places of all parts of a form.
fn part_places(alloc: Global, table: &mut TreeTable, parts: &[Part]) -> Result<Vec<usize>, NoMemory>
    requires kept { IsKept table.old }
    requires parts { PartsWithin (count_of table.old) parts.now }
    ensures kept { OnOk result (IsKept table.new) }
    ensures grows { OnOk result (Grows (nodes_of table.old) (nodes_of table.new)) }
    ensures below { IfOk result (λ places. All (λ k. k < count_of table.new) places.items) }
    ensures trees { IfOk result (λ places. map (tree_of table.new) places.items ≡ map part_tree (tree_parts (tree_of table.old) parts.now)) }
{
    let mut places = Vec::new(alloc);
    for part in parts {
        places.push(part_place(alloc, table, part)?)?;
    }
    Ok(places)
}

/// The constant behind the terms, where it isn't 0.
fn put_constant(
    alloc: Global,
    table: &mut TreeTable,
    constant: i128,
    terms: &mut Vec<usize>,
) -> Result<(), NoMemory>
    requires kept { IsKept table.old }
    requires terms { All (λ k. k < count_of table.old) terms.old.items }
    ensures kept { OnOk result (IsKept table.new) }
    ensures grows { OnOk result (Grows (nodes_of table.old) (nodes_of table.new)) }
    ensures below { OnOk result (All (λ k. k < count_of table.new) terms.new.items) }
    ensures trees { OnOk result (map (tree_of table.new) terms.new.items ≡ map (tree_of table.old) terms.old.items ++ constant_trees constant) }
{
    if are_equal(constant, 0) {
        return Ok(());
    }
    let place = number_place(alloc, table, constant)?;
    terms.push(place)?;
    Ok(())
}

/// The place of the sum of some terms.
fn sum_place(alloc: Global, table: &mut TreeTable, terms: Vec<usize>) -> Result<usize, NoMemory>
    requires kept { IsKept table.old }
    requires terms { All (λ k. k < count_of table.old) terms.items }
    ensures kept { OnOk result (IsKept table.new) }
    ensures grows { OnOk result (Grows (nodes_of table.old) (nodes_of table.new)) }
    ensures below { IfOk result (λ place. place < count_of table.new) }
    ensures tree { IfOk result (λ place. tree_of table.new place ≡ sum_tree (map (tree_of table.old) terms.items)) }
{
    if terms.len() == 0 {
        let place = number_place(alloc, table, 0)?;
        return Ok(place);
    }
    if terms.len() == 1 {
        return Ok(terms[0]);
    }
    let place = put(alloc, table, &Head::Term(TermOp::Add), terms)?;
    Ok(place)
}

/// The place of a form's term.
pub fn form_place(alloc: Global, table: &mut TreeTable, form: &Form) -> Result<usize, NoMemory>
    requires kept { IsKept table.old }
    requires parts { PartsWithin (count_of table.old) form.now.parts.items }
    ensures kept { OnOk result (IsKept table.new) }
    ensures grows { OnOk result (Grows (nodes_of table.old) (nodes_of table.new)) }
    ensures below { IfOk result (λ place. place < count_of table.new) }
    ensures tree { IfOk result (λ place. tree_of table.new place ≡ of_lin (lin_of (tree_of table.old) form.now)) }
{
    let mut terms = part_places(alloc, table, form.parts.as_slice())?;
    put_constant(alloc, table, form.constant, &mut terms)?;
    let place = sum_place(alloc, table, terms)?;
    Ok(place)
}
