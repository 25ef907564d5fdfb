// The rests of the equalities among literals.
ghost use Rattle.std.specs.Prelude.{◌≡◌, ◌<◌, ◌++◌, ◌∷◌, [], pos, map, All, OnOk, IfOk, MatchOption};
ghost use Rattle.std.specs.Bool.{MatchBool};
ghost use Rattle.std.specs.Ordering.{int_eq};
ghost use Rattle.qed_terms.specs.Tree.{Tree, equal, num};
ghost use Rattle.tree_places.specs.Tables.{Grows};
ghost use Rattle.tree_places.specs.View.{nodes_of, IsKept};
ghost use Rattle.term_forms.specs.Forms.{tree_of, count_of};
ghost use Rattle.term_rests.specs.Rests.{is_equality_op, is_equality, AreRests};

use crate::rests::rest_pairs;
use qed_terms::{FormOp, Head};
use std::alloc::Global;
use term_forms::{node_at, number_in, written};
use tree_places::TreeTable;
use wp_base::NoMemory;

fn equates(op: &FormOp) -> bool
    ensures { result ≡ is_equality_op op.now }
{
    match op {
        FormOp::Equal => true,
        _ => false,
    }
}

fn is_equality(head: &Head) -> bool
    ensures { result ≡ is_equality head.now }
{
    match head {
        Head::Form(op) => equates(op),
        _ => false,
    }
}

fn are_equal(number: i128, other: i128) -> bool
    ensures { result ≡ int_eq number other }
{
    number == other
}

/// Whether the term at a place is 0.
fn is_nothing(table: &TreeTable, place: usize) -> bool
    requires kept { IsKept table.now }
    requires below { place < count_of table.now }
    ensures { MatchBool result (tree_of table.now place ≡ num (pos 0)) (tree_of table.now place ≡ num (pos 0) → ⊥) }
{
    let node = node_at(table, place);
    if node.kids.len() != 0 {
        return false;
    }
    match number_in(&node.head) {
        Some(number) => are_equal(number, 0),
        None => false,
    }
}

/// The place of the term that a literal says to be 0.
fn equation(table: &TreeTable, literal: usize) -> Option<usize>
    requires kept { IsKept table.now }
    requires below { literal < count_of table.now }
    ensures { MatchOption result ((s : Tree) → tree_of table.now literal ≡ equal s (num (pos 0)) → ⊥) (λ k. (k < count_of table.now) × (tree_of table.now literal ≡ equal (tree_of table.now k) (num (pos 0)))) }
{
    let node = node_at(table, literal);
    if !is_equality(&node.head) {
        return None;
    }
    if node.kids.len() != 2 {
        return None;
    }
    if !is_nothing(table, node.kids[1]) {
        return None;
    }
    Some(node.kids[0])
}

/// The atoms and the rests of a literal, by places: none where it is no equality.
pub fn literal_pairs(
    alloc: Global,
    table: &mut TreeTable,
    literal: usize,
) -> Result<Vec<(usize, usize)>, NoMemory>
    requires kept { IsKept table.old }
    requires below { literal < count_of table.old }
    ensures kept { OnOk result (IsKept table.new) }
    ensures grows { OnOk result (Grows (nodes_of table.old) (nodes_of table.new)) }
    ensures pairs { IfOk result (λ pairs. AreRests (count_of table.new) (tree_of table.new) (tree_of table.old literal ∷ []) pairs.items) }
{
    match equation(table, literal) {
        None => Ok(Vec::new(alloc)),
        Some(sum) => {
            let form = written(alloc, table, sum)?;
            let pairs = rest_pairs(alloc, table, &form)?;
            Ok(pairs)
        }
    }
}

fn put_all(pairs: &mut Vec<(usize, usize)>, more: &[(usize, usize)]) -> Result<(), NoMemory>
    ensures { OnOk result (pairs.new.items ≡ pairs.old.items ++ more.now) }
{
    pairs.extend_from_slice(more)?;
    Ok(())
}

/// The atoms and the rests of all equalities among some literals, by places.
pub fn branch_pairs(
    alloc: Global,
    table: &mut TreeTable,
    literals: &[usize],
) -> Result<Vec<(usize, usize)>, NoMemory>
    requires kept { IsKept table.old }
    requires below { All (λ k. k < count_of table.old) literals.now }
    ensures kept { OnOk result (IsKept table.new) }
    ensures grows { OnOk result (Grows (nodes_of table.old) (nodes_of table.new)) }
    ensures pairs { IfOk result (λ pairs. AreRests (count_of table.new) (tree_of table.new) (map (tree_of table.old) literals.now) pairs.items) }
{
    let mut pairs = Vec::new(alloc);
    for i in 0..literals.len() {
        let more = literal_pairs(alloc, table, literals[i])?;
        put_all(&mut pairs, more.as_slice())?;
    }
    Ok(pairs)
}
