// What literals say of sums.
ghost use Rattle.std.specs.Prelude.{◌≡◌, ◌<◌, pos};
ghost use Rattle.std.specs.Bool.{MatchBool};
ghost use Rattle.std.specs.Ordering.{int_eq};
ghost use Rattle.qed_terms.specs.Tree.{num};
ghost use Rattle.tree_places.specs.View.{IsKept};
ghost use Rattle.term_forms.specs.Forms.{tree_of, count_of};
ghost use Rattle.linear_prover.specs.Relations.{relation_op, relation_head, IsRelation};

use qed_terms::{FormOp, Head};
use term_forms::{node_at, number_in};
use tree_places::TreeTable;

/// The place of a sum that a literal says to be 0, or else at most 0.
#[derive(Clone, Copy)]
pub struct Said {
    pub sum: usize,
    pub is_equality: bool,
}

fn relation_op(op: &FormOp) -> Option<bool>
    ensures { result ≡ relation_op op.now }
{
    match op {
        FormOp::Equal => Some(true),
        FormOp::AtMost => Some(false),
        _ => None,
    }
}

fn relation_head(head: &Head) -> Option<bool>
    ensures { result ≡ relation_head head.now }
{
    match head {
        Head::Form(op) => relation_op(op),
        _ => None,
    }
}

fn are_equal(number: i128, other: i128) -> bool
    ensures { result ≡ int_eq number other }
{
    number == other
}

/// Whether the term at a place is 0.
fn is_nothing(table: &TreeTable, place: usize) -> bool
    requires kept { IsKept table.now }
    requires below { place < count_of table.now }
    ensures { MatchBool result (tree_of table.now place ≡ num (pos 0)) (tree_of table.now place ≡ num (pos 0) → ⊥) }
{
    let node = node_at(table, place);
    if node.kids.len() != 0 {
        return false;
    }
    match number_in(&node.head) {
        Some(number) => are_equal(number, 0),
        None => false,
    }
}

/// What a literal says of a sum.
pub fn relation(table: &TreeTable, literal: usize) -> Option<Said>
    requires kept { IsKept table.now }
    requires below { literal < count_of table.now }
    ensures { IsRelation (count_of table.now) (tree_of table.now) (tree_of table.now literal) result }
{
    let node = node_at(table, literal);
    let Some(is_equality) = relation_head(&node.head) else {
        return None
    };
    if node.kids.len() != 2 {
        return None;
    }
    if !is_nothing(table, node.kids[1]) {
        return None;
    }
    Some(Said {
        sum: node.kids[0],
        is_equality,
    })
}
