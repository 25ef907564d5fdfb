// What literals are: `false`, the `not` of a formula, an equality.
ghost use Rattle.std.specs.Prelude.{◌≡◌, ◌<◌, MatchOption};
ghost use Rattle.std.specs.Bool.{MatchBool};
ghost use Rattle.qed_terms.specs.declared.head.Head.TheVariants as h;
ghost use Rattle.qed_terms.specs.declared.head.FormOp.TheVariants as form;
ghost use Rattle.qed_terms.specs.Tree.{Tree, false_tree, not_of, equal};
ghost use Rattle.tree_places.specs.View.{IsKept};
ghost use Rattle.term_forms.specs.Forms.{tree_of, count_of};

use qed_terms::{FormOp, Head};
use term_forms::node_at;
use tree_places::TreeTable;

fn says_false(head: &Head) -> bool
    ensures { MatchBool result (head.now ≡ h.False) (head.now ≡ h.False → ⊥) }
{
    match head {
        Head::False => true,
        _ => false,
    }
}

fn says_not(head: &Head) -> bool
    ensures { MatchBool result (head.now ≡ h.Not) (head.now ≡ h.Not → ⊥) }
{
    match head {
        Head::Not => true,
        _ => false,
    }
}

fn equates(op: &FormOp) -> bool
    ensures { MatchBool result (op.now ≡ form.Equal) (op.now ≡ form.Equal → ⊥) }
{
    match op {
        FormOp::Equal => true,
        _ => false,
    }
}

fn says_equal(head: &Head) -> bool
    ensures { MatchBool result (head.now ≡ h.Form form.Equal) (head.now ≡ h.Form form.Equal → ⊥) }
{
    match head {
        Head::Form(op) => equates(op),
        _ => false,
    }
}

/// Whether the literal at a place is `false`.
pub fn is_false(table: &TreeTable, place: usize) -> bool
    requires kept { IsKept table.now }
    requires below { place < count_of table.now }
    ensures { MatchBool result (tree_of table.now place ≡ false_tree) (tree_of table.now place ≡ false_tree → ⊥) }
{
    let node = node_at(table, place);
    if !says_false(&node.head) {
        return false;
    }
    if node.kids.len() != 0 {
        return false;
    }
    true
}

/// The place of the formula of which a literal is the `not`.
pub fn negated(table: &TreeTable, literal: usize) -> Option<usize>
    requires kept { IsKept table.now }
    requires below { literal < count_of table.now }
    ensures { MatchOption result ((u : Tree) → tree_of table.now literal ≡ not_of u → ⊥) (λ k. (k < count_of table.now) × (tree_of table.now literal ≡ not_of (tree_of table.now k))) }
{
    let node = node_at(table, literal);
    if !says_not(&node.head) {
        return None;
    }
    if node.kids.len() != 1 {
        return None;
    }
    Some(node.kids[0])
}

/// The places of the sides of an equality.
pub fn sides(table: &TreeTable, formula: usize) -> Option<(usize, usize)>
    requires kept { IsKept table.now }
    requires below { formula < count_of table.now }
    ensures { MatchOption result ((t u : Tree) → tree_of table.now formula ≡ equal t u → ⊥) (λ s. (s.0 < count_of table.now) × (s.1 < count_of table.now) × (tree_of table.now formula ≡ equal (tree_of table.now s.0) (tree_of table.now s.1))) }
{
    let node = node_at(table, formula);
    if !says_equal(&node.head) {
        return None;
    }
    if node.kids.len() != 2 {
        return None;
    }
    Some((node.kids[0], node.kids[1]))
}
