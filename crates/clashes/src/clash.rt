// Whether literals clash.
ghost use Rattle.std.specs.Prelude.{◌≡◌, ◌↔◌, ◌<◌, All, map, IsTrue, IfOk};
ghost use Rattle.std.specs.Bool.{MatchBool};
ghost use Rattle.qed_terms.specs.Tree.{false_tree};
ghost use Rattle.same_places.specs.Same.{at};
ghost use Rattle.same_terms.specs.SameTerms.{Among};
ghost use Rattle.same_terms.specs.Clashes.{Clash};
ghost use Rattle.tree_places.specs.View.{nodes_of, IsKept};
ghost use Rattle.term_forms.specs.Forms.{tree_of, count_of};
ghost use Rattle.congruence.specs.Closed.{IsClosed};
ghost use Rattle.clashes.specs.Kinds.{IsOpposite, OneSo};
ghost use Rattle.clashes.specs.Seen.{IsOppositeThere, place_in};

use crate::differences::has_no_difference;
use crate::literals::{is_false, negated};
use crate::numbers::has_two_numbers;
use crate::seen::{class_at, class_places, place_in};
use congruence::TermClasses;
use std::alloc::Global;
use std::collections::HashMap;
use tree_places::TreeTable;
use wp_base::NoMemory;

/// Whether some literal is `false`.
fn has_false(table: &TreeTable, literals: &[usize]) -> bool
    requires kept { IsKept table.now }
    requires below { All (λ k. k < count_of table.now) literals.now }
    ensures { MatchBool result (Among false_tree (map (tree_of table.now) literals.now)) (Among false_tree (map (tree_of table.now) literals.now) → ⊥) }
{
    for literal in literals {
        if is_false(table, *literal) {
            return true;
        }
    }
    false
}

/// Whether a literal is the `not` of a formula whose class was seen.
fn is_opposite(
    table: &TreeTable,
    classes: &[usize],
    seen: &HashMap<usize, usize>,
    literal: usize,
) -> bool
    requires kept { IsKept table.now }
    requires below { literal < count_of table.now }
    ensures { MatchBool result (IsOppositeThere (tree_of table.now) (count_of table.now) (at classes.now) (place_in seen.now.entries) literal) (IsOppositeThere (tree_of table.now) (count_of table.now) (at classes.now) (place_in seen.now.entries) literal → ⊥) }
{
    let Some(formula) = negated(table, literal) else {
        return false
    };
    match place_in(seen, class_at(classes, formula)) {
        Some(_place) => true,
        None => false,
    }
}

/// Whether a literal stands beside its `not`, up to same terms.
fn has_opposites(
    alloc: Global,
    table: &TreeTable,
    closed: &TermClasses,
    literals: &[usize],
) -> Result<bool, NoMemory>
    requires kept { IsKept table.now }
    requires below { All (λ k. k < count_of table.now) literals.now }
    requires closed { IsClosed (map (tree_of table.now) literals.now) (nodes_of table.now) closed.now.marks.items closed.now.classes.items }
    ensures { IfOk result (λ b. MatchBool b (OneSo (IsOpposite (map (tree_of table.now) literals.now)) (map (tree_of table.now) literals.now)) (OneSo (IsOpposite (map (tree_of table.now) literals.now)) (map (tree_of table.now) literals.now) → ⊥)) }
{
    let classes = closed.classes.as_slice();
    let seen = class_places(alloc, classes, literals)?;
    for literal in literals {
        if is_opposite(table, classes, &seen, *literal) {
            return Ok(true);
        }
    }
    Ok(false)
}

/// Whether the literals at these places clash, by the classes of their terms.
pub fn has_clash(
    alloc: Global,
    table: &TreeTable,
    closed: &TermClasses,
    literals: &[usize],
) -> Result<bool, NoMemory>
    requires kept { IsKept table.now }
    requires below { All (λ k. k < count_of table.now) literals.now }
    requires closed { IsClosed (map (tree_of table.now) literals.now) (nodes_of table.now) closed.now.marks.items closed.now.classes.items }
    ensures { IfOk result (λ b. IsTrue b ↔ Clash (map (tree_of table.now) literals.now)) }
{
    if has_false(table, literals) {
        return Ok(true);
    }
    let opposites = has_opposites(alloc, table, closed, literals)?;
    if opposites {
        return Ok(true);
    }
    let numbers = has_two_numbers(alloc, table, closed)?;
    if numbers {
        return Ok(true);
    }
    let answer = has_no_difference(alloc, table, closed, literals)?;
    Ok(answer)
}
