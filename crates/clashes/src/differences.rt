// Whether a literal is the `not` of an equality whose sides don't differ.
ghost use Rattle.std.specs.Prelude.{◌≡◌, ◌<◌, Bool, List, All, map, IfOk};
ghost use Rattle.std.specs.Bool.{MatchBool};
ghost use Rattle.std.specs.Ordering.{int_eq};
ghost use Rattle.qed_terms.specs.Tree.{Tree};
ghost use Rattle.same_places.specs.Same.{at};
ghost use Rattle.same_terms.specs.SameTerms.{Among};
ghost use Rattle.tree_places.specs.View.{nodes_of, IsKept};
ghost use Rattle.term_forms.specs.Forms.{tree_of, count_of};
ghost use Rattle.congruence.specs.Closed.{IsClosed};
ghost use Rattle.clashes.specs.Kinds.{IsNoDifference, OneSo};
ghost use Rattle.clashes.specs.Sums.{Cancel};

use crate::literals::{negated, sides};
use crate::sums::vanish;
use congruence::TermClasses;
use std::alloc::Global;
use term_forms::{Form, written};
use tree_places::TreeTable;
use wp_base::NoMemory;

fn are_equal(number: i128, other: i128) -> bool
    ensures { result ≡ int_eq number other }
{
    number == other
}

/// Whether two forms have one constant, and nothing is left of the one less the other where places of one class are taken as one.
fn cancel(alloc: Global, classes: &[usize], left: &Form, right: &Form) -> Result<bool, NoMemory>
    ensures { IfOk result (λ b. MatchBool b (Cancel (at classes.now) left.now right.now) (Cancel (at classes.now) left.now right.now → ⊥)) }
{
    if !are_equal(left.constant, right.constant) {
        return Ok(false);
    }
    let answer = vanish(
        alloc,
        classes,
        left.parts.as_slice(),
        right.parts.as_slice(),
    )?;
    Ok(answer)
}

/// Whether the literal at a place is the `not` of an equality whose sides don't differ.
fn is_no_difference(
    alloc: Global,
    table: &TreeTable,
    classes: &[usize],
    literal: usize,
) -> Result<bool, NoMemory>
    requires kept { IsKept table.now }
    requires below { literal < count_of table.now }
    ensures { IfOk result (λ b. (ls : List Tree) (marks : List Bool) → IsClosed ls (nodes_of table.now) marks classes.now → Among (tree_of table.now literal) ls → MatchBool b (IsNoDifference ls (tree_of table.now literal)) (IsNoDifference ls (tree_of table.now literal) → ⊥)) }
{
    let Some(formula) = negated(table, literal) else {
        return Ok(false)
    };
    let Some(sides) = sides(table, formula) else {
        return Ok(false)
    };
    let left = written(alloc, table, sides.0)?;
    let right = written(alloc, table, sides.1)?;
    let answer = cancel(alloc, classes, &left, &right)?;
    Ok(answer)
}

/// Whether some literal is the `not` of an equality whose sides don't differ.
pub fn has_no_difference(
    alloc: Global,
    table: &TreeTable,
    closed: &TermClasses,
    literals: &[usize],
) -> Result<bool, NoMemory>
    requires kept { IsKept table.now }
    requires below { All (λ k. k < count_of table.now) literals.now }
    requires closed { IsClosed (map (tree_of table.now) literals.now) (nodes_of table.now) closed.now.marks.items closed.now.classes.items }
    ensures { IfOk result (λ b. MatchBool b (OneSo (IsNoDifference (map (tree_of table.now) literals.now)) (map (tree_of table.now) literals.now)) (OneSo (IsNoDifference (map (tree_of table.now) literals.now)) (map (tree_of table.now) literals.now) → ⊥)) }
{
    let classes = closed.classes.as_slice();
    for literal in literals {
        let so = is_no_difference(alloc, table, classes, *literal)?;
        if so {
            return Ok(true);
        }
    }
    Ok(false)
}
