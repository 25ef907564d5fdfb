// Whether a branch is closed, as it is and with one more literal.
ghost use Rattle.std.specs.Prelude.{◌↔◌, ◌<◌, ◌++◌, ◌∷◌, [], All, map, IsTrue, OnOk, IfOk};
ghost use Rattle.branches.specs.Branch.{branch};
ghost use Rattle.branches.specs.Ids.{branch_of, BranchHeld};
ghost use Rattle.tree_places.specs.View.{IsKept};
ghost use Rattle.term_forms.specs.Forms.{tree_of, count_of};
ghost use Rattle.closed_branches.specs.ClosedBranches.{AreClosed, IsClosedBranch, with_literal};

use crate::rules::LiteralTest;
use branch_rows::literal_places;
use clashes::has_clash;
use congruence::term_classes;
use qed_terms::{IdBranch, TermStore};
use std::alloc::Global;
use tree_places::{TreeTable, empty, place_of};
use wp_base::NoMemory;

/// Whether the literals at these places are closed.
fn are_closed<T: LiteralTest>(
    alloc: Global,
    test: &T,
    table: &mut TreeTable,
    literals: &[usize],
) -> Result<bool, NoMemory>
    requires kept { IsKept table.old }
    requires below { All (λ k. k < count_of table.old) literals.now }
    ensures { IfOk result (λ answer. IsTrue answer ↔ AreClosed T.refuted (map (tree_of table.old) literals.now)) }
{
    let closed = term_classes(alloc, table, literals)?;
    let clash = has_clash(alloc, table, &closed, literals)?;
    if clash {
        return Ok(true);
    }
    let answer = test.refutes(alloc, table, &closed, literals)?;
    Ok(answer)
}

/// Whether the branch is closed by its literals.
pub fn is_closed<S: TermStore, T: LiteralTest>(
    alloc: Global,
    store: &S,
    test: &T,
    branch: &IdBranch<S::Id>,
) -> Result<bool, NoMemory>
    requires { BranchHeld (S.held store.now) branch.now }
    ensures { IfOk result (λ answer. IsTrue answer ↔ IsClosedBranch T.refuted (branch_of (S.tree store.now) branch.now)) }
{
    let mut table = empty(alloc);
    let places = literal_places(alloc, store, &mut table, branch.literals.as_slice())?;
    let answer = are_closed(alloc, test, &mut table, places.as_slice())?;
    Ok(answer)
}

/// Whether the branch with one more literal is closed.
pub fn would_close<S: TermStore, T: LiteralTest>(
    alloc: Global,
    store: &S,
    test: &T,
    branch: &IdBranch<S::Id>,
    literal: S::Id,
) -> Result<bool, NoMemory>
    requires held { BranchHeld (S.held store.now) branch.now }
    requires literal { S.held store.now literal }
    ensures { IfOk result (λ answer. IsTrue answer ↔ IsClosedBranch T.refuted (with_literal (branch_of (S.tree store.now) branch.now) (S.tree store.now literal))) }
{
    let mut table = empty(alloc);
    let mut places = literal_places(alloc, store, &mut table, branch.literals.as_slice())?;
    let place = place_of(alloc, store, &mut table, literal)?;
    places.push(place)?;
    let answer = are_closed(alloc, test, &mut table, places.as_slice())?;
    Ok(answer)
}
