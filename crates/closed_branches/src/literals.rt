// Whether a formula is among the literals of a branch.
ghost use Rattle.std.specs.Prelude.{◌≡◌, ◌↔◌, ◌<◌, ℕ, slice_index, length, map, IsTrue, IfOk};
ghost use Rattle.std.specs.Bool.{MatchBool};
ghost use Rattle.same_terms.specs.SameTerms.{Among};
ghost use Rattle.branches.specs.Ids.{BranchHeld};
ghost use Rattle.closed_branches.specs.ClosedBranches.{StandsThere};

use branch_rows::literal_places;
use qed_terms::{IdBranch, TermStore};
use std::alloc::Global;
use tree_places::{empty, place_of};
use wp_base::NoMemory;

fn stands_there(places: &[usize], place: usize) -> bool
    ensures { MatchBool result (StandsThere places.now place) (StandsThere places.now place → ⊥) }
{
    for other in places {
        if *other == place {
            return true;
        }
    }
    false
}

/// Whether a formula is among the literals of the branch.
pub fn is_literal<S: TermStore>(
    alloc: Global,
    store: &S,
    branch: &IdBranch<S::Id>,
    formula: S::Id,
) -> Result<bool, NoMemory>
    requires held { BranchHeld (S.held store.now) branch.now }
    requires formula { S.held store.now formula }
    ensures { IfOk result (λ answer. IsTrue answer ↔ Among (S.tree store.now formula) (map (S.tree store.now) branch.now.literals)) }
{
    let mut table = empty(alloc);
    let places = literal_places(alloc, store, &mut table, branch.literals.as_slice())?;
    let place = place_of(alloc, store, &mut table, formula)?;
    let answer = stands_there(places.as_slice(), place);
    Ok(answer)
}
