// A literal moves to the literals, and a conjunction is replaced by its parts.
ghost use Rattle.std.specs.Prelude.{◌≡◌, ◌+◌, ◌<◌, ◌++◌, [], ◌∷◌, take, drop, length, IfOk};
ghost use Rattle.branches.specs.Steps.{Tried};
ghost use Rattle.branches.specs.Ids.{branch_of, branch_made, BranchHeld, MadeHeld};
ghost use Rattle.branch_changes.specs.Changes.{Moves, TakesApart};

use branches::{Kind, first_of, with_kids};
use qed_terms::{IdBranch, TermStore};
use std::alloc::Global;
use wp_base::{List, NoMemory};

fn with_last<I: Copy + Drop>(alloc: Global, items: &[I], item: I) -> Result<List<I>, NoMemory>
    ensures { IfOk result (λ list. list ≡ items.now ++ item ∷ []) }
{
    let mut list = Vec::with_capacity(alloc, items.len())?;
    list.extend_from_slice(items)?;
    list.push(item)?;
    Ok(List::from_vec(list))
}

/// The items without the one at a place.
pub fn without<I: Copy + Drop>(alloc: Global, items: &[I], at: usize) -> Result<List<I>, NoMemory>
    requires { at < length items.now }
    ensures { IfOk result (λ list. list ≡ take at items.now ++ drop (at + 1) items.now) }
{
    let mut list = Vec::with_capacity(alloc, items.len())?;
    list.extend_from_slice(&items[..at])?;
    list.extend_from_slice(&items[at + 1..])?;
    Ok(List::from_vec(list))
}

/// The branch with this literal behind the others, and without what waits at a place.
fn moved<I: Copy + Drop>(
    alloc: Global,
    branch: &IdBranch<I>,
    at: usize,
    literal: I,
) -> Result<IdBranch<I>, NoMemory>
    requires { at < length branch.now.waiting }
    ensures literals { IfOk result (λ made. made.literals ≡ branch.now.literals ++ literal ∷ []) }
    ensures waiting { IfOk result (λ made. made.waiting ≡ take at branch.now.waiting ++ drop (at + 1) branch.now.waiting) }
{
    let literals = with_last(alloc, branch.literals.as_slice(), literal)?;
    let waiting = without(alloc, branch.waiting.as_slice(), at)?;
    Ok(IdBranch { literals, waiting })
}

/// The first literal that waits moves to the literals.
pub fn move_literal<S: TermStore>(
    alloc: Global,
    store: &S,
    branch: &IdBranch<S::Id>,
) -> Result<Option<IdBranch<S::Id>>, NoMemory>
    requires { BranchHeld (S.held store.now) branch.now }
    ensures held { IfOk result (MadeHeld (S.held store.now)) }
    ensures tried { IfOk result (λ made. Tried Moves (branch_of (S.tree store.now) branch.now) (branch_made (S.tree store.now) made)) }
{
    match first_of(store, branch.waiting.as_slice(), Kind::Literal) {
        Some(at) => {
            let made = moved(alloc, branch, at, branch.waiting.as_slice()[at])?;
            Ok(Some(made))
        }
        None => Ok(None),
    }
}

/// The first conjunction that waits is replaced by its parts.
pub fn take_apart<S: TermStore>(
    alloc: Global,
    store: &S,
    branch: &IdBranch<S::Id>,
) -> Result<Option<IdBranch<S::Id>>, NoMemory>
    requires { BranchHeld (S.held store.now) branch.now }
    ensures held { IfOk result (MadeHeld (S.held store.now)) }
    ensures tried { IfOk result (λ made. Tried TakesApart (branch_of (S.tree store.now) branch.now) (branch_made (S.tree store.now) made)) }
{
    match first_of(store, branch.waiting.as_slice(), Kind::And) {
        Some(at) => {
            let id = branch.waiting.as_slice()[at];
            let made = with_kids(alloc, branch, at, store.kids(id))?;
            Ok(Some(made))
        }
        None => Ok(None),
    }
}
