// Branches that are to be expanded, and branches made of others.
ghost use Rattle.std.specs.Prelude.{◌≡◌, ◌+◌, ◌<◌, [], ◌∷◌, ◌++◌, take, drop, length, IfOk};

use qed_terms::IdBranch;
use std::alloc::Global;
use wp_base::{List, NoMemory};

/// A branch that is to be expanded, with the rounds that it has left. One with a disjunct in the place of an `or` asks for room for a
/// leaf first.
#[derive(Drop)]
pub struct IdTask<I> {
    pub fuel: u32,
    pub asks: bool,
    pub at: IdBranch<I>,
}

fn copied<I: Copy + Drop>(alloc: Global, items: &[I]) -> Result<List<I>, NoMemory>
    ensures { IfOk result (λ list. list ≡ items.now) }
{
    let mut list = Vec::with_capacity(alloc, items.len())?;
    list.extend_from_slice(items)?;
    Ok(List::from_vec(list))
}

/// The items with these in the place of one.
fn with_parts<I: Copy + Drop>(
    alloc: Global,
    items: &[I],
    at: usize,
    parts: &[I],
) -> Result<List<I>, NoMemory>
    requires { at < length items.now }
    ensures { IfOk result (λ list. list ≡ take at items.now ++ (parts.now ++ drop (at + 1) items.now)) }
{
    let mut list = Vec::with_capacity(alloc, items.len())?;
    list.extend_from_slice(&items[..at])?;
    list.extend_from_slice(parts)?;
    list.extend_from_slice(&items[at + 1..])?;
    Ok(List::from_vec(list))
}

fn with_item<I: Copy + Drop>(
    alloc: Global,
    items: &[I],
    at: usize,
    item: I,
) -> Result<List<I>, NoMemory>
    requires { at < length items.now }
    ensures { IfOk result (λ list. list ≡ take at items.now ++ item ∷ drop (at + 1) items.now) }
{
    let mut list = Vec::with_capacity(alloc, items.len())?;
    list.extend_from_slice(&items[..at])?;
    list.push(item)?;
    list.extend_from_slice(&items[at + 1..])?;
    Ok(List::from_vec(list))
}

/// The branch with one formula in the place of one that waits.
pub fn in_place<I: Copy + Drop>(
    alloc: Global,
    branch: &IdBranch<I>,
    at: usize,
    item: I,
) -> Result<IdBranch<I>, NoMemory>
    requires { at < length branch.now.waiting }
    ensures literals { IfOk result (λ made. made.literals ≡ branch.now.literals) }
    ensures waiting { IfOk result (λ made. made.waiting ≡ take at branch.now.waiting ++ item ∷ drop (at + 1) branch.now.waiting) }
{
    let literals = copied(alloc, branch.literals.as_slice())?;
    let waiting = with_item(alloc, branch.waiting.as_slice(), at, item)?;
    Ok(IdBranch { literals, waiting })
}

/// The branch with these formulas in the place of one that waits.
pub fn with_kids<I: Copy + Drop>(
    alloc: Global,
    branch: &IdBranch<I>,
    at: usize,
    parts: &[I],
) -> Result<IdBranch<I>, NoMemory>
    requires { at < length branch.now.waiting }
    ensures literals { IfOk result (λ made. made.literals ≡ branch.now.literals) }
    ensures waiting { IfOk result (λ made. made.waiting ≡ take at branch.now.waiting ++ (parts.now ++ drop (at + 1) branch.now.waiting)) }
{
    let literals = copied(alloc, branch.literals.as_slice())?;
    let waiting = with_parts(alloc, branch.waiting.as_slice(), at, parts)?;
    Ok(IdBranch { literals, waiting })
}

/// The branch with these waiting behind the others.
pub fn with_added<I: Copy + Drop>(
    alloc: Global,
    branch: &IdBranch<I>,
    added: &[I],
) -> Result<IdBranch<I>, NoMemory>
    ensures literals { IfOk result (λ made. made.literals ≡ branch.now.literals) }
    ensures waiting { IfOk result (λ made. made.waiting ≡ branch.now.waiting ++ added.now) }
{
    let literals = copied(alloc, branch.literals.as_slice())?;
    let mut waiting = Vec::new(alloc);
    waiting.extend_from_slice(branch.waiting.as_slice())?;
    waiting.extend_from_slice(added)?;
    Ok(IdBranch {
        literals,
        waiting: List::from_vec(waiting),
    })
}
