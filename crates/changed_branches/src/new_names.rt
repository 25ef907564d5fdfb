// The first of sk1, sk2, .. that isn't in a branch.
ghost use Rattle.std.specs.Prelude.{◌≡◌, ◌<◌, IfOk};
ghost use Rattle.branches.specs.Ids.{branch_of, BranchHeld};
ghost use Rattle.branch_changes.specs.NewNames.{numbered_name, IsFirstNew};

use crate::names::is_in_branch;
use itoa::Buffer;
use qed_terms::{IdBranch, TermStore};
use std::alloc::Global;
use wp_base::{NoMemory, Str};

/// A name with its number.
#[derive(Drop)]
pub struct NewName {
    pub number: u64,
    pub name: Str,
}

fn numbered(alloc: Global, number: u64) -> Result<Str, NoMemory>
    requires { 0 < number }
    ensures { IfOk result (λ name. name ≡ numbered_name number) }
{
    let mut buffer = Buffer::new();
    let mut bytes = Vec::new(alloc);
    bytes.extend_from_slice(b"sk")?;
    bytes.extend_from_slice(buffer.format(number).as_bytes())?;
    Ok(Str::from_vec(bytes))
}

fn new_name(number: u64, name: Str) -> NewName
    ensures number { result.number ≡ number }
    ensures name { result.name ≡ name }
{
    NewName { number, name }
}

/// The first new name of a branch. So many names that their numbers end are never met.
pub fn first_new<S: TermStore>(
    alloc: Global,
    store: &S,
    branch: &IdBranch<S::Id>,
) -> Result<NewName, NoMemory>
    requires { BranchHeld (S.held store.now) branch.now }
    ensures first { IfOk result (λ new. IsFirstNew (branch_of (S.tree store.now) branch.now) new.number) }
    ensures name { IfOk result (λ new. new.name ≡ numbered_name new.number) }
{
    for number in 1..u64::MAX {
        let name = numbered(alloc, number)?;
        if !is_in_branch(store, name.bytes(), branch) {
            return Ok(new_name(number, name));
        }
    }
    Err(NoMemory)
}
