// An existence is replaced by its bounds and its body for a new name.
ghost use Rattle.std.specs.Prelude.{◌≡◌, [], ◌∷◌, length, OnOk, IfOk};
ghost use Rattle.qed_terms.specs.declared.head.Head.TheVariants as h;
ghost use Rattle.qed_terms.specs.Store.{KeepsOlder};
ghost use Rattle.qed_terms.specs.Tree.{node, three, var};
ghost use Rattle.branches.specs.Branch.{IsExists};
ghost use Rattle.branches.specs.Ids.{branch_of, BranchHeld};
ghost use Rattle.branch_changes.specs.NewNames.{numbered_name, IsFirstNew};

use crate::new_names::first_new;
use qed_terms::{Head, IdBranch, Sort, TermStore};
use std::alloc::Global;
use wp_base::{NoMemory, Str};

/// The name, the bounds and the body of a quantifier.
#[derive(Drop)]
pub struct Range<I> {
    pub name: Str,
    pub low: I,
    pub high: I,
    pub body: I,
}

/// A new name as a term, with its number.
#[derive(Drop)]
pub struct Witness<I> {
    pub number: u64,
    pub term: I,
}

fn range_with<I: Copy + Drop>(name: Str, kids: &[I]) -> Range<I>
    requires { length kids.now ≡ 3 }
    ensures name { result.name ≡ name }
    ensures kids { kids.now ≡ result.low ∷ result.high ∷ result.body ∷ [] }
{
    Range {
        name,
        low: kids[0],
        high: kids[1],
        body: kids[2],
    }
}

fn witness_of<I: Copy + Drop>(number: u64, term: I) -> Witness<I>
    ensures number { result.number ≡ number }
    ensures term { result.term ≡ term }
{
    Witness { number, term }
}

/// The first new name of a branch, as a term.
pub fn witness_term<S: TermStore>(
    alloc: Global,
    store: &mut S,
    branch: &IdBranch<S::Id>,
) -> Result<Witness<S::Id>, NoMemory>
    requires { BranchHeld (S.held store.old) branch.now }
    ensures older { OnOk result (KeepsOlder (S.held store.old) (S.held store.new) (S.tree store.old) (S.tree store.new)) }
    ensures held { IfOk result (λ made. S.held store.new made.term) }
    ensures new { IfOk result (λ made. IsFirstNew (branch_of (S.tree store.old) branch.now) made.number) }
    ensures term { IfOk result (λ made. S.tree store.new made.term ≡ var (numbered_name made.number)) }
{
    let new = first_new(alloc, &*store, branch)?;
    let none = Vec::new(alloc);
    let number = new.number;
    let term = store.make(Head::Var(new.name, Sort::Int), none.as_slice())?;
    Ok(witness_of(number, term))
}

/// The parts of an existence.
pub fn range_of<S: TermStore>(alloc: Global, store: &S, id: S::Id) -> Result<Range<S::Id>, NoMemory>
    requires held { S.held store.now id }
    requires exists { IsExists (S.tree store.now id) }
    ensures is { IfOk result (λ range. S.tree store.now id ≡ node (h.Exists range.name) (three (S.tree store.now range.low) (S.tree store.now range.high) (S.tree store.now range.body))) }
    ensures held { IfOk result (λ range. S.held store.now range.low × S.held store.now range.high × S.held store.now range.body) }
{
    match store.head(id) {
        Head::Exists(name) => {
            let name = name.copy(alloc)?;
            Ok(range_with(name, store.kids(id)))
        }
        _ => unreachable!(),
    }
}
