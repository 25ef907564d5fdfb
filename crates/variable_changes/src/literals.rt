// The first literal that gives a variable which can be replaced everywhere.
ghost use Rattle.std.specs.Prelude.{◌≡◌, [], ◌∷◌, true, false, length, option_map, OnOk, IfOk};
ghost use Rattle.std.specs.Ordering.{nat_cmp};
ghost use Rattle.std.specs.Cmp.Lexicographic.{slice_cmp};
ghost use Rattle.qed_terms.specs.declared.head.Sort.TheVariants as sorts;
ghost use Rattle.qed_terms.specs.Nodes.{kids_of};
ghost use Rattle.qed_terms.specs.Store.{KeepsOlder};
ghost use Rattle.qed_linear.specs.Linear.{at_order};
ghost use Rattle.branches.specs.Ids.{branch_of, BranchHeld};
ghost use Rattle.branch_changes.specs.Givens.{first_put, form_givens, side_givens, same_givens, givens, is_nothing, variable};
ghost use Rattle.branch_changes.specs.Ids.{given_of};
ghost use Rattle.equality_variables.specs.Forms.{lin_of, PartsHeld, GivenHeld};
ghost use Rattle.variable_changes.specs.Found.{is_equality, is_sameness, is_zero_head, zero_givens, comes_before, is_second_later, IsFirstElimination, EliminationHeld};

use crate::everywhere::put_first;
use branch_changes::{ChangeRules, IdGiven};
use equality_variables::{IdForm, given_at, memory_given, written};
use qed_terms::{FormOp, Head, IdBranch, Sort, TermStore};
use std::alloc::Global;
use std::cmp::Ordering;
use wp_base::NoMemory;

/// The place of a literal, and the variable that it gives with its term.
#[derive(Drop)]
pub struct Elimination<I> {
    pub at: usize,
    pub given: IdGiven<I>,
}

/// The first of those that a form gives, the last variable in its order first.
fn first_of_form<S: TermStore, R: ChangeRules<S>>(
    alloc: Global,
    store: &mut S,
    rules: &mut R,
    branch: &IdBranch<S::Id>,
    form: &IdForm<S::Id>,
) -> Result<Option<IdGiven<S::Id>>, NoMemory>
    requires ready { R.ready rules.old store.old }
    requires held { BranchHeld (S.held store.old) branch.now }
    requires form { PartsHeld (S.held store.old) form.now.parts.items }
    ensures ready { OnOk result (R.ready rules.new store.new) }
    ensures older { OnOk result (KeepsOlder (S.held store.old) (S.held store.new) (S.tree store.old) (S.tree store.new)) }
    ensures first { IfOk result (λ first. option_map (given_of (S.tree store.new)) first ≡ first_put (branch_of (S.tree store.old) branch.now) (form_givens (lin_of (S.tree store.old) form.now))) }
    ensures held { IfOk result (GivenHeld (S.held store.new) (S.tree store.new)) }
{
    let parts = form.parts.as_slice();
    let count = parts.len();
    for i in 0..count {
        let given = given_at(alloc, store, form, count - 1 - i)?;
        let first = put_first(alloc, &*store, rules, branch, given)?;
        match first {
            Some(given) => return Ok(Some(given)),
            None => {}
        }
    }
    Ok(None)
}

/// Of two memories that are the same: the first one if it is given, else the second.
fn first_of_sides<S: TermStore, R: ChangeRules<S>>(
    alloc: Global,
    store: &S,
    rules: &mut R,
    branch: &IdBranch<S::Id>,
    memory: S::Id,
    other: S::Id,
) -> Result<Option<IdGiven<S::Id>>, NoMemory>
    requires ready { R.ready rules.old store.now }
    requires held { BranchHeld (S.held store.now) branch.now }
    requires memory { S.held store.now memory }
    requires other { S.held store.now other }
    ensures ready { OnOk result (R.ready rules.new store.now) }
    ensures first { IfOk result (λ first. option_map (given_of (S.tree store.now)) first ≡ first_put (branch_of (S.tree store.now) branch.now) (side_givens (S.tree store.now memory) (S.tree store.now other))) }
    ensures held { IfOk result (GivenHeld (S.held store.now) (S.tree store.now)) }
{
    let given = memory_given(alloc, store, memory, other)?;
    let first = put_first(alloc, store, rules, branch, given)?;
    match first {
        Some(given) => Ok(Some(given)),
        None => {
            let last = memory_given(alloc, store, other, memory)?;
            let second = put_first(alloc, store, rules, branch, last)?;
            Ok(second)
        }
    }
}

fn is_less(name: &[u8], other: &[u8]) -> bool
    ensures { result ≡ at_order (slice_cmp nat_cmp name.now other.now) true false false }
{
    match name.cmp(other) {
        Ordering::Less => true,
        Ordering::Equal => false,
        Ordering::Greater => false,
    }
}

/// Whether a name comes before that of another variable of memories.
fn comes_before(name: &[u8], head: &Head) -> bool
    ensures { result ≡ comes_before name.now (variable sorts.Memory head.now) }
{
    match head {
        Head::Var(other, Sort::Memory) => is_less(name, other.bytes()),
        Head::Var(_, Sort::Int) => false,
        Head::Var(_, Sort::Table) => false,
        _ => false,
    }
}

/// Whether both heads are variables of memories, and the second one is the later one.
fn is_second_later(first: &Head, second: &Head) -> bool
    ensures { result ≡ is_second_later (variable sorts.Memory first.now) (variable sorts.Memory second.now) }
{
    match first {
        Head::Var(name, Sort::Memory) => comes_before(name.bytes(), second),
        Head::Var(_, Sort::Int) => false,
        Head::Var(_, Sort::Table) => false,
        _ => false,
    }
}

/// The first that two memories which are the same give.
fn first_of_same<S: TermStore, R: ChangeRules<S>>(
    alloc: Global,
    store: &S,
    rules: &mut R,
    branch: &IdBranch<S::Id>,
    memory: S::Id,
    other: S::Id,
) -> Result<Option<IdGiven<S::Id>>, NoMemory>
    requires ready { R.ready rules.old store.now }
    requires held { BranchHeld (S.held store.now) branch.now }
    requires memory { S.held store.now memory }
    requires other { S.held store.now other }
    ensures ready { OnOk result (R.ready rules.new store.now) }
    ensures first { IfOk result (λ first. option_map (given_of (S.tree store.now)) first ≡ first_put (branch_of (S.tree store.now) branch.now) (same_givens (S.tree store.now memory) (S.tree store.now other))) }
    ensures held { IfOk result (GivenHeld (S.held store.now) (S.tree store.now)) }
{
    if is_second_later(store.head(memory), store.head(other)) {
        let first = first_of_sides(alloc, store, rules, branch, other, memory)?;
        return Ok(first);
    }
    let second = first_of_sides(alloc, store, rules, branch, memory, other)?;
    Ok(second)
}

fn is_equality(head: &Head) -> bool
    ensures { result ≡ is_equality head.now }
{
    match head {
        Head::Form(FormOp::Equal) => true,
        _ => false,
    }
}

fn is_sameness(head: &Head) -> bool
    ensures { result ≡ is_sameness head.now }
{
    match head {
        Head::Form(FormOp::Same) => true,
        _ => false,
    }
}

fn is_zero_head(head: &Head) -> bool
    ensures { result ≡ is_zero_head head.now }
{
    match head {
        Head::Num(number) => *number == 0,
        _ => false,
    }
}

/// Whether a term is 0.
fn is_nothing<S: TermStore>(store: &S, id: S::Id) -> bool
    requires { S.held store.now id }
    ensures { result ≡ is_nothing (S.tree store.now id) }
{
    is_zero_head(store.head(id))
}

/// The first that an equality of integers gives.
fn first_of_zero<S: TermStore, R: ChangeRules<S>>(
    alloc: Global,
    store: &mut S,
    rules: &mut R,
    branch: &IdBranch<S::Id>,
    left: S::Id,
    right: S::Id,
) -> Result<Option<IdGiven<S::Id>>, NoMemory>
    requires ready { R.ready rules.old store.old }
    requires held { BranchHeld (S.held store.old) branch.now }
    requires left { S.held store.old left }
    requires right { S.held store.old right }
    ensures ready { OnOk result (R.ready rules.new store.new) }
    ensures older { OnOk result (KeepsOlder (S.held store.old) (S.held store.new) (S.tree store.old) (S.tree store.new)) }
    ensures first { IfOk result (λ first. option_map (given_of (S.tree store.new)) first ≡ first_put (branch_of (S.tree store.old) branch.now) (zero_givens (S.tree store.old left) (S.tree store.old right))) }
    ensures held { IfOk result (GivenHeld (S.held store.new) (S.tree store.new)) }
{
    if !is_nothing(&*store, right) {
        return Ok(None);
    }
    let form = written(alloc, &*store, left)?;
    let first = first_of_form(alloc, store, rules, branch, &form)?;
    Ok(first)
}

/// The kids of a relation of two terms.
fn two_kids<S: TermStore>(store: &S, id: S::Id) -> (S::Id, S::Id)
    requires held { S.held store.now id }
    requires two { length (kids_of (S.tree store.now id)) ≡ 2 }
    ensures first { S.held store.now result.0 }
    ensures second { S.held store.now result.1 }
    ensures kids { kids_of (S.tree store.now id) ≡ S.tree store.now result.0 ∷ S.tree store.now result.1 ∷ [] }
{
    let kids = store.kids(id);
    (kids[0], kids[1])
}

/// The first that a literal gives.
fn first_given<S: TermStore, R: ChangeRules<S>>(
    alloc: Global,
    store: &mut S,
    rules: &mut R,
    branch: &IdBranch<S::Id>,
    id: S::Id,
) -> Result<Option<IdGiven<S::Id>>, NoMemory>
    requires ready { R.ready rules.old store.old }
    requires held { BranchHeld (S.held store.old) branch.now }
    requires id { S.held store.old id }
    ensures ready { OnOk result (R.ready rules.new store.new) }
    ensures older { OnOk result (KeepsOlder (S.held store.old) (S.held store.new) (S.tree store.old) (S.tree store.new)) }
    ensures first { IfOk result (λ first. option_map (given_of (S.tree store.new)) first ≡ first_put (branch_of (S.tree store.old) branch.now) (givens (S.tree store.old id))) }
    ensures held { IfOk result (GivenHeld (S.held store.new) (S.tree store.new)) }
{
    if is_equality(store.head(id)) {
        let kids = two_kids(&*store, id);
        let first = first_of_zero(alloc, store, rules, branch, kids.0, kids.1)?;
        return Ok(first);
    }
    if is_sameness(store.head(id)) {
        let sides = two_kids(&*store, id);
        let second = first_of_same(alloc, &*store, rules, branch, sides.0, sides.1)?;
        return Ok(second);
    }
    Ok(None)
}

fn elimination_of<I: Copy + Drop>(at: usize, given: IdGiven<I>) -> Elimination<I>
    ensures at { result.at ≡ at }
    ensures given { result.given ≡ given }
{
    Elimination { at, given }
}

/// The first literal of the branch that gives a variable which can be replaced everywhere, with that variable.
pub fn first_elimination<S: TermStore, R: ChangeRules<S>>(
    alloc: Global,
    store: &mut S,
    rules: &mut R,
    branch: &IdBranch<S::Id>,
) -> Result<Option<Elimination<S::Id>>, NoMemory>
    requires ready { R.ready rules.old store.old }
    requires held { BranchHeld (S.held store.old) branch.now }
    ensures ready { OnOk result (R.ready rules.new store.new) }
    ensures older { OnOk result (KeepsOlder (S.held store.old) (S.held store.new) (S.tree store.old) (S.tree store.new)) }
    ensures first { IfOk result (IsFirstElimination (S.tree store.new) (branch_of (S.tree store.old) branch.now)) }
    ensures held { IfOk result (EliminationHeld (S.held store.new) (S.tree store.new)) }
{
    let literals = branch.literals.as_slice();
    for at in 0..literals.len() {
        let first = first_given(alloc, store, rules, branch, literals[at])?;
        match first {
            Some(given) => return Ok(Some(elimination_of(at, given))),
            None => {}
        }
    }
    Ok(None)
}
