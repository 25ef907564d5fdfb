// The variables that an equality gives.
ghost use Rattle.std.specs.Prelude.{◌≡◌, ◌<◌, ◌+◌, ◌++◌, length, take, drop, option_map, Some, OnOk, IfOk};
ghost use Rattle.qed_terms.specs.declared.head.Sort.TheVariants as sorts;
ghost use Rattle.qed_terms.specs.Store.{KeepsOlder};
ghost use Rattle.branch_changes.specs.Givens.{is_apart, given_where, given_at, memory_given, rest_by, unit_sign};
ghost use Rattle.branch_changes.specs.Ids.{given_of};
ghost use Rattle.equality_variables.specs.Forms.{lin_of, parts_of, PartsHeld, GivenHeld};

use crate::forms::IdForm;
use crate::free::is_free;
use crate::heads::{may_stand_for, variable};
use crate::made::are_equal;
use crate::rests::rest_term;
use branch_changes::IdGiven;
use qed_terms::{Sort, TermStore};
use std::alloc::Global;
use wp_base::{NoMemory, Str};

/// Whether a coefficient is 1, or -1.
fn unit_sign(times: i128) -> Option<bool>
    ensures { result ≡ unit_sign times }
{
    if are_equal(times, 1) {
        return Some(true);
    }
    if are_equal(times, -1) {
        return Some(false);
    }
    None
}

/// Whether a term may stand for a variable, which isn't inside it.
fn is_apart<S: TermStore>(store: &S, sort: Sort, name: &[u8], id: S::Id) -> bool
    requires { S.held store.now id }
    ensures { result ≡ is_apart sort name.now (S.tree store.now id) }
{
    !is_free(store, name, sort, id) && may_stand_for(store, sort, id)
}

fn given_with<I: Copy + Drop>(name: Str, sort: Sort, term: I) -> IdGiven<I>
    ensures name { result.name ≡ name }
    ensures sort { result.sort ≡ sort }
    ensures term { result.term ≡ term }
{
    IdGiven { name, sort, term }
}

/// The variable with the term, where this may stand for it.
fn given_where<S: TermStore>(
    store: &S,
    sort: Sort,
    name: Str,
    term: S::Id,
) -> Option<IdGiven<S::Id>>
    requires { S.held store.now term }
    ensures given { option_map (given_of (S.tree store.now)) result ≡ given_where sort (Some name) (Some (S.tree store.now term)) }
    ensures held { GivenHeld (S.held store.now) (S.tree store.now) result }
{
    if !is_apart(store, sort, name.bytes(), term) {
        return None;
    }
    Some(given_with(name, sort, term))
}

/// The variable of this name, if it is one, with the term.
fn given_if<S: TermStore>(
    store: &S,
    sort: Sort,
    name: Option<Str>,
    term: S::Id,
) -> Option<IdGiven<S::Id>>
    requires { S.held store.now term }
    ensures given { option_map (given_of (S.tree store.now)) result ≡ given_where sort name (Some (S.tree store.now term)) }
    ensures held { GivenHeld (S.held store.now) (S.tree store.now) result }
{
    match name {
        None => None,
        Some(name) => given_where(store, sort, name, term),
    }
}

/// The variable of this name, if it is one, with what the atom at a place of a form equals, if its coefficient is 1, or -1.
fn given_by<S: TermStore>(
    alloc: Global,
    store: &mut S,
    form: &IdForm<S::Id>,
    at: usize,
    name: Option<Str>,
    plus: bool,
) -> Result<Option<IdGiven<S::Id>>, NoMemory>
    requires at { at < length form.now.parts.items }
    requires held { PartsHeld (S.held store.old) form.now.parts.items }
    ensures older { OnOk result (KeepsOlder (S.held store.old) (S.held store.new) (S.tree store.old) (S.tree store.new)) }
    ensures given { IfOk result (λ made. option_map (given_of (S.tree store.new)) made ≡ given_where sorts.Int name (rest_by (Some plus) (take at (parts_of (S.tree store.old) form.now.parts.items) ++ drop (at + 1) (parts_of (S.tree store.old) form.now.parts.items)) form.now.constant)) }
    ensures held { IfOk result (GivenHeld (S.held store.new) (S.tree store.new)) }
{
    let term = rest_term(alloc, store, form, at, plus)?;
    match term {
        None => Ok(None),
        Some(term) => Ok(given_if(&*store, Sort::Int, name, term)),
    }
}

/// The variable that a form gives where it is 0, by the part at a place.
pub fn given_at<S: TermStore>(
    alloc: Global,
    store: &mut S,
    form: &IdForm<S::Id>,
    at: usize,
) -> Result<Option<IdGiven<S::Id>>, NoMemory>
    requires at { at < length form.now.parts.items }
    requires held { PartsHeld (S.held store.old) form.now.parts.items }
    ensures older { OnOk result (KeepsOlder (S.held store.old) (S.held store.new) (S.tree store.old) (S.tree store.new)) }
    ensures given { IfOk result (λ made. option_map (given_of (S.tree store.new)) made ≡ given_at (lin_of (S.tree store.old) form.now) at) }
    ensures held { IfOk result (GivenHeld (S.held store.new) (S.tree store.new)) }
{
    let parts = form.parts.as_slice();
    let part = parts[at];
    match unit_sign(part.1) {
        None => Ok(None),
        Some(plus) => {
            let name = variable(alloc, &*store, Sort::Int, part.0)?;
            let made = given_by(alloc, store, form, at, name, plus)?;
            Ok(made)
        }
    }
}

/// The first of two memories that are the same, where it is a variable, with the second one.
pub fn memory_given<S: TermStore>(
    alloc: Global,
    store: &S,
    memory: S::Id,
    other: S::Id,
) -> Result<Option<IdGiven<S::Id>>, NoMemory>
    requires memory { S.held store.now memory }
    requires other { S.held store.now other }
    ensures given { IfOk result (λ made. option_map (given_of (S.tree store.now)) made ≡ memory_given (S.tree store.now memory) (S.tree store.now other)) }
    ensures held { IfOk result (GivenHeld (S.held store.now) (S.tree store.now)) }
{
    let name = variable(alloc, store, Sort::Memory, memory)?;
    Ok(given_if(store, Sort::Memory, name, other))
}
