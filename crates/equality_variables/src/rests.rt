// What an atom of a form that is 0 equals, as a term of the store.
ghost use Rattle.std.specs.Prelude.{◌≡◌, ◌<◌, ◌+◌, ◌++◌, false, true, length, map, take, drop, option_map, OnOk, IfOk, MatchOption};
ghost use Rattle.qed_terms.specs.Store.{KeepsOlder};
ghost use Rattle.qed_linear.specs.Linear.{checked, of_lin};
ghost use Rattle.qed_linear.specs.Linear as linear;
ghost use Rattle.same_terms.specs.Written.{rest_form};
ghost use Rattle.term_forms.specs.Forms.{signed, signed_number};
ghost use Rattle.equality_variables.specs.Forms.{part_of, parts_of, PartsHeld, IsPartTerm, ArePartTerms, OneHeld, rest_tree};

use crate::forms::IdForm;
use crate::made::{multiple_term, sum_with};
use qed_terms::TermStore;
use std::alloc::Global;
use term_forms::is_integer;
use wp_base::NoMemory;

/// The items without the one at a place.
fn without<I: Copy + Drop>(
    alloc: Global,
    items: &[(I, i128)],
    at: usize,
) -> Result<Vec<(I, i128)>, NoMemory>
    requires { at < length items.now }
    ensures { IfOk result (λ list. list.items ≡ take at items.now ++ drop (at + 1) items.now) }
{
    let mut list = Vec::with_capacity(alloc, items.len())?;
    list.extend_from_slice(&items[..at])?;
    list.extend_from_slice(&items[at + 1..])?;
    Ok(list)
}

/// The number turned, or as it is, where it fits.
fn signed_number(number: i128, plus: bool) -> Option<i128>
    ensures { MatchOption result (linear.fits (signed_number plus number) ≡ false) (λ z. (z ≡ signed_number plus number) × (linear.fits z ≡ true)) }
{
    if plus {
        number.checked_neg()
    } else {
        Some(number)
    }
}

/// The term of a part turned, or as it is, where it is of an integer and fits.
fn part_term<S: TermStore>(
    alloc: Global,
    store: &mut S,
    part: &(S::Id, i128),
    plus: bool,
) -> Result<Option<S::Id>, NoMemory>
    requires { S.held store.old part.now.0 }
    ensures older { OnOk result (KeepsOlder (S.held store.old) (S.held store.new) (S.tree store.old) (S.tree store.new)) }
    ensures term { IfOk result (IsPartTerm (S.held store.new) (S.tree store.new) (signed plus (part_of (S.tree store.old) part.now))) }
{
    if !is_integer(store.head(part.0)) {
        return Ok(None);
    }
    match signed_number(part.1, plus) {
        Some(times) => {
            let id = multiple_term(alloc, store, part.0, times)?;
            Ok(Some(id))
        }
        None => Ok(None),
    }
}

/// Those of several parts.
fn part_terms<S: TermStore>(
    alloc: Global,
    store: &mut S,
    parts: &[(S::Id, i128)],
    plus: bool,
) -> Result<Option<Vec<S::Id>>, NoMemory>
    requires { PartsHeld (S.held store.old) parts.now }
    ensures older { OnOk result (KeepsOlder (S.held store.old) (S.held store.new) (S.tree store.old) (S.tree store.new)) }
    ensures terms { IfOk result (λ made. ArePartTerms (S.held store.new) (S.tree store.new) (map (signed plus) (parts_of (S.tree store.old) parts.now)) (option_map (λ v. v.items) made)) }
{
    let mut terms = Vec::new(alloc);
    for i in 0..parts.len() {
        let part = parts[i];
        let term = part_term(alloc, store, &part, plus)?;
        match term {
            Some(id) => terms.push(id)?,
            None => return Ok(None),
        }
    }
    Ok(Some(terms))
}

/// The sum of the terms of several parts and of a constant, where the parts fit.
fn rest_with<S: TermStore>(
    alloc: Global,
    store: &mut S,
    parts: &[(S::Id, i128)],
    plus: bool,
    constant: i128,
) -> Result<Option<S::Id>, NoMemory>
    requires { PartsHeld (S.held store.old) parts.now }
    ensures older { OnOk result (KeepsOlder (S.held store.old) (S.held store.new) (S.tree store.old) (S.tree store.new)) }
    ensures held { IfOk result (OneHeld (S.held store.new)) }
    ensures rest { IfOk result (λ made. option_map (S.tree store.new) made ≡ rest_tree (map (signed plus) (parts_of (S.tree store.old) parts.now)) constant) }
{
    let terms = part_terms(alloc, store, parts, plus)?;
    match terms {
        None => Ok(None),
        Some(terms) => {
            let id = sum_with(alloc, store, terms, constant)?;
            Ok(Some(id))
        }
    }
}

/// What the atom at a place of a form equals where the form is 0, by the other parts and the constant, where that fits 128 bits. The
/// coefficient of the atom is 1, or -1.
pub fn rest_term<S: TermStore>(
    alloc: Global,
    store: &mut S,
    form: &IdForm<S::Id>,
    at: usize,
    plus: bool,
) -> Result<Option<S::Id>, NoMemory>
    requires at { at < length form.now.parts.items }
    requires held { PartsHeld (S.held store.old) form.now.parts.items }
    ensures older { OnOk result (KeepsOlder (S.held store.old) (S.held store.new) (S.tree store.old) (S.tree store.new)) }
    ensures held { IfOk result (OneHeld (S.held store.new)) }
    ensures rest { IfOk result (λ made. option_map (S.tree store.new) made ≡ option_map of_lin (checked (rest_form plus (take at (parts_of (S.tree store.old) form.now.parts.items) ++ drop (at + 1) (parts_of (S.tree store.old) form.now.parts.items)) form.now.constant))) }
{
    let others = without(alloc, form.parts.as_slice(), at)?;
    match signed_number(form.constant, plus) {
        None => Ok(None),
        Some(constant) => {
            let made = rest_with(alloc, store, others.as_slice(), plus, constant)?;
            Ok(made)
        }
    }
}
