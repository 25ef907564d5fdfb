// Two values that are taken for integers, truths or pointers; and the first kids of a node.
ghost use Rattle.std.specs.Prelude.{◌≡◌, ℕ, suc, map, IfOk};
ghost use Rattle.std.specs.Option.{option_map};
ghost use Rattle.acsl_encode.specs.Encode as spec;
ghost use Rattle.annotation_heads.specs.Pairs.{both_of, pair, view_formulas, view_integers, view_moving, view_pointers};
ghost use Rattle.annotation_heads.specs.View.{view_terms};

use crate::terms::{Pointer, Terms};
use qed_terms::{Formula, Term};
use std::alloc::Global;
use wp_base::{List, NoMemory};

/// Two values.
#[derive(Drop)]
pub struct Both<A, B> {
    pub first: A,
    pub second: B,
}

// Both, where both are there.
fn paired<A: Drop, B: Drop>(first: Option<A>, second: Option<B>) -> Option<Both<A, B>>
    ensures { result ≡ both_of first second }
{
    let Some(first) = first else {
        return None;
    };
    let Some(second) = second else {
        return None;
    };
    Some(Both { first, second })
}

/// Two integers, where both are.
#[tactic(auto, using(crate::proofs::Paired::found_laws))]
pub fn both_integers(
    alloc: Global,
    first: Terms,
    second: Terms,
) -> Result<Option<Both<Term, Term>>, NoMemory>
    ensures { IfOk result (λ found. option_map view_integers found ≡ pair (spec.as_integer (view_terms first)) (spec.as_integer (view_terms second))) }
{
    let first = first.into_integer(alloc)?;
    let second = second.into_integer(alloc)?;
    Ok(paired(first, second))
}

/// Two truths, where both are.
#[tactic(auto, using(crate::proofs::Paired::found_laws))]
pub fn both_formulas(
    alloc: Global,
    first: Terms,
    second: Terms,
) -> Result<Option<Both<Formula, Formula>>, NoMemory>
    ensures { IfOk result (λ found. option_map view_formulas found ≡ pair (spec.as_formula (view_terms first)) (spec.as_formula (view_terms second))) }
{
    let first = first.into_formula(alloc)?;
    let second = second.into_formula(alloc)?;
    Ok(paired(first, second))
}

/// Two pointers, where both are.
#[tactic(auto, using(crate::proofs::Paired::found_laws))]
pub fn both_pointers(first: Terms, second: Terms) -> Option<Both<Pointer, Pointer>>
    ensures { option_map view_pointers result ≡ pair (spec.as_pointer (view_terms first)) (spec.as_pointer (view_terms second)) }
{
    paired(first.into_pointer(), second.into_pointer())
}

/// A pointer and an integer, where both are.
#[tactic(auto, using(crate::proofs::Paired::found_laws))]
pub fn moving_pointer(
    alloc: Global,
    first: Terms,
    second: Terms,
) -> Result<Option<Both<Pointer, Term>>, NoMemory>
    ensures { IfOk result (λ found. option_map view_moving found ≡ pair (spec.as_pointer (view_terms first)) (spec.as_integer (view_terms second))) }
{
    let number = second.into_integer(alloc)?;
    Ok(paired(first.into_pointer(), number))
}

// ---- kids

/// The first kids.
#[derive(Drop)]
pub struct Kids {
    pub first: Terms,
    pub second: Terms,
    pub third: Terms,
}

// The first one is taken out.
#[tactic(auto, using(crate::proofs::Taking::taken_first, crate::proofs::Taking::taken_rest, crate::proofs::Taking::none_first, crate::proofs::Taking::none_rest))]
fn take(kids: &mut Vec<Terms>) -> Terms
    ensures first { view_terms result ≡ spec.terms_at (map view_terms kids.old.items) 0 }
    ensures others { (i : ℕ) → spec.terms_at (map view_terms kids.new.items) i ≡ spec.terms_at (map view_terms kids.old.items) (suc i) }
{
    if kids.is_empty() {
        Terms::Nothing
    } else {
        kids.remove(0)
    }
}

/// The first three kids.
pub fn first_kids(kids: List<Terms>) -> Kids
    ensures first { view_terms result.first ≡ spec.first (map view_terms kids) }
    ensures second { view_terms result.second ≡ spec.second (map view_terms kids) }
    ensures third { view_terms result.third ≡ spec.third (map view_terms kids) }
{
    let mut kids = kids.into_vec();
    let first = take(&mut kids);
    let second = take(&mut kids);
    let third = take(&mut kids);
    Kids {
        first,
        second,
        third,
    }
}

/// The first kid.
pub fn first_kid(kids: List<Terms>) -> Terms
    ensures { view_terms result ≡ spec.first (map view_terms kids) }
{
    let mut kids = kids.into_vec();
    take(&mut kids)
}
