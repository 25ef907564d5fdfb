// Clauses by their sorts, and which may stand where (ACSL 2.3, 2.4.2, 2.5).
ghost use Rattle.std.specs.Prelude.{◌≡◌, [], ◌∷◌, map, IfOk, option_map, ◌&&◌};
ghost use Rattle.std.specs.List.{list_all};
ghost use Rattle.c_syntax.specs.View.{view_assigns, view_measure};
ghost use Rattle.c_grammar.specs.Annots.{assigns_or_none, first_of, is_at_most_one};
ghost use Rattle.parse_clauses.specs.Sorts.{and_then, is_in as is_in_of, sorted_of};
ghost use Rattle.parse_clauses.specs.Views.{view_item, view_sorted};

use crate::items::{Item, Part};
use c_syntax::{AssignsClause, Clause, Measure};
use std::alloc::Global;
use wp_base::{List, NoMemory};

/// Clauses, each sort in order.
#[derive(Drop)]
pub struct Sorted {
    pub requires_: List<Clause>,
    pub ensures_: List<Clause>,
    pub assumes: List<Clause>,
    pub invariants: List<Clause>,
    pub assigns: List<AssignsClause>,
    pub decreases_: List<Measure>,
    pub variants: List<Measure>,
}

fn none_yet(alloc: Global) -> Sorted
    ensures { view_sorted result ≡ sorted_of [] }
{
    Sorted {
        requires_: List::new(alloc),
        ensures_: List::new(alloc),
        assumes: List::new(alloc),
        invariants: List::new(alloc),
        assigns: List::new(alloc),
        decreases_: List::new(alloc),
        variants: List::new(alloc),
    }
}

// Puts a clause behind those of its sort.
fn add(so_far: Sorted, item: Item) -> Result<Sorted, NoMemory>
    ensures { IfOk result (λ s. view_sorted s ≡ and_then (view_sorted so_far) (sorted_of (view_item item ∷ []))) }
{
    let mut sorted = so_far;
    match item {
        Item::Requires(clause) => sorted.requires_.push(clause)?,
        Item::Ensures(clause) => sorted.ensures_.push(clause)?,
        Item::Assumes(clause) => sorted.assumes.push(clause)?,
        Item::Invariant(clause) => sorted.invariants.push(clause)?,
        Item::Assigns(clause) => sorted.assigns.push(clause)?,
        Item::LoopAssigns(clause) => sorted.assigns.push(clause)?,
        Item::Decreases(measure) => sorted.decreases_.push(measure)?,
        Item::Variant(measure) => sorted.variants.push(measure)?,
    }
    Ok(sorted)
}

/// The clauses, each sort in order.
#[tactic(auto, using(crate::proofs::Sorting::one_first, crate::proofs::Sorting::none_first, crate::proofs::Sorting::none_last))]
pub fn sort(alloc: Global, items: List<Item>) -> Result<Sorted, NoMemory>
    ensures { IfOk result (λ s. view_sorted s ≡ sorted_of (map view_item items)) }
{
    let mut sorted = none_yet(alloc);
    for item in items.into_vec() {
        sorted = add(sorted, item)?;
    }
    Ok(sorted)
}

// Whether the clause may stand in this part.
fn is_in(part: Part, item: &Item) -> bool
    ensures { result ≡ is_in_of part (view_item item.now) }
{
    match part {
        Part::Contract => match item {
            Item::Requires(_) | Item::Ensures(_) | Item::Assigns(_) | Item::Decreases(_) => true,
            Item::Assumes(_) | Item::Invariant(_) | Item::LoopAssigns(_) | Item::Variant(_) =>
                false,
        },
        Part::Behavior => match item {
            Item::Requires(_) | Item::Ensures(_) | Item::Assumes(_) | Item::Assigns(_) => true,
            Item::Invariant(_) | Item::LoopAssigns(_) | Item::Decreases(_) | Item::Variant(_) =>
                false,
        },
        Part::Loop => match item {
            Item::Invariant(_) | Item::LoopAssigns(_) | Item::Variant(_) => true,
            Item::Requires(_)
            | Item::Ensures(_)
            | Item::Assumes(_)
            | Item::Assigns(_)
            | Item::Decreases(_) => false,
        },
    }
}

fn each_is_in(part: Part, items: &[Item]) -> bool
    ensures { result ≡ list_all (λ item. is_in_of part (view_item item)) items.now }
{
    items.iter().all(|item| is_in(part, item))
}

/// Whether all these clauses may stand in this part.
#[tactic(auto, using(crate::proofs::Sorting::all_in))]
pub fn are_in(part: Part, items: &List<Item>) -> bool
    ensures { result ≡ list_all (is_in_of part) (map view_item items.now) }
{
    each_is_in(part, items.as_slice())
}

#[tactic(auto, using(crate::proofs::Sorting::single, crate::proofs::Sorting::several))]
fn is_single<T>(items: &List<T>) -> bool
    ensures { result ≡ is_at_most_one items.now }
{
    if items.len() <= 1 { true } else { false }
}

/// At most one clause of each sort that may stand once.
#[tactic(auto, using(crate::proofs::Sorting::single_viewed))]
pub fn are_single(sorted: &Sorted) -> bool
    ensures { result ≡ (is_at_most_one (view_sorted sorted.now).assigns && (is_at_most_one (view_sorted sorted.now).decreases_ && is_at_most_one (view_sorted sorted.now).variants)) }
{
    is_single(&sorted.assigns) && (is_single(&sorted.decreases_) && is_single(&sorted.variants))
}

/// The first of these clauses, or that which stands for none.
pub fn first_assigns(alloc: Global, clauses: List<AssignsClause>) -> AssignsClause
    ensures { view_assigns result ≡ assigns_or_none (map view_assigns clauses) }
{
    match clauses.into_vec().into_iter().next() {
        Some(clause) => clause,
        None => AssignsClause {
            set: None,
            from: List::new(alloc),
            line: 0,
            place: 0,
        },
    }
}

/// The first of these, if there is one.
pub fn first_measure(measures: List<Measure>) -> Option<Measure>
    ensures { option_map view_measure result ≡ first_of (map view_measure measures) }
{
    measures.into_vec().into_iter().next()
}
