// Chains of comparisons (ACSL 2.2.1), and regions that have no cell in common (ACSL 2.7).
ghost use Rattle.std.specs.Prelude.{◌≡◌, ◌<◌, ◌+◌, map, drop, length, Some, IfOk};
ghost use Rattle.std.specs.Option.{option_map};
ghost use Rattle.acsl_encode.specs.Encode as spec;
ghost use Rattle.acsl_trees.specs.Tree.{trees_of, view_trees};
ghost use Rattle.c_runs.specs.Truth.{heads_of};
ghost use Rattle.annotation_heads.specs.Chained as chained;
ghost use Rattle.acsl_encode.specs.Readings.{truth};
ghost use Rattle.annotation_heads.specs.View.{view_terms};
ghost use Rattle.qed_terms.specs.Tree.{at_most, equal, not_of};
ghost use Rattle.qed_terms.specs.View.{formula_tree, term_tree};

use crate::arithmetic::comparison;
use crate::pairs::{both_integers, both_pointers};
use crate::pointers::pointer_comparison;
use crate::terms::Terms;
use acsl_trees::{Head, Tree};
use qed_terms::{FormOp, Formula, Term};
use std::alloc::Global;
use term_drafts::{copied, negation, relation};
use typed_prog::Comparison;
use wp_base::{List, NoMemory};

/// `and` of these; one stands alone.
#[tactic(auto, using(crate::proofs::Chained_so::no_part, crate::proofs::Chained_so::only_part, crate::proofs::Chained_so::many_parts))]
fn all_of(parts: List<Formula>) -> Formula
    ensures { formula_tree result ≡ spec.all_of (map formula_tree parts) }
{
    if parts.len() > 1 {
        return Formula::and(parts);
    }
    let mut parts = parts.into_vec();
    if parts.is_empty() {
        Formula::True
    } else {
        parts.remove(0)
    }
}

/// That all of these are true, where they are in order.
#[tactic(auto, using(crate::proofs::Given::given_laws))]
fn all_true(parts: Option<List<Formula>>) -> Terms
    ensures { view_terms result ≡ spec.with_one (λ fs. truth (spec.all_of fs)) (option_map (map formula_tree) parts) }
{
    match parts {
        Some(parts) => Terms::Truth(all_of(parts)),
        None => Terms::Nothing,
    }
}

// ---- chains

/// How a link compares its term with the one before.
#[derive(Clone, Copy)]
enum Link {
    Integers(Comparison),
    Pointers(Comparison),
    Nothing,
}

fn link_of(head: Head) -> Link
    ensures { result ≡ chained.link_of head }
{
    match head {
        Head::Link(how) => Link::Integers(how),
        Head::LinkPointers(how) => Link::Pointers(how),
        _ => Link::Nothing,
    }
}

#[tactic(auto, using(crate::proofs::Paired::linked_laws))]
fn integers_linked(
    alloc: Global,
    how: Comparison,
    first: Terms,
    second: Terms,
) -> Result<Option<Formula>, NoMemory>
    ensures { IfOk result (λ found. option_map formula_tree found ≡ spec.on_two (spec.comparison how) (spec.as_integer (view_terms first)) (spec.as_integer (view_terms second))) }
{
    let Some(both) = both_integers(alloc, first, second)? else {
        return Ok(None);
    };
    let formula = comparison(alloc, how, both.first, both.second)?;
    Ok(Some(formula))
}

#[tactic(auto, using(crate::proofs::Paired::linked_laws))]
fn pointers_linked(
    alloc: Global,
    how: Comparison,
    first: Terms,
    second: Terms,
) -> Result<Option<Formula>, NoMemory>
    ensures { IfOk result (λ found. option_map formula_tree found ≡ spec.on_two (spec.pointer_comparison how) (spec.as_pointer (view_terms first)) (spec.as_pointer (view_terms second))) }
{
    let Some(both) = both_pointers(first, second) else {
        return Ok(None);
    };
    let formula = pointer_comparison(alloc, how, both.first, both.second)?;
    Ok(Some(formula))
}

fn linked(
    alloc: Global,
    link: Link,
    first: &Terms,
    second: &Terms,
) -> Result<Option<Formula>, NoMemory>
    ensures { IfOk result (λ found. option_map formula_tree found ≡ chained.linked_by link (view_terms first.now) (view_terms second.now)) }
{
    let first = first.copy(alloc)?;
    let second = second.copy(alloc)?;
    match link {
        Link::Integers(how) => integers_linked(alloc, how, first, second),
        Link::Pointers(how) => pointers_linked(alloc, how, first, second),
        Link::Nothing => Ok(None),
    }
}

#[tactic(auto, using(crate::proofs::Chained_so::chain_stop, crate::proofs::Chained_so::chain_end))]
fn all_linked(
    alloc: Global,
    links: &[Tree],
    kids: &[Terms],
) -> Result<Option<List<Formula>>, NoMemory>
    ensures { IfOk result (λ found. option_map (map formula_tree) found ≡ spec.in_chain (heads_of (trees_of (view_trees links.now))) (map view_terms kids.now)) }
{
    let count = links.len().min(kids.len());
    let mut parts = List::new(alloc);
    for at in 1..count {
        let link = link_of(links[at].head);
        let Some(part) = linked(alloc, link, &kids[at - 1], &kids[at])? else {
            return Ok(None);
        };
        parts.push(part)?;
    }
    Ok(Some(parts))
}

/// A first term, and links behind it.
pub fn chain(alloc: Global, links: &[Tree], kids: &List<Terms>) -> Result<Terms, NoMemory>
    ensures { IfOk result (λ terms. view_terms terms ≡ spec.with_one (λ fs. truth (spec.all_of fs)) (spec.in_chain (heads_of (trees_of (view_trees links.now))) (map view_terms kids.now))) }
{
    let parts = all_linked(alloc, links, kids.as_slice())?;
    Ok(all_true(parts))
}

// ---- regions

// Cells of a block from an offset up to below another one.
#[derive(Clone, Copy)]
struct Cells<'a> {
    block: &'a Term,
    low: &'a Term,
    high: &'a Term,
}

fn cells_of(terms: &Terms) -> Option<Cells<'_>>
    ensures { option_map chained.view_cells result ≡ chained.cells_in (view_terms terms.now) }
{
    match terms {
        Terms::Region(_, block, low, high) => Some(Cells { block, low, high }),
        Terms::Integer(_, _) => None,
        Terms::Truth(_) => None,
        Terms::Address(_) => None,
        Terms::Variable(_) => None,
        Terms::Elements(_, _, _, _) => None,
        Terms::Nothing => None,
    }
}

#[tactic(auto, using(term_drafts::proofs::Drafted::draft_laws))]
fn at_most(alloc: Global, left: &Term, right: &Term) -> Result<Formula, NoMemory>
    ensures { IfOk result (λ formula. formula_tree formula ≡ at_most (term_tree left.now) (term_tree right.now)) }
{
    let (left, right) = (copied(alloc, left), copied(alloc, right));
    let made = relation(alloc, FormOp::AtMost, left, right)?;
    Ok(made)
}

#[tactic(auto, using(term_drafts::proofs::Drafted::draft_laws))]
fn different(alloc: Global, left: &Term, right: &Term) -> Result<Formula, NoMemory>
    ensures { IfOk result (λ formula. formula_tree formula ≡ not_of (equal (term_tree left.now) (term_tree right.now))) }
{
    let (left, right) = (copied(alloc, left), copied(alloc, right));
    let same = relation(alloc, FormOp::Equal, left, right);
    let made = negation(alloc, same)?;
    Ok(made)
}

// They lie in different blocks, one behind the other, or one of them has no cells.
fn apart_by(alloc: Global, first: Cells, second: Cells) -> Result<Formula, NoMemory>
    ensures { IfOk result (λ formula. formula_tree formula ≡ chained.apart_cells (chained.view_cells first.entry) (chained.view_cells second.entry)) }
{
    let mut cases = List::new(alloc);
    cases.push(different(alloc, first.block, second.block)?)?;
    cases.push(at_most(alloc, first.high, second.low)?)?;
    cases.push(at_most(alloc, second.high, first.low)?)?;
    cases.push(at_most(alloc, first.high, first.low)?)?;
    cases.push(at_most(alloc, second.high, second.low)?)?;
    Ok(Formula::or(cases))
}

#[tactic(auto, using(crate::proofs::Chained_so::apart_laws))]
fn apart(alloc: Global, first: &Terms, second: &Terms) -> Result<Option<Formula>, NoMemory>
    ensures { IfOk result (λ found. option_map formula_tree found ≡ spec.apart (view_terms first.now) (view_terms second.now)) }
{
    let Some(first) = cells_of(first) else {
        return Ok(None);
    };
    let Some(second) = cells_of(second) else {
        return Ok(None);
    };
    let formula = apart_by(alloc, first, second)?;
    Ok(Some(formula))
}

// From those behind it.
#[tactic(auto, using(crate::proofs::Chained_so::other_stop, crate::proofs::Chained_so::other_end))]
fn apart_from(
    alloc: Global,
    regions: &[Terms],
    place: usize,
    parts: List<Formula>,
) -> Result<Option<List<Formula>>, NoMemory>
    requires { place < length regions.now }
    ensures { IfOk result (λ found. option_map (map formula_tree) found ≡ spec.put (Some (map formula_tree parts)) (spec.apart_all (spec.terms_at (map view_terms regions.now) place) (drop (place + 1) (map view_terms regions.now)))) }
{
    let mut parts = parts;
    for other in place + 1..regions.len() {
        let Some(part) = apart(alloc, &regions[place], &regions[other])? else {
            return Ok(None);
        };
        parts.push(part)?;
    }
    Ok(Some(parts))
}

#[tactic(auto, using(crate::proofs::Chained_so::pair_turn, crate::proofs::Chained_so::pair_stop, crate::proofs::Chained_so::pair_end))]
fn all_apart(alloc: Global, regions: &[Terms]) -> Result<Option<List<Formula>>, NoMemory>
    ensures { IfOk result (λ found. option_map (map formula_tree) found ≡ spec.pairs_apart (map view_terms regions.now)) }
{
    let mut parts = List::new(alloc);
    for place in 0..regions.len() {
        let Some(more) = apart_from(alloc, regions, place, parts)? else {
            return Ok(None);
        };
        parts = more;
    }
    Ok(Some(parts))
}

/// No two of them have a cell in common.
pub fn separated(alloc: Global, kids: &List<Terms>) -> Result<Terms, NoMemory>
    ensures { IfOk result (λ terms. view_terms terms ≡ spec.with_one (λ fs. truth (spec.all_of fs)) (spec.pairs_apart (map view_terms kids.now))) }
{
    let parts = all_apart(alloc, kids.as_slice())?;
    Ok(all_true(parts))
}
