// Quantifiers over ranges (ACSL 2.2.2).
ghost use Rattle.std.specs.Prelude.{◌≡◌, ◌++◌, IfOk, OnOk, MatchResult};
ghost use Rattle.std.specs.List.{list_all, list_any};
ghost use Rattle.std.specs.Option.{option_map};
ghost use Rattle.acsl_preds.specs.Ranges as spec;
ghost use Rattle.acsl_trees.specs.Tree.{trees_of, list_of, view_tree, view_trees};

use crate::binders::Over;
use acsl_guards::Guard;
use acsl_rules::{leaf, one, three, two};
use acsl_trees::{BinderPlace, Head, Range, Tree};
use std::alloc::Global;
use wp_base::{List, NoMemory};

fn is_and(head: Head) -> bool
    ensures { result ≡ spec.is_and head }
{
    matches!(head, Head::And)
}

fn is_implication(head: Head) -> bool
    ensures { result ≡ spec.is_implication head }
{
    matches!(head, Head::Implies)
}

fn truth(alloc: Global) -> Tree
    ensures { view_tree result ≡ spec.truth }
{
    leaf(alloc, Head::Number(1))
}

// ---- conjuncts

// Puts what `&&` joins behind what was found.
#[cycle(conjuncts)]
#[tactic(auto, using(crate::proofs::Conjuncts::conjunct_laws))]
fn conjuncts<'a>(tree: &'a Tree, found: &mut Vec<&'a Tree>) -> Result<(), NoMemory>
    ensures { OnOk result (spec.pointed found.new.items ≡ spec.pointed found.old.items ++ spec.conjuncts (view_tree tree.now)) }
{
    if is_and(tree.head) {
        return all_conjuncts(tree.kids.as_slice(), found);
    }
    found.push(tree)?;
    Ok(())
}

#[cycle(conjuncts)]
#[tactic(auto, using(crate::proofs::Conjuncts::all_laws))]
fn all_conjuncts<'a>(trees: &'a [Tree], found: &mut Vec<&'a Tree>) -> Result<(), NoMemory>
    ensures { OnOk result (spec.pointed found.new.items ≡ spec.pointed found.old.items ++ spec.conjuncts_of trees.now) }
{
    for tree in trees {
        conjuncts(tree, found)?;
    }
    Ok(())
}

fn joined(alloc: Global, before: Option<Tree>, tree: Tree) -> Result<Tree, NoMemory>
    ensures { IfOk result (λ t. view_tree t ≡ spec.joined (option_map view_tree before) (view_tree tree)) }
{
    match before {
        None => Ok(tree),
        Some(before) => two(alloc, Head::And, before, tree),
    }
}

// ---- ends of ranges

fn is_taken_by(place: usize, over: Over) -> bool
    ensures { result ≡ spec.is_taken_by place over }
{
    match over {
        Over::Guarded(guard) => guard.alone && guard.conjunct == place,
        Over::Kind(_) => false,
    }
}

fn is_taken(overs: &[Over], place: usize) -> bool
    ensures { result ≡ list_any (spec.is_taken_by place) overs.now }
{
    overs.iter().any(|over| is_taken_by(place, *over))
}

// The first kid of a node.
#[tactic(auto, using(crate::proofs::Ends::front_laws))]
fn front(alloc: Global, tree: &Tree) -> Result<Tree, NoMemory>
    ensures { IfOk result (λ front. view_tree front ≡ spec.front_of (view_tree tree.now)) }
{
    match tree.kids.get(0) {
        Some(first) => first.copy(alloc),
        None => Ok(truth(alloc)),
    }
}

// What the last link of a chain compares with.
#[tactic(auto, using(crate::proofs::Ends::back_laws))]
fn back(alloc: Global, chain: &Tree) -> Result<Tree, NoMemory>
    ensures { IfOk result (λ back. view_tree back ≡ spec.back_of (view_tree chain.now)) }
{
    let count = chain.kids.len();
    if count == 0 {
        return Ok(truth(alloc));
    }
    match chain.kids.get(count - 1) {
        Some(link) => front(alloc, link),
        None => Ok(truth(alloc)),
    }
}

fn low_of(alloc: Global, descending: bool, chain: &Tree) -> Result<Tree, NoMemory>
    ensures { IfOk result (λ low. view_tree low ≡ spec.low_of descending (view_tree chain.now)) }
{
    if descending {
        back(alloc, chain)
    } else {
        front(alloc, chain)
    }
}

fn high_of(alloc: Global, descending: bool, chain: &Tree) -> Result<Tree, NoMemory>
    ensures { IfOk result (λ high. view_tree high ≡ spec.high_of descending (view_tree chain.now)) }
{
    if descending {
        front(alloc, chain)
    } else {
        back(alloc, chain)
    }
}

// ---- quantifiers

fn quantifier(for_all: bool, range: Range) -> Head
    ensures { result ≡ spec.quantifier for_all range }
{
    if for_all {
        Head::Every(range)
    } else {
        Head::Some(range)
    }
}

// The ends of the chain with a guard's number.
#[tactic(auto, using(crate::proofs::Ends::guard_laws))]
fn low_end(alloc: Global, conjuncts: &[&Tree], guard: Guard) -> Result<Tree, NoMemory>
    ensures { IfOk result (λ low. view_tree low ≡ spec.low_end (spec.pointed conjuncts.now) guard) }
{
    match conjuncts.get(guard.conjunct) {
        Some(chain) => low_of(alloc, guard.descending, chain),
        None => low_of(alloc, guard.descending, &truth(alloc)),
    }
}

#[tactic(auto, using(crate::proofs::Ends::guard_laws))]
fn high_end(alloc: Global, conjuncts: &[&Tree], guard: Guard) -> Result<Tree, NoMemory>
    ensures { IfOk result (λ high. view_tree high ≡ spec.high_end (spec.pointed conjuncts.now) guard) }
{
    match conjuncts.get(guard.conjunct) {
        Some(chain) => high_of(alloc, guard.descending, chain),
        None => high_of(alloc, guard.descending, &truth(alloc)),
    }
}

// A body under one binder.
fn over_one(
    alloc: Global,
    place: BinderPlace,
    for_all: bool,
    conjuncts: &[&Tree],
    over: Over,
    body: Tree,
) -> Result<Tree, NoMemory>
    ensures { IfOk result (λ t. view_tree t ≡ spec.over_one place for_all (spec.pointed conjuncts.now) over (view_tree body)) }
{
    match over {
        Over::Kind(kind) => one(alloc, quantifier(for_all, Range::Kind(kind, place)), body),
        Over::Guarded(guard) => {
            let low = low_end(alloc, conjuncts, guard)?;
            let high = high_end(alloc, conjuncts, guard)?;
            let range = Range::Between {
                low_out: guard.low_strict,
                high_out: guard.high_strict,
                place,
            };
            three(alloc, quantifier(for_all, range), low, high, body)
        }
    }
}

// A body under all binders, the first one outermost.
#[tactic(auto, using(crate::proofs::Nesting::nest_laws))]
fn over_all(
    alloc: Global,
    place: BinderPlace,
    for_all: bool,
    conjuncts: &[&Tree],
    overs: &[Over],
    body: Tree,
) -> Result<Tree, NoMemory>
    ensures { IfOk result (λ t. view_tree t ≡ spec.over_all place for_all (spec.pointed conjuncts.now) overs.now (view_tree body)) }
{
    let mut tree = body;
    let mut left = overs.len();
    while left > 0 {
        left -= 1;
        let over = &overs[left];
        tree = over_one(alloc, place, for_all, conjuncts, *over, tree)?;
    }
    Ok(tree)
}

fn kept_with(
    alloc: Global,
    overs: &[Over],
    number: usize,
    before: Option<Tree>,
    conjunct: &Tree,
) -> Result<Option<Tree>, NoMemory>
    ensures { IfOk result (λ t. option_map view_tree t ≡ spec.kept_with overs.now number (option_map view_tree before) (view_tree conjunct.now)) }
{
    if is_taken(overs, number) {
        return Ok(before);
    }
    let conjunct = conjunct.copy(alloc)?;
    Ok(Some(joined(alloc, before, conjunct)?))
}

// The conjuncts that say more than the ranges, joined.
#[tactic(auto, using(crate::proofs::Nesting::kept_laws))]
fn kept(alloc: Global, overs: &[Over], conjuncts: &[&Tree]) -> Result<Option<Tree>, NoMemory>
    ensures { IfOk result (λ t. option_map view_tree t ≡ spec.kept overs.now 0 None (spec.pointed conjuncts.now)) }
{
    let mut found = None;
    for i in 0..conjuncts.len() {
        let conjunct = conjuncts[i];
        found = kept_with(alloc, overs, i, found, conjunct)?;
    }
    Ok(found)
}

// ---- bodies

// Both kids, where there are two.
#[tactic(auto, using(crate::proofs::Ends::side_laws))]
fn sides(tree: &Tree) -> Option<(&Tree, &Tree)>
    ensures { option_map spec.sides_seen result ≡ spec.sides_of (spec.kids_of (view_tree tree.now)) }
{
    if tree.kids.len() != 2 {
        return None;
    }
    match tree.kids.get(0) {
        Some(first) => match tree.kids.get(1) {
            Some(second) => Some((first, second)),
            None => None,
        },
        None => None,
    }
}

fn under(alloc: Global, kept: Option<Tree>, body: Tree) -> Result<Tree, NoMemory>
    ensures { IfOk result (λ t. view_tree t ≡ spec.under (option_map view_tree kept) (view_tree body)) }
{
    match kept {
        None => Ok(body),
        Some(kept) => two(alloc, Head::Implies, kept, body),
    }
}

fn every_under(
    alloc: Global,
    place: BinderPlace,
    overs: &[Over],
    conjuncts: &[&Tree],
    body: &Tree,
) -> Result<Tree, NoMemory>
    ensures { IfOk result (λ t. view_tree t ≡ spec.every_under place overs.now (spec.pointed conjuncts.now) (view_tree body.now)) }
{
    let kept = kept(alloc, overs, conjuncts)?;
    let body = under(alloc, kept, body.copy(alloc)?)?;
    over_all(alloc, place, true, conjuncts, overs, body)
}

#[tactic(auto, using(crate::proofs::Ends::head_is))]
fn every(alloc: Global, place: BinderPlace, overs: &[Over], body: Tree) -> Result<Tree, NoMemory>
    ensures { IfOk result (λ t. view_tree t ≡ spec.every place overs.now (view_tree body)) }
{
    if is_implication(body.head) {
        if let Some((premise, conclusion)) = sides(&body) {
            let mut found = Vec::new(alloc);
            conjuncts(premise, &mut found)?;
            return every_under(alloc, place, overs, found.as_slice(), conclusion);
        }
    }
    over_all(alloc, place, true, &[], overs, body)
}

fn is_kind(over: Over) -> bool
    ensures { result ≡ spec.is_kind over }
{
    matches!(over, Over::Kind(_))
}

fn are_kinds(overs: &[Over]) -> bool
    ensures { result ≡ list_all spec.is_kind overs.now }
{
    overs.iter().all(|over| is_kind(*over))
}

// The body is looked at for the ends of ranges.
fn some_in_ranges(
    alloc: Global,
    place: BinderPlace,
    overs: &[Over],
    body: &Tree,
) -> Result<Tree, NoMemory>
    ensures { IfOk result (λ t. view_tree t ≡ spec.some place overs.now (view_tree body.now)) }
{
    let mut found = Vec::new(alloc);
    conjuncts(body, &mut found)?;
    let kept = match kept(alloc, overs, found.as_slice())? {
        Some(kept) => kept,
        None => truth(alloc),
    };
    over_all(alloc, place, false, found.as_slice(), overs, kept)
}

// Where no range has ends, the body isn't looked at, and not copied.
#[tactic(auto, using(crate::proofs::Endless::some_of_kinds))]
fn some(alloc: Global, place: BinderPlace, overs: &[Over], body: Tree) -> Result<Tree, NoMemory>
    ensures { IfOk result (λ t. view_tree t ≡ spec.some place overs.now (view_tree body)) }
{
    if !is_and(body.head) && are_kinds(overs) {
        over_all(alloc, place, false, &[], overs, body)
    } else {
        some_in_ranges(alloc, place, overs, &body)
    }
}

/// A body under a quantifier whose binders go over these ranges; the chains that say no more than a range are left out of it.
#[tactic(auto, unfolding(crate::specs::Ranges::quantified))]
pub(crate) fn quantified(
    alloc: Global,
    place: BinderPlace,
    for_all: bool,
    overs: &[Over],
    body: Tree,
) -> Result<Tree, NoMemory>
    ensures { IfOk result (λ t. view_tree t ≡ spec.quantified place for_all overs.now (view_tree body)) }
{
    if for_all {
        every(alloc, place, overs, body)
    } else {
        some(alloc, place, overs, body)
    }
}
