// The clauses of a contract or of a loop, in the order of the text (ACSL 2.3, 2.4.2, 2.5).
ghost use Rattle.std.specs.Prelude.{◌≡◌, ◌∷◌, ◌++◌, IfOk, OnOk, map};
ghost use Rattle.std.specs.Option.{option_copied, option_map};
ghost use Rattle.acsl_clauses.specs.Items as spec;
ghost use Rattle.c_syntax.specs.View.{view_assigns, view_behavior, view_clause, view_contract, view_loop, view_measure};

use crate::merging::merged;
use c_syntax::{AssignsClause, Behavior, Clause, Contract, LoopAnnot, Measure, Names};
use std::alloc::Global;
use wp_base::{Line, NoMemory};

/// What a predicate is for.
#[derive(Clone, Copy)]
pub enum Role {
    Requires,
    Assumes,
    Ensures,
    Invariant,
}

/// What is said of several behaviors (ACSL 2.3.3).
#[derive(Clone, Copy)]
pub enum Group {
    Complete,
    Disjoint,
}

/// A clause as spelled, or the name of a behavior, behind which its clauses stand.
#[derive(Clone, Copy)]
pub enum Item<'a> {
    Claim(Role, &'a Clause),
    /// That of `decreases` or of `loop variant`.
    Measure(&'a Measure),
    Assigns(&'a AssignsClause),
    Behavior(&'a Behavior),
    Together(Group, &'a Names),
}

impl Item<'_> {
    /// The place of its first token among those of the text.
    pub(crate) fn place(self) -> usize
        ensures { result ≡ spec.place_of (spec.view_item self.entry) }
    {
        match self {
            Item::Claim(_, clause) => clause.place,
            Item::Measure(measure) => measure.place,
            Item::Assigns(assigns) => assigns.place,
            Item::Behavior(behavior) => behavior.place,
            Item::Together(_, names) => names.place,
        }
    }

    /// The line of its first token.
    pub fn line(self) -> Line
        ensures { result ≡ spec.line_of (spec.view_item self.entry) }
    {
        match self {
            Item::Claim(_, clause) => clause.line,
            Item::Measure(measure) => measure.line,
            Item::Assigns(assigns) => assigns.line,
            Item::Behavior(behavior) => behavior.line,
            Item::Together(_, names) => names.line,
        }
    }
}

#[tactic(auto, using(crate::proofs::Joining::claim_laws))]
fn claims<'a>(alloc: Global, role: Role, clauses: &'a [Clause]) -> Result<Vec<Item<'a>>, NoMemory>
    ensures { IfOk result (λ items. map spec.view_item items.items ≡ spec.claims role (map view_clause clauses.now)) }
{
    let mut items = Vec::new(alloc);
    for i in 0..clauses.len() {
        items.push(Item::Claim(role, &clauses[i]))?;
    }
    Ok(items)
}

fn assigns_of(alloc: Global, assigns: &AssignsClause) -> Result<Vec<Item<'_>>, NoMemory>
    ensures { IfOk result (λ items. map spec.view_item items.items ≡ spec.assigns_of (view_assigns assigns.now)) }
{
    let mut items = Vec::new(alloc);
    if assigns.set.is_some() {
        items.push(Item::Assigns(assigns))?;
    }
    Ok(items)
}

fn measure_of(alloc: Global, measure: &Option<Measure>) -> Result<Vec<Item<'_>>, NoMemory>
    ensures { IfOk result (λ items. map spec.view_item items.items ≡ spec.measure_of (option_map view_measure measure.now)) }
{
    let mut items = Vec::new(alloc);
    if let Some(measure) = measure {
        items.push(Item::Measure(measure))?;
    }
    Ok(items)
}

#[tactic(auto, using(crate::proofs::Joining::together_laws))]
fn together<'a>(alloc: Global, group: Group, names: &'a [Names]) -> Result<Vec<Item<'a>>, NoMemory>
    ensures { IfOk result (λ items. map spec.view_item items.items ≡ map (spec.together group) names.now) }
{
    let mut items = Vec::new(alloc);
    for i in 0..names.len() {
        items.push(Item::Together(group, &names[i]))?;
    }
    Ok(items)
}

// Four sorts of clauses as one.
fn all_merged<'a>(
    alloc: Global,
    first: Vec<Item<'a>>,
    second: Vec<Item<'a>>,
    third: Vec<Item<'a>>,
    fourth: Vec<Item<'a>>,
) -> Result<Vec<Item<'a>>, NoMemory>
    ensures { IfOk result (λ items. map spec.view_item items.items ≡ spec.merged (spec.merged (map spec.view_item first.entry.items) (map spec.view_item second.entry.items))
        (spec.merged (map spec.view_item third.entry.items) (map spec.view_item fourth.entry.items))) }
{
    let front = merged(alloc, first.as_slice(), second.as_slice())?;
    let back = merged(alloc, third.as_slice(), fourth.as_slice())?;
    merged(alloc, front.as_slice(), back.as_slice())
}

fn own_of(alloc: Global, contract: &Contract) -> Result<Vec<Item<'_>>, NoMemory>
    ensures { IfOk result (λ items. map spec.view_item items.items ≡ spec.own_of (view_contract contract.now)) }
{
    let requires_ = claims(alloc, Role::Requires, contract.requires_.as_slice())?;
    let ensures_ = claims(alloc, Role::Ensures, contract.ensures_.as_slice())?;
    let assigns = assigns_of(alloc, &contract.assigns)?;
    let decreases_ = measure_of(alloc, &contract.decreases_)?;
    all_merged(alloc, requires_, ensures_, assigns, decreases_)
}

fn behavior_clauses(alloc: Global, behavior: &Behavior) -> Result<Vec<Item<'_>>, NoMemory>
    ensures { IfOk result (λ items. spec.behavior (view_behavior behavior.now) ∷ map spec.view_item items.items ≡ spec.behavior_of (view_behavior behavior.now)) }
{
    let assumes = claims(alloc, Role::Assumes, behavior.assumes.as_slice())?;
    let requires_ = claims(alloc, Role::Requires, behavior.requires_.as_slice())?;
    let ensures_ = claims(alloc, Role::Ensures, behavior.ensures_.as_slice())?;
    let assigns = assigns_of(alloc, &behavior.assigns)?;
    all_merged(alloc, assumes, requires_, ensures_, assigns)
}

// Puts a behavior behind the clauses so far.
fn put_behavior<'a>(
    alloc: Global,
    items: &mut Vec<Item<'a>>,
    behavior: &'a Behavior,
) -> Result<(), NoMemory>
    ensures { OnOk result (map spec.view_item items.new.items ≡ map spec.view_item items.old.items ++ spec.behavior_of (view_behavior behavior.now)) }
{
    items.push(Item::Behavior(behavior))?;
    let clauses = behavior_clauses(alloc, behavior)?;
    items.extend_from_slice(clauses.as_slice())?;
    Ok(())
}

#[tactic(auto, using(crate::proofs::Joining::behavior_laws))]
fn put_behaviors<'a>(
    alloc: Global,
    items: &mut Vec<Item<'a>>,
    behaviors: &'a [Behavior],
) -> Result<(), NoMemory>
    ensures { OnOk result (map spec.view_item items.new.items ≡ map spec.view_item items.old.items ++ spec.behaviors_of (map view_behavior behaviors.now)) }
{
    for i in 0..behaviors.len() {
        put_behavior(alloc, items, &behaviors[i])?;
    }
    Ok(())
}

/// The clauses of a contract.
#[tactic(auto, using(crate::proofs::Joining::three_parts))]
pub fn contract_items(alloc: Global, contract: &Contract) -> Result<Vec<Item<'_>>, NoMemory>
    ensures { IfOk result (λ items. map spec.view_item items.items ≡ spec.contract_items (view_contract contract.now)) }
{
    let mut items = own_of(alloc, contract)?;
    put_behaviors(alloc, &mut items, contract.behaviors.as_slice())?;
    let complete = together(alloc, Group::Complete, contract.complete.as_slice())?;
    let disjoint = together(alloc, Group::Disjoint, contract.disjoint.as_slice())?;
    let behind = merged(alloc, complete.as_slice(), disjoint.as_slice())?;
    items.extend_from_slice(behind.as_slice())?;
    Ok(items)
}

/// The clauses of a loop.
pub(crate) fn loop_items(alloc: Global, annot: &LoopAnnot) -> Result<Vec<Item<'_>>, NoMemory>
    ensures { IfOk result (λ items. map spec.view_item items.items ≡ spec.loop_items (view_loop annot.now)) }
{
    let invariants = claims(alloc, Role::Invariant, annot.invariants.as_slice())?;
    let assigns = assigns_of(alloc, &annot.assigns)?;
    let variant = measure_of(alloc, &annot.variant)?;
    let behind = merged(alloc, assigns.as_slice(), variant.as_slice())?;
    merged(alloc, invariants.as_slice(), behind.as_slice())
}
