// Contracts and what is claimed of loops, out of typed clauses (ACSL 2.3, 2.4.2).
ghost use Rattle.std.specs.Prelude.{◌≡◌, [], ◌++◌, IfOk, OnOk, map};
ghost use Rattle.std.specs.List.{cons_option};
ghost use Rattle.std.specs.Option.{option_map};
ghost use Rattle.acsl_clauses.specs.Typed.{view_clause, view_said};
ghost use Rattle.acsl_trees.specs.Tree.{view_tree, view_trees};
ghost use Rattle.core_trees.specs.View.{view_claim, view_loop, view_measure};
ghost use Rattle.program_trees.specs.View.{view_behavior, view_contract, view_together};
ghost use Rattle.c_programs.specs.Clauses as spec;

use acsl_clauses::{Group, Role, Said, TypedClause};
use acsl_trees::Tree;
use core_trees::{Claim, Loop, Measure};
use program_trees::{Behavior, Contract, Together};
use std::alloc::Global;
use wp_base::{Line, List, NoMemory};

// ---- single clauses

fn role_place(role: Role) -> u8
    ensures { result ≡ spec.role_place role }
{
    match role {
        Role::Requires => 0,
        Role::Assumes => 1,
        Role::Ensures => 2,
        Role::Invariant => 3,
    }
}

fn tree_by(alloc: Global, role: Role, said: &Said) -> Result<Option<Tree>, NoMemory>
    ensures { IfOk result (λ tree. option_map view_tree tree ≡ spec.tree_by role (view_said said.now)) }
{
    match said {
        Said::Claims(other, tree) => {
            if role_place(role) == role_place(*other) {
                return Ok(Some(tree.copy(alloc)?));
            }
            Ok(None)
        }
        Said::Decreases(_) => Ok(None),
        Said::Assigns(_) => Ok(None),
        Said::Begins(_) => Ok(None),
        Said::Together(_, _) => Ok(None),
    }
}

fn claim_in(alloc: Global, role: Role, clause: &TypedClause) -> Result<Option<Claim>, NoMemory>
    ensures { IfOk result (λ claim. option_map view_claim claim ≡ spec.claim_in role (view_clause clause.now)) }
{
    match tree_by(alloc, role, &clause.said)? {
        Some(what) => Ok(Some(Claim {
            what,
            line: clause.line,
        })),
        None => Ok(None),
    }
}

fn measure_in_clause(alloc: Global, clause: &TypedClause) -> Result<Option<Measure>, NoMemory>
    ensures { IfOk result (λ measure. option_map view_measure measure ≡ spec.measure_by clause.now.line (view_said clause.now.said)) }
{
    match &clause.said {
        Said::Decreases(tree) => {
            let what = tree.copy(alloc)?;
            Ok(Some(Measure {
                what,
                line: clause.line,
            }))
        }
        Said::Claims(_, _) => Ok(None),
        Said::Assigns(_) => Ok(None),
        Said::Begins(_) => Ok(None),
        Said::Together(_, _) => Ok(None),
    }
}

#[tactic(auto, using(crate::proofs::Gathering::copy_laws))]
fn copies(alloc: Global, trees: &[Tree]) -> Result<List<Tree>, NoMemory>
    ensures { IfOk result (λ made. view_trees made ≡ view_trees trees.now) }
{
    let mut made = List::new(alloc);
    for i in 0..trees.len() {
        made.push(trees[i].copy(alloc)?)?;
    }
    Ok(made)
}

fn regions_by(alloc: Global, said: &Said) -> Result<Option<List<Tree>>, NoMemory>
    ensures { IfOk result (λ regions. option_map view_trees regions ≡ spec.regions_by (view_said said.now)) }
{
    match said {
        Said::Assigns(regions) => Ok(Some(copies(alloc, regions.as_slice())?)),
        Said::Claims(_, _) => Ok(None),
        Said::Decreases(_) => Ok(None),
        Said::Begins(_) => Ok(None),
        Said::Together(_, _) => Ok(None),
    }
}

fn assigns_line(clause: &TypedClause) -> Option<Line>
    ensures { result ≡ spec.assigns_line (view_clause clause.now) }
{
    match &clause.said {
        Said::Assigns(_) => Some(clause.line),
        Said::Claims(_, _) => None,
        Said::Decreases(_) => None,
        Said::Begins(_) => None,
        Said::Together(_, _) => None,
    }
}

fn is_complete(group: Group) -> bool
    ensures { result ≡ spec.is_complete group }
{
    match group {
        Group::Complete => true,
        Group::Disjoint => false,
    }
}

fn together_by(alloc: Global, clause: &TypedClause) -> Result<Option<Together>, NoMemory>
    ensures { IfOk result (λ together. option_map view_together together ≡ spec.together_by (view_clause clause.now)) }
{
    match &clause.said {
        Said::Together(group, numbers) => Ok(Some(Together {
            is_complete: is_complete(*group),
            numbers: List::from_vec(Vec::from_slice(alloc, numbers.as_slice())?),
            line: clause.line,
        })),
        Said::Claims(_, _) => Ok(None),
        Said::Decreases(_) => Ok(None),
        Said::Assigns(_) => Ok(None),
        Said::Begins(_) => Ok(None),
    }
}

fn begins_one(said: &Said) -> bool
    ensures { result ≡ spec.begins_one (view_said said.now) }
{
    match said {
        Said::Begins(_) => true,
        Said::Claims(_, _) => false,
        Said::Decreases(_) => false,
        Said::Assigns(_) => false,
        Said::Together(_, _) => false,
    }
}

// ---- several clauses

fn put_if<T: Drop>(list: &mut List<T>, item: Option<T>) -> Result<(), NoMemory>
    ensures { OnOk result (list.new ≡ list.old ++ cons_option item []) }
{
    match item {
        Some(item) => list.push(item),
        None => Ok(()),
    }
}

#[tactic(auto, using(crate::proofs::Gathering::gather_laws))]
fn trees_in(alloc: Global, role: Role, clauses: &[TypedClause]) -> Result<List<Tree>, NoMemory>
    ensures { IfOk result (λ found. view_trees found ≡ spec.trees_in role (map view_clause clauses.now)) }
{
    let mut found = List::new(alloc);
    for i in 0..clauses.len() {
        let tree = tree_by(alloc, role, &clauses[i].said)?;
        put_if(&mut found, tree)?;
    }
    Ok(found)
}

#[tactic(auto, using(crate::proofs::Gathering::gather_laws))]
fn claims_in(alloc: Global, role: Role, clauses: &[TypedClause]) -> Result<List<Claim>, NoMemory>
    ensures { IfOk result (λ found. map view_claim found ≡ spec.claims_in role (map view_clause clauses.now)) }
{
    let mut found = List::new(alloc);
    for i in 0..clauses.len() {
        let claim = claim_in(alloc, role, &clauses[i])?;
        put_if(&mut found, claim)?;
    }
    Ok(found)
}

#[tactic(auto, using(crate::proofs::Gathering::gather_laws))]
fn together_in(alloc: Global, clauses: &[TypedClause]) -> Result<List<Together>, NoMemory>
    ensures { IfOk result (λ found. map view_together found ≡ spec.together_in (map view_clause clauses.now)) }
{
    let mut found = List::new(alloc);
    for i in 0..clauses.len() {
        let together = together_by(alloc, &clauses[i])?;
        put_if(&mut found, together)?;
    }
    Ok(found)
}

#[tactic(auto, using(crate::proofs::Gathering::first_laws))]
fn regions_in(alloc: Global, clauses: &[TypedClause]) -> Result<Option<List<Tree>>, NoMemory>
    ensures { IfOk result (λ regions. option_map view_trees regions ≡ spec.regions_in (map view_clause clauses.now)) }
{
    for i in 0..clauses.len() {
        if let Some(regions) = regions_by(alloc, &clauses[i].said)? {
            return Ok(Some(regions));
        }
    }
    Ok(None)
}

#[tactic(auto, using(crate::proofs::Gathering::line_laws))]
fn assigns_line_in(clauses: &[TypedClause]) -> Option<Line>
    ensures { result ≡ spec.assigns_line_in (map view_clause clauses.now) }
{
    for i in 0..clauses.len() {
        if let Some(line) = assigns_line(&clauses[i]) {
            return Some(line);
        }
    }
    None
}

#[tactic(auto, using(crate::proofs::Gathering::first_laws))]
fn measure_in(alloc: Global, clauses: &[TypedClause]) -> Result<Option<Measure>, NoMemory>
    ensures { IfOk result (λ measure. option_map view_measure measure ≡ spec.measure_in (map view_clause clauses.now)) }
{
    for i in 0..clauses.len() {
        if let Some(measure) = measure_in_clause(alloc, &clauses[i])? {
            return Ok(Some(measure));
        }
    }
    Ok(None)
}

// ---- contracts

// The clauses up to the next behavior.
#[tactic(auto, using(crate::proofs::Gathering::own_laws))]
fn own(clauses: &[TypedClause]) -> &[TypedClause]
    ensures { map view_clause result.now ≡ spec.own (map view_clause clauses.now) }
{
    for i in 0..clauses.len() {
        if begins_one(&clauses[i].said) {
            return &clauses[..i];
        }
    }
    clauses
}

fn behavior_of(alloc: Global, clauses: &[TypedClause]) -> Result<Behavior, NoMemory>
    ensures { IfOk result (λ behavior. view_behavior behavior ≡ spec.behavior_of (map view_clause clauses.now)) }
{
    let assumes = trees_in(alloc, Role::Assumes, clauses)?;
    let requires_ = claims_in(alloc, Role::Requires, clauses)?;
    let ensures_ = claims_in(alloc, Role::Ensures, clauses)?;
    let assigns = regions_in(alloc, clauses)?;
    Ok(Behavior {
        assumes,
        requires_,
        ensures_,
        assigns,
    })
}

#[tactic(auto, using(crate::proofs::Gathering::behavior_laws))]
fn behaviors_of(alloc: Global, clauses: &[TypedClause]) -> Result<List<Behavior>, NoMemory>
    ensures { IfOk result (λ found. map view_behavior found ≡ spec.behaviors_of (map view_clause clauses.now)) }
{
    let mut found = List::new(alloc);
    for i in 0..clauses.len() {
        if begins_one(&clauses[i].said) {
            found.push(behavior_of(alloc, own(&clauses[i + 1..]))?)?;
        }
    }
    Ok(found)
}

/// The contract that typed clauses are.
pub fn contract_of(alloc: Global, clauses: &[TypedClause]) -> Result<Contract, NoMemory>
    ensures { IfOk result (λ contract. view_contract contract ≡ spec.contract_of (map view_clause clauses.now)) }
{
    let plain = behavior_of(alloc, own(clauses))?;
    let decreases = measure_in(alloc, clauses)?;
    let behaviors = behaviors_of(alloc, clauses)?;
    let together = together_in(alloc, clauses)?;
    Ok(Contract {
        plain,
        decreases,
        behaviors,
        together,
    })
}

/// What typed clauses claim of a loop before which so many variables are declared.
pub fn loop_with(alloc: Global, declared: u32, clauses: &[TypedClause]) -> Result<Loop, NoMemory>
    ensures { IfOk result (λ made. view_loop made ≡ spec.loop_with declared (map view_clause clauses.now)) }
{
    let invariants = claims_in(alloc, Role::Invariant, clauses)?;
    let assigns = regions_in(alloc, clauses)?;
    let variant = measure_in(alloc, clauses)?;
    Ok(Loop {
        invariants,
        assigns,
        line: assigns_line_in(clauses).unwrap_or(0),
        variant,
        declared,
    })
}
