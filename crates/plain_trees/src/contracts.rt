// Whether contracts and annotations of loops are over plain integers (ACSL 2.3, 2.4).
ghost use Rattle.std.specs.Prelude.{◌≡◌, ◌&&◌, [], map};
ghost use Rattle.std.specs.List.{list_all};
ghost use Rattle.acsl_trees.specs.Tree.{view_trees};
ghost use Rattle.core_trees.specs.View.{view_loop, view_variables};
ghost use Rattle.plain_annotations.specs.Annotated as annotated;
ghost use Rattle.plain_annotations.specs.Clauses as spec;
ghost use Rattle.plain_annotations.specs.Places as places;
ghost use Rattle.plain_trees.specs.Taking.{assigns_file, shape_with, taking};
ghost use Rattle.program_trees.specs.View.{view_behavior, view_contract, view_facts};

use crate::claims::{are_assumed, are_claims, is_measured};
use crate::regions::is_set;
use acsl_trees::Tree;
use core_trees::{FunctionVariable, Loop};
use program_trees::{Behavior, Contract, Facts};
use wp_base::CellKind;

fn is_behavior(
    facts: &Facts,
    takes: &[Option<usize>],
    own: &[FunctionVariable],
    gives: Option<CellKind>,
    behavior: &Behavior,
) -> bool
    ensures { result ≡ spec.is_behavior (view_facts facts.now) (taking takes.now) (shape_with (view_variables own.now) gives) (view_behavior behavior.now) }
{
    let has_result = gives.is_some();
    are_assumed(facts, takes, own, behavior.assumes.as_slice())
        && (are_claims(facts, takes, own, false, behavior.requires_.as_slice())
            && (are_claims(facts, takes, own, has_result, behavior.ensures_.as_slice())
                && is_set(facts, own, &behavior.assigns)))
}

fn are_behaviors(
    facts: &Facts,
    takes: &[Option<usize>],
    own: &[FunctionVariable],
    gives: Option<CellKind>,
    behaviors: &[Behavior],
) -> bool
    ensures { result ≡ list_all (spec.is_behavior (view_facts facts.now) (taking takes.now) (shape_with (view_variables own.now) gives)) (map view_behavior behaviors.now) }
{
    for at in 0..behaviors.len() {
        let fits = is_behavior(facts, takes, own, gives, &behaviors[at]);
        if !fits {
            return false;
        }
    }
    true
}

#[tactic(auto, using(crate::proofs::Passing::none_is))]
fn are_none(trees: &[Tree]) -> bool
    ensures { result ≡ places.are_none (view_trees trees.now) }
{
    trees.len() == 0
}

/// The contract of a function.
pub(crate) fn is_contract(
    facts: &Facts,
    takes: &[Option<usize>],
    own: &[FunctionVariable],
    gives: Option<CellKind>,
    contract: &Contract,
) -> bool
    ensures { result ≡ spec.is_contract (view_facts facts.now) (taking takes.now) (shape_with (view_variables own.now) gives) (view_contract contract.now) }
{
    are_none(contract.plain.assumes.as_slice())
        && (is_behavior(facts, takes, own, gives, &contract.plain)
            && (are_behaviors(facts, takes, own, gives, contract.behaviors.as_slice())
                && is_measured(facts, takes, own, gives, &contract.decreases)))
}

/// What is claimed of a loop.
pub(crate) fn is_loop(
    facts: &Facts,
    takes: &[Option<usize>],
    own: &[FunctionVariable],
    gives: Option<CellKind>,
    claims: &Loop,
) -> bool
    ensures { result ≡ spec.is_loop (view_facts facts.now) (taking takes.now) (shape_with (view_variables own.now) gives) (view_loop claims.now) }
{
    are_claims(facts, takes, own, false, claims.invariants.as_slice())
        && (is_set(facts, own, &claims.assigns)
            && is_measured(facts, takes, own, gives, &claims.variant))
}

fn are_sets(facts: &Facts, behaviors: &[Behavior]) -> bool
    ensures { result ≡ list_all (assigns_file (view_facts facts.now)) (map view_behavior behaviors.now) }
{
    for at in 0..behaviors.len() {
        let fits = is_set(facts, &[], &behaviors[at].assigns);
        if !fits {
            return false;
        }
    }
    true
}

/// Whether what a function may change is told of variables of the file alone.
pub(crate) fn changes_file(facts: &Facts, contract: &Contract) -> bool
    ensures { result ≡ annotated.sets_of_file (view_facts facts.now) (view_contract contract.now) }
{
    is_set(facts, &[], &contract.plain.assigns) && are_sets(facts, contract.behaviors.as_slice())
}
