// Whether predicates and measures are over plain integers (ACSL 2.3, 2.4, 2.5).
ghost use Rattle.std.specs.Prelude.{◌≡◌, ℕ, List, Option, false, map};
ghost use Rattle.std.specs.List.{list_all};
ghost use Rattle.std.specs.Option.{option_map};
ghost use Rattle.acsl_trees.specs.Tree.{view_tree, view_trees};
ghost use Rattle.core_trees.specs.View.{view_claim, view_measure, view_variables};
ghost use Rattle.plain_annotations.specs.Claims as spec;
ghost use Rattle.plain_annotations.specs.Clauses.{is_measure};
ghost use Rattle.plain_annotations.specs.Places.{place_over};
ghost use Rattle.plain_trees.specs.Taking.{claim_fits, shape_with, taking};
ghost use Rattle.plain_trees.specs.View.{view_place};
ghost use Rattle.program_trees.specs.View.{view_facts};

use crate::nodes::Place;
use crate::trees::is_plain;
use acsl_trees::Tree;
use core_trees::{Claim, FunctionVariable, Measure};
use program_trees::Facts;
use wp_base::CellKind;

/// What annotations may name in a function with these variables.
pub(crate) fn place_of(facts: &Facts, own: &[FunctionVariable], has_result: bool) -> Place
    ensures { (takes : List (Option ℕ)) → view_place result takes ≡ place_over (view_facts facts.now) (taking takes) (view_variables own.now) has_result }
{
    Place {
        globals: facts.globals.len(),
        own: own.len(),
        has_result,
    }
}

/// A predicate, or a number.
pub(crate) fn is_claim(
    facts: &Facts,
    takes: &[Option<usize>],
    own: &[FunctionVariable],
    has_result: bool,
    tree: &Tree,
) -> bool
    ensures { result ≡ spec.is_claim (view_facts facts.now) (taking takes.now) (view_variables own.now) has_result (view_tree tree.now) }
{
    is_plain(place_of(facts, own, has_result), takes, tree)
}

/// Predicates in their places.
pub(crate) fn are_claims(
    facts: &Facts,
    takes: &[Option<usize>],
    own: &[FunctionVariable],
    has_result: bool,
    claims: &[Claim],
) -> bool
    ensures { result ≡ list_all (claim_fits (view_facts facts.now) (taking takes.now) (view_variables own.now) has_result) (map view_claim claims.now) }
{
    for at in 0..claims.len() {
        let fits = is_claim(facts, takes, own, has_result, &claims[at].what);
        if !fits {
            return false;
        }
    }
    true
}

/// What a behavior assumes.
pub(crate) fn are_assumed(
    facts: &Facts,
    takes: &[Option<usize>],
    own: &[FunctionVariable],
    trees: &[Tree],
) -> bool
    ensures { result ≡ list_all (spec.is_claim (view_facts facts.now) (taking takes.now) (view_variables own.now) false) (view_trees trees.now) }
{
    for at in 0..trees.len() {
        let fits = is_claim(facts, takes, own, false, &trees[at]);
        if !fits {
            return false;
        }
    }
    true
}

/// A measure, if there is one.
pub(crate) fn is_measured(
    facts: &Facts,
    takes: &[Option<usize>],
    own: &[FunctionVariable],
    gives: Option<CellKind>,
    measure: &Option<Measure>,
) -> bool
    ensures { result ≡ is_measure (view_facts facts.now) (taking takes.now) (shape_with (view_variables own.now) gives) (option_map view_measure measure.now) }
{
    match measure {
        None => true,
        Some(measure) => is_claim(facts, takes, own, false, &measure.what),
    }
}
