// Regions of sets, and whether the variables that they are may be named (ACSL 2.4.2).
ghost use Rattle.std.specs.Prelude.{◌≡◌};
ghost use Rattle.std.specs.List.{list_all};
ghost use Rattle.acsl_trees.specs.Tree.{view_tree, view_trees};
ghost use Rattle.core_trees.specs.View.{view_loop};
ghost use Rattle.loop_sets.specs.Scopes.{is_among, only_in, region_in, scope_of, variable_in};
ghost use Rattle.loop_words.specs.Sets.{region_variable};
ghost use Rattle.plain_words.specs.Sets as spec;

use acsl_trees::{Head, Tree};
use core_trees::Loop;
use typed_prog::Variable;

// ---- which variable a region is

// The variable that a head is, which has no kids.
fn variable_of(head: &Head, kids: &[Tree]) -> Option<Variable>
    ensures { result ≡ variable_in head.now (view_trees kids.now) }
{
    match head {
        Head::Variable(variable) => {
            if kids.is_empty() {
                Some(*variable)
            } else {
                None
            }
        }
        _ => None,
    }
}

// The variable that the only kid is.
#[tactic(auto, using(crate::proofs::RegionTrees::no_only_kid))]
fn only_variable(kids: &[Tree]) -> Option<Variable>
    ensures { result ≡ only_in (view_trees kids.now) }
{
    if kids.len() != 1 {
        return None;
    }
    let kid = &kids[0];
    variable_of(&kid.head, kid.kids.as_slice())
}

fn region_of(head: &Head, kids: &[Tree]) -> Option<Variable>
    ensures { result ≡ region_in head.now (view_trees kids.now) }
{
    match head {
        Head::Region(_) => only_variable(kids),
        _ => None,
    }
}

// The variable that a region is, if it is one.
#[tactic(auto, using(crate::proofs::RegionTrees::region_whole))]
fn variable_at(region: &Tree) -> Option<Variable>
    ensures { result ≡ region_variable (view_tree region.now) }
{
    region_of(&region.head, region.kids.as_slice())
}

// ---- whether it is in scope

fn is_among(names: &[u32], variable: u32) -> bool
    ensures { result ≡ is_among names.now variable }
{
    for name in names {
        if *name == variable {
            return true;
        }
    }
    false
}

fn is_in_scope(params: u32, names: &[u32], variable: u32) -> bool
    ensures { result ≡ scope_of names.now params variable }
{
    is_among(names, variable) || variable < params
}

fn is_there(params: u32, names: &[u32], declared: u32, variable: Option<Variable>) -> bool
    ensures { result ≡ spec.is_there (scope_of names.now params) declared variable }
{
    match variable {
        Some(Variable::Local(local)) => local < declared && is_in_scope(params, names, local),
        Some(Variable::Global(_)) => true,
        None => true,
    }
}

fn region_is_there(params: u32, names: &[u32], declared: u32, region: &Tree) -> bool
    ensures { result ≡ spec.region_is_there (scope_of names.now params) declared (view_tree region.now) }
{
    is_there(params, names, declared, variable_at(region))
}

fn regions_are_there(params: u32, names: &[u32], declared: u32, regions: &[Tree]) -> bool
    ensures { result ≡ list_all (spec.region_is_there (scope_of names.now params) declared) (view_trees regions.now) }
{
    for region in regions {
        if !region_is_there(params, names, declared, region) {
            return false;
        }
    }
    true
}

/// A loop's own set names variables of the function that were declared before it and are in scope.
pub(crate) fn set_stands(params: u32, names: &[u32], claims: &Loop) -> bool
    ensures { result ≡ spec.set_stands (scope_of names.now params) (view_loop claims.now) }
{
    match &claims.assigns {
        Some(regions) => regions_are_there(params, names, claims.declared, regions.as_slice()),
        None => true,
    }
}
