// Whether the annotations of a program are over plain integers.
ghost use Rattle.std.specs.Prelude.{◌≡◌, ◌&&◌, not, map};
ghost use Rattle.std.specs.List.{list_all};
ghost use Rattle.std.specs.Option.{option_map};
ghost use Rattle.acsl_expand.specs.Expansion.{view_all, view_meant};
ghost use Rattle.checked_trees.specs.View.{view_checked_function};
ghost use Rattle.plain_annotations.specs.Annotated as spec;
ghost use Rattle.plain_annotations.specs.Settings as settings;
ghost use Rattle.plain_trees.specs.Taking.{if_annotated, taking};
ghost use Rattle.program_trees.specs.View.{view_facts};

use crate::contracts::{changes_file, is_contract};
use crate::steps::all_claim;
use acsl_expand::Meant;
use checked_trees::{CheckedFunction, CheckedProgram};
use program_trees::Facts;

/// Whether a function's contract and the annotations of its body are over plain integers, and what it may change is told of variables of the file, where
/// logic functions take so many integers, by their numbers.
pub fn is_annotated(facts: &Facts, takes: &[Option<usize>], function: &CheckedFunction<'_>) -> bool
    ensures { result ≡ spec.is_annotated (view_facts facts.now) (taking takes.now) (view_checked_function function.now) }
{
    let own = function.variables.as_slice();
    is_contract(facts, takes, own, function.result, function.contract)
        && (changes_file(facts, function.contract)
            && all_claim(function.body.as_slice(), facts, takes, own, function.result))
}

fn is_annotated_if(
    facts: &Facts,
    takes: &[Option<usize>],
    function: &Option<CheckedFunction<'_>>,
) -> bool
    ensures { result ≡ if_annotated (view_facts facts.now) (taking takes.now) (option_map view_checked_function function.now) }
{
    match function {
        None => true,
        Some(function) => is_annotated(facts, takes, function),
    }
}

fn all_annotated(
    facts: &Facts,
    takes: &[Option<usize>],
    functions: &[Option<CheckedFunction<'_>>],
) -> bool
    ensures { result ≡ list_all (if_annotated (view_facts facts.now) (taking takes.now)) (map (option_map view_checked_function) functions.now) }
{
    for at in 0..functions.len() {
        let fits = is_annotated_if(facts, takes, &functions[at]);
        if !fits {
            return false;
        }
    }
    true
}

/// Whether this is so of all functions of a program that have bodies.
pub fn are_annotated(takes: &[Option<usize>], program: &CheckedProgram<'_>) -> bool
    ensures { result ≡ list_all (if_annotated (view_facts program.now.facts.now) (taking takes.now)) (map (option_map view_checked_function) program.now.functions) }
{
    all_annotated(program.facts, takes, program.functions.as_slice())
}

fn calls_none(definition: &Meant) -> bool
    ensures { result ≡ settings.calls_none (view_meant definition.now) }
{
    !definition.is_recursive
}

/// Whether no logic function calls itself.
pub fn calls_nothing(definitions: &[Meant]) -> bool
    ensures { result ≡ list_all settings.calls_none (view_all definitions.now) }
{
    for at in 0..definitions.len() {
        let fits = calls_none(&definitions[at]);
        if !fits {
            return false;
        }
    }
    true
}
