// Whether definitions that call themselves are in form (ACSL 2.6.3).
ghost use Rattle.std.specs.Prelude.{◌≡◌, ◌<◌, ◌&&◌, length, map, IfOk};
ghost use Rattle.acsl_expand.specs.Expansion.{view_all, view_meant};
ghost use Rattle.acsl_trees.specs.Tree.{view_tree};
ghost use Rattle.c_runs.specs.Truth.{kid};
ghost use Rattle.annotation_words.specs.View.{view_called, view_global, view_named};
ghost use Rattle.acsl_encode.specs.Readings as readings;
ghost use Rattle.logic_calls.specs.View.{IsTold, view_names};
ghost use Rattle.logic_order.specs.Order as spec;
ghost use Rattle.logic_order.specs.Recursive as recursive;
ghost use Rattle.logic_order.specs.Simple as simple;
ghost use Rattle.plain_annotations.specs.Settings.{globals_from};
ghost use Rattle.program_trees.specs.View.{view_facts};

use acsl_expand::Meant;
use acsl_trees::Tree;
use annotation_words::{Called, GlobalName, Named};
use logic_calls::{FileNames, called_fits, takes_integers, told};
use logic_trees::{is_recursion, is_simple};
use program_trees::Facts;
use std::alloc::Global;
use wp_base::NoMemory;

#[tactic(auto, using(crate::proofs::Forming::descends_laws))]
fn descends(number: u32, params: &[Named], body: &Tree) -> bool
    ensures { result ≡ recursive.descends number (map view_named params.now) (view_tree body.now) }
{
    if params.len() == 0 {
        return false;
    }
    let last = params.len() - 1;
    is_recursion(body, number, last)
}

#[tactic(auto, using(crate::proofs::Forming::kid_laws))]
fn kid_is_simple(body: &Tree, at: usize) -> bool
    ensures { result ≡ simple.is_simple (kid (view_tree body.now) at) }
{
    let kids = body.kids.as_slice();
    if at >= kids.len() {
        return true;
    }
    is_simple(&kids[at])
}

fn is_formed(number: u32, params: &[Named], body: &Tree) -> bool
    ensures { result ≡ (recursive.descends number (map view_named params.now) (view_tree body.now) && spec.has_simple_parts (view_tree body.now)) }
{
    if !descends(number, params, body) {
        return false;
    }
    kid_is_simple(body, 1) && kid_is_simple(body, 2)
}

// A function takes integers alone, its names fit, and it is in form.
#[tactic(auto, using(crate::proofs::Forming::function_laws))]
fn is_function(
    alloc: Global,
    facts: &Facts,
    number: u32,
    called: &Called,
    body: &Tree,
) -> Result<bool, NoMemory>
    ensures { IfOk result (λ fits. fits ≡ spec.is_function (view_facts facts.now) number (view_called called.now) (view_tree body.now)) }
{
    let takes = takes_integers(facts, called);
    if !takes {
        return Ok(false);
    }
    let fits = called_fits(alloc, called)?;
    if !fits {
        return Ok(false);
    }
    Ok(is_formed(number, called.params.as_slice(), body))
}

fn number_at(at: usize) -> Result<u32, NoMemory>
    ensures { IfOk result (λ number. number ≡ at) }
{
    match u32::try_from(at) {
        Ok(number) => Ok(number),
        Err(_) => Err(NoMemory),
    }
}

fn told_fits(
    alloc: Global,
    facts: &Facts,
    number: u32,
    found: Option<Called>,
    body: &Tree,
) -> Result<bool, NoMemory>
    ensures { (c : readings.Called) → IsTold found c → IfOk result (λ fits. fits ≡ spec.is_function (view_facts facts.now) number c (view_tree body.now)) }
{
    match found {
        Some(called) => {
            let fits = is_function(alloc, facts, number, &called, body)?;
            Ok(fits)
        }
        None => Ok(false),
    }
}

// One that doesn't call itself is expanded in place.
#[tactic(auto, using(crate::proofs::Forming::definition_plain))]
fn definition_fits(
    alloc: Global,
    facts: &Facts,
    names: &FileNames,
    globals: &[GlobalName],
    number: usize,
    meant: &Meant,
) -> Result<bool, NoMemory>
    requires inside { number < length facts.now.definitions }
    requires globals_ { map view_global globals.now ≡ globals_from 0 (view_facts facts.now).globals names.now.variables }
    ensures { IfOk result (λ fits. fits ≡ spec.definition_fits (view_facts facts.now) (view_names names.now) number (view_meant meant.now)) }
{
    if !meant.is_recursive {
        return Ok(true);
    }
    let place = number_at(number)?;
    let found = told(alloc, facts, names, globals, number)?;
    told_fits(alloc, facts, place, found, &meant.body)
}

/// Whether all definitions that call themselves are in form.
#[tactic(auto, using(crate::proofs::Forming::all_laws))]
pub(crate) fn all_fit(
    alloc: Global,
    facts: &Facts,
    names: &FileNames,
    globals: &[GlobalName],
) -> Result<bool, NoMemory>
    requires { map view_global globals.now ≡ globals_from 0 (view_facts facts.now).globals names.now.variables }
    ensures { IfOk result (λ fit. fit ≡ spec.all_fit (view_facts facts.now) (view_names names.now) 0 (view_all facts.now.definitions)) }
{
    let definitions = facts.definitions.as_slice();
    for at in 0..definitions.len() {
        let fits = definition_fits(alloc, facts, names, globals, at, &definitions[at])?;
        if !fits {
            return Ok(false);
        }
    }
    Ok(true)
}
