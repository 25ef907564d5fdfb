// Whether functions take integers alone, and their names fit (ACSL 2.6.3).
ghost use Rattle.std.specs.Prelude.{◌≡◌, [], ◌&&◌, not, map, slice_get, IfOk};
ghost use Rattle.std.specs.List.{list_all};
ghost use Rattle.annotation_words.specs.View.{view_called, view_global, view_named};
ghost use Rattle.core_trees.specs.View.{view_variables};
ghost use Rattle.logic_order.specs.Order as spec;
ghost use Rattle.plain_annotations.specs.Places as places;
ghost use Rattle.program_trees.specs.View.{view_facts};
ghost use Rattle.qed_terms.specs.Names.{is_memory_name};

use crate::globals::kind_of;
use crate::names::is_unmarked;
use crate::params::params_in;
use annotation_heads::holds_all;
use annotation_words::{Called, GlobalName, Named};
use c_kinds::Machdep;
use core_trees::FunctionVariable;
use goal_words::{is_name, name_sort};
use program_trees::Facts;
use qed_terms::Sort;
use regular_settings::all_differ;
use std::alloc::Global;
use wp_base::{Kind, NoMemory, Str};

// ---- integers

fn is_one(parameter: &Named) -> bool
    ensures { result ≡ places.is_one (view_named parameter.now) }
{
    match parameter {
        Named::Integer(_) => true,
        Named::Pointer(_, _) => false,
    }
}

#[tactic(auto, using(regular_settings::proofs::Passing::all_laws))]
fn are_integers(params: &[Named]) -> bool
    ensures { result ≡ list_all places.is_one (map view_named params.now) }
{
    for at in 0..params.len() {
        if !is_one(&params[at]) {
            return false;
        }
    }
    true
}

fn holds_kind(model: Machdep, kind: Kind, variables: &[FunctionVariable], number: u32) -> bool
    ensures { result ≡ places.holds_kind model kind (slice_get (view_variables variables.now) number) }
{
    match variables.get(number as usize) {
        Some(variable) => holds_all(model, kind, kind_of(variable)),
        None => false,
    }
}

fn is_given(facts: &Facts, global: &GlobalName) -> bool
    ensures { result ≡ places.is_given (view_facts facts.now) (view_global global.now) }
{
    match global {
        GlobalName::Integer(number, kind, _) => {
            holds_kind(facts.model, *kind, facts.globals.as_slice(), *number)
        }
        GlobalName::Pointer(_, _, _) => false,
    }
}

#[tactic(auto, using(regular_settings::proofs::Passing::all_laws))]
fn are_given(facts: &Facts, globals: &[GlobalName]) -> bool
    ensures { result ≡ list_all (places.is_given (view_facts facts.now)) (map view_global globals.now) }
{
    for at in 0..globals.len() {
        if !is_given(facts, &globals[at]) {
            return false;
        }
    }
    true
}

/// Whether a function takes integers alone, and variables of the file that hold their kinds.
#[tactic(auto, using(crate::proofs::Parameters::none_laws))]
pub fn takes_integers(facts: &Facts, called: &Called) -> bool
    ensures { result ≡ places.takes_integers (view_facts facts.now) (view_called called.now) }
{
    let ones = are_integers(called.params.as_slice());
    if !ones {
        return false;
    }
    if called.memories.as_slice().len() != 0 {
        return false;
    }
    are_given(facts, called.globals.as_slice())
}

// ---- names

fn is_no_memory(name: &[u8]) -> bool
    ensures { result ≡ not (is_memory_name name.now) }
{
    match name_sort(name) {
        Sort::Int => true,
        Sort::Memory => false,
        Sort::Table => false,
    }
}

fn name_fits(name: &Str) -> bool
    ensures { result ≡ spec.name_fits name.now }
{
    let bytes = name.bytes();
    if !is_name(bytes) {
        return false;
    }
    is_no_memory(bytes) && is_unmarked(bytes)
}

fn named_fits(parameter: &Named) -> bool
    ensures { result ≡ spec.named_fits (view_named parameter.now) }
{
    match parameter {
        Named::Integer(name) => name_fits(name),
        Named::Pointer(block, offset) => name_fits(block) && name_fits(offset),
    }
}

fn global_fits(global: &GlobalName) -> bool
    ensures { result ≡ spec.global_fits (view_global global.now) }
{
    match global {
        GlobalName::Integer(_, _, name) => name_fits(name),
        GlobalName::Pointer(_, block, offset) => name_fits(block) && name_fits(offset),
    }
}

#[tactic(auto, using(regular_settings::proofs::Passing::all_laws))]
fn all_named_fit(params: &[Named]) -> bool
    ensures { result ≡ list_all spec.named_fits (map view_named params.now) }
{
    for at in 0..params.len() {
        if !named_fits(&params[at]) {
            return false;
        }
    }
    true
}

#[tactic(auto, using(regular_settings::proofs::Passing::all_laws))]
fn all_globals_fit(globals: &[GlobalName]) -> bool
    ensures { result ≡ list_all spec.global_fits (map view_global globals.now) }
{
    for at in 0..globals.len() {
        if !global_fits(&globals[at]) {
            return false;
        }
    }
    true
}

fn names_fit(called: &Called) -> bool
    ensures { result ≡ (list_all spec.named_fits (map view_named called.now.params) && list_all spec.global_fits (map view_global called.now.globals)) }
{
    all_named_fit(called.params.as_slice()) && all_globals_fit(called.globals.as_slice())
}

/// Whether a function that is given no memories has a name, and all that it is given has names that differ.
#[tactic(auto, using(crate::proofs::Parameters::fits_laws))]
pub fn called_fits(alloc: Global, called: &Called) -> Result<bool, NoMemory>
    requires { called.now.memories ≡ [] }
    ensures { IfOk result (λ fits. fits ≡ spec.called_fits (view_called called.now)) }
{
    let named = is_name(called.name.bytes());
    if !named {
        return Ok(false);
    }
    let fit = names_fit(called);
    if !fit {
        return Ok(false);
    }
    let params = params_in(alloc, called)?;
    Ok(all_differ(params.as_slice()))
}
